//! The numbers of a record as text, with a space before each.

ghost use Rattle.std.specs.Prelude.{◌≡◌, Some};
ghost use Rattle.records.specs.Lines.{spaced, copies_of, element_fields, numbers_of};

use bounds::Point;
use elements::{Element, Placement};
use fields::{Layers, Repeated, Sides, Stroke};
use std::fmt;
use steps::Record;

// How many copies of an element there are.
fn copies_of(repetition: Option<Repeated>) -> u64
    ensures counts { result ≡ copies_of repetition }
{
    repetition.map_or(1, |repeated| repeated.copies)
}

// The numbers of an element.
#[derive(Clone, Copy)]
struct ElementNumbers(Element);

impl fmt::Display for ElementNumbers {
    ghost output = { λ n. Some (spaced (element_fields n.0)) };

    fn fmt<W: fmt::Write>(&self, f: &mut fmt::Formatter<W>) -> fmt::Result {
        match self.0 {
            Element::Placement(placement) => {
                let Point { x, y } = placement.at;
                let Placement { angle, flip, .. } = placement;
                let copies = copies_of(placement.repetition);
                write!(f, " {x} {y} {angle} {flip} {copies}")
            }
            Element::Text(text) => {
                let Layers {
                    layer: textlayer,
                    datatype: texttype,
                } = text.layers;
                let Point { x, y } = text.at;
                let copies = copies_of(text.repetition);
                write!(f, " {textlayer} {texttype} {x} {y} {copies}")
            }
            Element::Rectangle(rectangle) => {
                let Layers { layer, datatype } = rectangle.layers;
                let Sides { width, height } = rectangle.sides;
                let Point { x, y } = rectangle.at;
                let copies = copies_of(rectangle.repetition);
                write!(f, " {layer} {datatype} {width} {height} {x} {y} {copies}")
            }
            Element::Polygon(polygon) => {
                let Layers { layer, datatype } = polygon.layers;
                let vertices = polygon.vertices;
                let Point { x, y } = polygon.at;
                let copies = copies_of(polygon.repetition);
                write!(f, " {layer} {datatype} {vertices} {x} {y} {copies}")
            }
            Element::Path(path) => {
                let Layers { layer, datatype } = path.layers;
                let Stroke { half, start, end } = path.stroke;
                let vertices = path.vertices;
                let Point { x, y } = path.at;
                let copies = copies_of(path.repetition);
                write!(
                    f,
                    " {layer} {datatype} {half} {start} {end} {vertices} {x} {y} {copies}"
                )
            }
        }
    }
}

/// The numbers of a record behind its place and its ID.
#[derive(Clone, Copy)]
pub struct Numbers(pub Record);

impl fmt::Display for Numbers {
    ghost output = { λ n. Some (spaced (numbers_of n.0)) };

    fn fmt<W: fmt::Write>(&self, f: &mut fmt::Formatter<W>) -> fmt::Result {
        match self.0 {
            Record::Pad | Record::Cell(_) | Record::Mode(_) => Ok(()),
            Record::Start(start) => write!(f, " {} {}", start.unit, u8::from(start.late)),
            Record::End(end) => write!(f, " {} {}", end.scheme(), end.signature()),
            Record::CellName(name) | Record::TextString(name) => match name.number {
                Some(number) => write!(f, " {number}"),
                None => Ok(()),
            },
            Record::Element(element) => write!(f, "{}", ElementNumbers(element)),
        }
    }
}
