//! Rectangles, polygons and paths.

ghost use Rattle.std.specs.Prelude.{◌≡◌};
ghost use Rattle.fields.specs.Anchors.{anchor};
ghost use Rattle.fields.specs.Shapes.{shape_of, Drawn as Outlined};
ghost use Rattle.elements.specs.Infos.{following};
ghost use Rattle.elements.specs.Elements.{figure_after, figure_present, sized, closed as closed_figure, drawn as open_figure, rectangle, polygon, path};

use crate::element::{Drawn, Element, Path, Polygon, Rectangle};
use crate::info::{AnchorFlags, following_at, present_of, read_info, read_rectangle_info};
use fields::{
    Anchor, FigureVariables, LayerVariables, Layers, Modals, Outline, PathVariables, SideVariables,
    Sides, Stroke, read_anchor, read_layers, read_outline, read_sides, read_stroke,
};
use tokens::{Read, TokenFault, has_flag};

// The flag of a point list, in 00PXYRDL of a polygon and EWPXYRDL of a path.
const LIST: u8 = 0x20;

// What a polygon may not have.
const POLYGON_RESERVED: u8 = 0xc0;

// The variables that figures share, after a figure.
fn figure_after(layers: Layers, anchor: Anchor) -> FigureVariables
    ensures { result ≡ figure_after layers anchor }
{
    FigureVariables {
        at: anchor.at,
        layers: LayerVariables::from(layers),
    }
}

// The coordinates and the repetition of a figure.
fn read_figure_anchor(
    file: &[u8],
    at: usize,
    first: usize,
    info: u8,
    m: Modals,
    shape: Option<Outline>,
) -> Result<Read<Anchor>, TokenFault>
    requires { Outlined file.now shape }
    ensures reads { result ≡ anchor file.now at first (figure_present info) (following m m.figure.at) (shape_of file.now shape) }
{
    let present = present_of(info, AnchorFlags::FIGURE);
    read_anchor(
        file,
        at,
        first,
        present,
        following_at(m, m.figure.at),
        shape,
    )
}

// The rectangle, and the variables after it.
fn size(m: Modals, layers: Layers, sides: Sides, anchor: Anchor) -> Drawn
    ensures { result ≡ sized m layers sides anchor }
{
    let element = Element::Rectangle(Rectangle {
        layers,
        sides,
        at: anchor.at,
        repetition: anchor.repetition,
    });
    Drawn {
        element,
        modals: Modals {
            figure: figure_after(layers, anchor),
            sides: SideVariables::from(sides),
            repetition: anchor.stored,
            ..m
        },
    }
}

/// The fields of the RECTANGLE record whose first byte is at `first`.
pub fn read_rectangle(
    file: &[u8],
    at: usize,
    first: usize,
    m: Modals,
) -> Result<Read<Drawn>, TokenFault>
    ensures reads { result ≡ rectangle file.now at first m }
{
    let info = read_rectangle_info(file, at)?;
    let flags = info.value;
    let layers = read_layers(file, info.next, first, flags, m.figure.layers)?;
    let sides = read_sides(file, layers.next, first, flags, m.sides)?;
    let anchor = read_figure_anchor(file, sides.next, first, flags, m, None)?;
    Ok(anchor.map(|anchor| size(m, layers.value, sides.value, anchor)))
}

// The polygon, and the variables after it.
fn close(m: Modals, layers: Layers, outline: Outline, anchor: Anchor) -> Drawn
    ensures { result ≡ closed_figure m layers outline anchor }
{
    let element = Element::Polygon(Polygon {
        layers,
        list: outline.place,
        vertices: outline.vertices,
        at: anchor.at,
        repetition: anchor.repetition,
    });
    Drawn {
        element,
        modals: Modals {
            figure: figure_after(layers, anchor),
            polygon: Some(outline.place),
            repetition: anchor.stored,
            ..m
        },
    }
}

/// The fields of the POLYGON record whose first byte is at `first`.
pub fn read_polygon(
    file: &[u8],
    at: usize,
    first: usize,
    m: Modals,
) -> Result<Read<Drawn>, TokenFault>
    ensures reads { result ≡ polygon file.now at first m }
{
    let info = read_info(file, at, POLYGON_RESERVED)?;
    let flags = info.value;
    let layers = read_layers(file, info.next, first, flags, m.figure.layers)?;
    let list = read_outline(
        file,
        layers.next,
        first,
        true,
        has_flag(flags, LIST),
        m.polygon,
    )?;
    let anchor = read_figure_anchor(file, list.next, first, flags, m, Some(list.value))?;
    Ok(anchor.map(|anchor| close(m, layers.value, list.value, anchor)))
}

// The path, and the variables after it.
fn draw(m: Modals, layers: Layers, stroke: Stroke, outline: Outline, anchor: Anchor) -> Drawn
    ensures { result ≡ open_figure m layers stroke outline anchor }
{
    let element = Element::Path(Path {
        layers,
        stroke,
        list: outline.place,
        vertices: outline.vertices,
        at: anchor.at,
        repetition: anchor.repetition,
    });
    let stored = PathVariables {
        half: Some(stroke.half),
        start: Some(stroke.start),
        end: Some(stroke.end),
        list: Some(outline.place),
    };
    Drawn {
        element,
        modals: Modals {
            figure: figure_after(layers, anchor),
            path: stored,
            repetition: anchor.stored,
            ..m
        },
    }
}

/// The fields of the PATH record whose first byte is at `first`.
pub fn read_path(file: &[u8], at: usize, first: usize, m: Modals) -> Result<Read<Drawn>, TokenFault>
    ensures reads { result ≡ path file.now at first m }
{
    let info = read_info(file, at, 0)?;
    let flags = info.value;
    let layers = read_layers(file, info.next, first, flags, m.figure.layers)?;
    let stroke = read_stroke(file, layers.next, first, flags, m.path)?;
    let list = read_outline(
        file,
        stroke.next,
        first,
        false,
        has_flag(flags, LIST),
        m.path.list,
    )?;
    let anchor = read_figure_anchor(file, list.next, first, flags, m, Some(list.value))?;
    Ok(anchor.map(|anchor| draw(m, layers.value, stroke.value, list.value, anchor)))
}
