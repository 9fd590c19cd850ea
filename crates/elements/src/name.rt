//! Placements and texts: elements that refer to a cell or to a text.

ghost use Rattle.std.specs.Prelude.{◌≡◌};
ghost use Rattle.elements.specs.Elements.{placed, lettered, placement, text as text_element};

use crate::element::{Drawn, Element, Placement, Text};
use crate::info::{AnchorFlags, following_at, form_of, present_of, read_info};
use fields::{
    Anchor, LayerVariables, Layers, Modals, PlacementVariables, Reference, TextVariables,
    read_anchor, read_layers, read_reference,
};
use tokens::{Read, StringRule, TokenFault};

// The flag of a placement, CNXYRAAF, that announces a cell.
const CELL: u8 = 0x80;

// The flag of a placement that says that the cell is a number.
const CELL_NUMBER: u8 = 0x40;

// What a text, 0CNXYRTL, may not have.
const TEXT_RESERVED: u8 = 0x80;

// The flag of a text record that announces a text.
const TEXT: u8 = 0x40;

// The flag of a text record that says that the text is a number.
const TEXT_NUMBER: u8 = 0x20;

// The placement, and the variables after it.
fn place(m: Modals, info: u8, cell: Reference, anchor: Anchor) -> Drawn
    ensures { result ≡ placed m info cell anchor }
{
    let element = Element::Placement(Placement {
        cell,
        angle: info / 2 % 4,
        flip: info % 2,
        at: anchor.at,
        repetition: anchor.repetition,
    });
    let placement = PlacementVariables {
        at: anchor.at,
        cell: Some(cell),
    };
    Drawn {
        element,
        modals: Modals {
            placement,
            repetition: anchor.stored,
            ..m
        },
    }
}

/// The fields of the PLACEMENT record whose first byte is at `first`.
pub fn read_placement(
    file: &[u8],
    at: usize,
    first: usize,
    m: Modals,
) -> Result<Read<Drawn>, TokenFault>
    ensures reads { result ≡ placement file.now at first m }
{
    let info = read_info(file, at, 0)?;
    let flags = info.value;
    let form = form_of(flags, CELL, CELL_NUMBER);
    let cell = read_reference(
        file,
        info.next,
        first,
        StringRule::Name,
        form,
        m.placement.cell,
    )?;
    let present = present_of(flags, AnchorFlags::PLACEMENT);
    let anchor = read_anchor(
        file,
        cell.next,
        first,
        present,
        following_at(m, m.placement.at),
        None,
    )?;
    Ok(anchor.map(|anchor| place(m, flags, cell.value, anchor)))
}

// The text, and the variables after it.
fn letter(m: Modals, text: Reference, layers: Layers, anchor: Anchor) -> Drawn
    ensures { result ≡ lettered m text layers anchor }
{
    let element = Element::Text(Text {
        text,
        layers,
        at: anchor.at,
        repetition: anchor.repetition,
    });
    let stored = TextVariables {
        at: anchor.at,
        text: Some(text),
        layers: LayerVariables::from(layers),
    };
    Drawn {
        element,
        modals: Modals {
            text: stored,
            repetition: anchor.stored,
            ..m
        },
    }
}

/// The fields of the TEXT record whose first byte is at `first`.
pub fn read_text(file: &[u8], at: usize, first: usize, m: Modals) -> Result<Read<Drawn>, TokenFault>
    ensures reads { result ≡ text_element file.now at first m }
{
    let info = read_info(file, at, TEXT_RESERVED)?;
    let flags = info.value;
    let form = form_of(flags, TEXT, TEXT_NUMBER);
    let text = read_reference(file, info.next, first, StringRule::Ascii, form, m.text.text)?;
    let layers = read_layers(file, text.next, first, flags, m.text.layers)?;
    let present = present_of(flags, AnchorFlags::TEXT);
    let anchor = read_anchor(
        file,
        layers.next,
        first,
        present,
        following_at(m, m.text.at),
        None,
    )?;
    Ok(anchor.map(|anchor| letter(m, text.value, layers.value, anchor)))
}
