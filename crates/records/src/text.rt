//! The lines of records and faults, put behind the bytes of a buffer.

ghost use Rattle.std.specs.Prelude.{◌≡◌, ◌∷◌, ◌++◌, string_bytes, OnOk};
ghost use Rattle.tokens.specs.Parts.{bytes_in};
ghost use Rattle.records.specs.Lines.{spaced, element_name, name_of, reference_text, name_fields, line_of, fault_line};

use crate::numbers::Numbers;
use elements::Element;
use fields::Reference;
use std::alloc::{AllocError, Global};
use steps::{Fault, Record, RecordAt};
use tokens::Part;

fn element_name(element: Element) -> Option<Reference>
    ensures names { result ≡ element_name element }
{
    match element {
        Element::Placement(placement) => Some(placement.cell),
        Element::Text(text) => Some(text.text),
        Element::Rectangle(_) | Element::Polygon(_) | Element::Path(_) => None,
    }
}

// The name or the text that a record has.
fn name_of(content: Record) -> Option<Reference>
    ensures names { result ≡ name_of content }
{
    match content {
        Record::Pad | Record::Start(_) | Record::End(_) | Record::Mode(_) => None,
        Record::CellName(name) | Record::TextString(name) => Some(Reference::Given(name.part)),
        Record::Cell(reference) => Some(reference),
        Record::Element(element) => element_name(element),
    }
}

// Puts a text behind the buffer's bytes.
fn append_text(out: &mut Vec<u8>, text: String) -> Result<(), AllocError>
    ensures grows { OnOk result (out.new.items ≡ out.old.items ++ string_bytes text) }
{
    out.extend_from_slice(text.as_bytes())
}

// Puts a space and a part of the file behind the buffer's bytes.
fn append_part(out: &mut Vec<u8>, file: &[u8], part: Part) -> Result<(), AllocError>
    ensures grows { OnOk result (out.new.items ≡ out.old.items ++ (32 ∷ bytes_in file.now part)) }
{
    out.push(b' ')?;
    out.extend_from_slice(part.bytes_in(file))
}

fn append_reference(
    heap: Global,
    out: &mut Vec<u8>,
    file: &[u8],
    reference: Reference,
) -> Result<(), AllocError>
    ensures grows { OnOk result (out.new.items ≡ out.old.items ++ (32 ∷ reference_text file.now reference)) }
{
    match reference {
        Reference::Given(part) => append_part(out, file, part),
        Reference::Number(by) => append_text(out, format!(in heap; " #{}", by.number)?),
    }
}

fn append_name(
    heap: Global,
    out: &mut Vec<u8>,
    file: &[u8],
    content: Record,
) -> Result<(), AllocError>
    ensures grows { OnOk result (out.new.items ≡ out.old.items ++ spaced (name_fields file.now (name_of content))) }
{
    match name_of(content) {
        Some(reference) => append_reference(heap, out, file, reference),
        None => Ok(()),
    }
}

/// Puts the line of a record behind the buffer's bytes.
// No `write!` to the buffer: its failure is one of any writer, and this one can only run out of memory.
pub fn append_line(
    heap: Global,
    out: &mut Vec<u8>,
    file: &[u8],
    found: RecordAt,
) -> Result<(), AllocError>
    ensures grows { OnOk result (out.new.items ≡ out.old.items ++ line_of file.now found) }
{
    append_text(
        out,
        format!(in heap; "{} {}{}", found.place, found.id, Numbers(found.content))?,
    )?;
    append_name(heap, out, file, found.content)?;
    out.push(b'\n')?;
    Ok(())
}

/// Puts the line of a fault behind the buffer's bytes.
pub fn append_fault(heap: Global, out: &mut Vec<u8>, fault: Fault) -> Result<(), AllocError>
    ensures grows { OnOk result (out.new.items ≡ out.old.items ++ fault_line fault) }
{
    let (number, place) = (fault.kind.number(), fault.place);
    let Fault { first, id, .. } = fault;
    append_text(out, format!(in heap; "F {number} {place} {first} {id}\n")?)
}
