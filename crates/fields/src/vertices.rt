//! The point list of a record: present, or inherited.

ghost use Rattle.std.specs.Prelude.{◌≡◌, IfOk};
ghost use Rattle.fields.specs.Shapes.{outline_at, outline, vertices_of, Boxed};

use crate::number::inherited;
use bounds::Bounds;
use point_lists::read_list;
use tokens::{Read, TokenFault};

/// Where a point list stands, whether it is that of a polygon, how many vertices it has, and the box around them as offsets
/// from the first.
#[derive(Clone, Copy)]
pub struct Outline {
    pub place: usize,
    pub closed: bool,
    pub vertices: u64,
    pub bounds: Bounds,
}

// The list at the place `place`.
fn read_at(file: &[u8], place: usize, closed: bool) -> Result<Read<Outline>, TokenFault>
    ensures reads { result ≡ outline_at file.now place closed }
    ensures boxed { IfOk result (λ x. Boxed (vertices_of file.now x.value) x.value.bounds) }
{
    Ok(read_list(file, place, closed)?.map(|list| Outline {
        place,
        closed,
        vertices: list.vertices,
        bounds: list.bounds,
    }))
}

/// The point list at the place `at`, of a polygon if `closed`, else of a path; where it is not present, the one that was used
/// last, which is read again.
pub fn read_outline(
    file: &[u8],
    at: usize,
    first: usize,
    closed: bool,
    present: bool,
    variable: Option<usize>,
) -> Result<Read<Outline>, TokenFault>
    ensures reads { result ≡ outline file.now at first closed present variable }
    ensures boxed { IfOk result (λ x. Boxed (vertices_of file.now x.value) x.value.bounds) }
{
    if present {
        return read_at(file, at, closed);
    }
    let old = inherited(at, first, variable)?;
    let list = read_at(file, old.value, closed)?;
    Ok(Read {
        next: old.next,
        ..list
    })
}
