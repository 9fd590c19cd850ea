//! A list read in one pass: how many vertices it has, and the box around them.

ghost use Rattle.std.specs.Prelude.{◌≡◌, ◌<◌, ◌≤◌, length, IfOk};
ghost use Rattle.tokens.specs.Chains.{largest};
ghost use Rattle.point_lists.specs.Rolls.{tally};
ghost use Rattle.point_lists.specs.Lists.{list_head, walked, noted, untoured, short_of, point_list, summarised};

use crate::kind::ListKind;
use crate::walk::{Walk, advance};
use bounds::{Bounds, Point};
use tokens::{FaultKind, Read, TokenFault, read_unsigned, refuse};

/// The beginning of a list: its type, and how many displacements it has.
#[derive(Clone, Copy)]
pub struct Head {
    pub kind: ListKind,
    pub count: u64,
}

/// A walk in short: the last vertex, and the box around all.
#[derive(Clone, Copy)]
pub struct Tour {
    pub last: Point,
    pub bounds: Bounds,
}

/// A list in short: how many vertices it has, and the box around them, as offsets from the first.
#[derive(Clone, Copy, Debug, PartialEq, Eq)]
pub struct ListSummary {
    pub vertices: u64,
    pub bounds: Bounds,
}

/// The type and the count at the place `at`.
#[tactic(auto, using(crate::proofs::Heads::kind_there, crate::proofs::Heads::kind_missing), unfolding(crate::specs::Lists::list_head))]
pub fn read_head(file: &[u8], at: usize, closed: bool) -> Result<Read<Head>, TokenFault>
    ensures { result ≡ list_head file.now at closed }
{
    let code = read_unsigned(file, at)?;
    let Ok(kind) = ListKind::try_from(code.value) else {
        return refuse(FaultKind::BadType, at);
    };
    let count = read_unsigned(file, code.next)?;
    if !kind.allows(closed, count.value) {
        return refuse(FaultKind::BadList, code.next);
    }
    Ok(count.map(|count| Head { kind, count }))
}

// The walk along the displacements of a list with that beginning, from the place `at`.
fn walk_along(file: &[u8], at: usize, head: Head) -> Result<Read<Tour>, TokenFault>
    ensures { result ≡ tally noted untoured (walked head.kind head.count file.now at) }
{
    let mut step = Read {
        value: Walk::begin(head.kind),
        next: at,
    };
    let mut bounds = Bounds::origin();
    for _i in 0..head.count {
        step = advance(file, step.next, step.value)?;
        bounds = bounds.grow(step.value.at);
    }
    Ok(Read {
        value: Tour {
            last: step.value.at,
            bounds,
        },
        next: step.next,
    })
}

fn summary(head: Head, closed: bool, tour: Tour) -> ListSummary
    requires { head.count ≤ largest }
    ensures { result ≡ short_of head.kind closed head.count tour }
{
    match head.kind.implied_vertex(closed, tour.last) {
        Some(p) => ListSummary {
            vertices: head.count + 2,
            bounds: tour.bounds.grow(p),
        },
        None => ListSummary {
            vertices: head.count + 1,
            bounds: tour.bounds,
        },
    }
}

fn summarise(file: &[u8], at: usize, closed: bool) -> Result<Read<ListSummary>, TokenFault>
    ensures { result ≡ summarised (point_list file.now at closed) }
{
    let head = read_head(file, at, closed)?;
    let tour = walk_along(file, head.next, head.value)?;
    if !head.value.kind.may_close(closed, tour.value.last) {
        return refuse(FaultKind::BadList, at);
    }
    Ok(Read {
        value: summary(head.value, closed, tour.value),
        next: tour.next,
    })
}

/// The list at the place `at`, of a polygon if `closed`, else of a path.
pub fn read_list(file: &[u8], at: usize, closed: bool) -> Result<Read<ListSummary>, TokenFault>
    ensures reads { result ≡ summarised (point_list file.now at closed) }
    ensures within { IfOk result (λ x. (at < x.next) × (x.next ≤ length file.now)) }
{
    summarise(file, at, closed)
}
