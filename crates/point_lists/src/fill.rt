//! The vertices of a list written to lent memory: the list is read again at its place.

ghost use Rattle.std.specs.Prelude.{◌≡◌, ℕ, ◌≤◌, List, length, IfSome};
ghost use Rattle.tokens.specs.Answers.{got};
ghost use Rattle.bounds.specs.Points.{reach, Near};
ghost use Rattle.point_lists.specs.Walks.{Steady};
ghost use Rattle.point_lists.specs.Lists.{walked, point_list};
ghost use Rattle.point_lists.specs.Fills.{Filled, filled, Laid, laid_count, laid_memory};

use crate::kind::ListKind;
use crate::read::{read_head, read_list};
use crate::walk::{Walk, advance};
use bounds::{Point, REACH};
use tokens::Read;

// Writes the vertices after the first of a list over `out`, one for each displacement, and answers the walk's end. The
// displacements begin at the place `at`.
fn write_walk(
    file: &[u8],
    at: usize,
    kind: ListKind,
    first: Point,
    out: &mut [Point],
) -> Option<Walk>
    requires { Near reach first }
    ensures steady { IfSome result (λ w. Steady w) }
    ensures writes { Filled result out.new (filled first out.old (walked kind (length out.old) file.now at)) }
{
    let mut step = Read {
        value: Walk::begin(kind),
        next: at,
    };
    for vertex in out.iter_mut() {
        step = advance(file, step.next, step.value).ok()?;
        *vertex = first + step.value.at;
    }
    Some(step.value)
}

// Writes the vertices of the list at the place `at`, of which there is room for all.
fn write_list(
    file: &[u8],
    at: usize,
    closed: bool,
    first: Point,
    out: &mut [Point],
) -> Option<usize>
    requires { Near reach first }
    ensures { (ps : List Point) (n : ℕ) → point_list file.now at closed ≡ got ps n → length ps ≤ length out.old → Laid first ps result out.old out.new }
{
    let head = read_head(file, at, closed).ok()?;
    if head.value.count >= out.len() as u64 {
        return None;
    }
    let count = head.value.count as usize;
    out[0] = first;
    let walk = write_walk(file, head.next, head.value.kind, first, &mut out[1..=count])?;
    let Some(vertex) = head.value.kind.implied_vertex(closed, walk.at) else {
        return Some(count + 1);
    };
    if count + 1 >= out.len() {
        return None;
    }
    out[count + 1] = first + vertex;
    Some(count + 2)
}

/// Writes the vertices of the list at the place `at` over the front of `out`, and answers how many they are. `first` is
/// where the first vertex stands. The answer is none, and nothing is written, where the list has a fault, its vertices are
/// more than the memory holds, or the first vertex is out of reach.
pub fn fill_list(
    file: &[u8],
    at: usize,
    closed: bool,
    first: Point,
    out: &mut [Point],
) -> Option<usize>
    ensures counts { result ≡ laid_count first out.old (point_list file.now at closed) }
    ensures writes { out.new ≡ laid_memory first out.old (point_list file.now at closed) }
{
    let list = read_list(file, at, closed).ok()?;
    if list.value.vertices > out.len() as u64 || !first.reaches(REACH) {
        return None;
    }
    write_list(file, at, closed, first, out)
}
