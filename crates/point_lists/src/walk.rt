//! A walk from vertex to vertex.

ghost use Rattle.std.specs.Prelude.{◌≡◌};
ghost use Rattle.bounds.specs.Points.{Near};
ghost use Rattle.tokens.specs.Chains.{largest};
ghost use Rattle.point_lists.specs.Walks.{one_way, alternate, displacement, vector_by, moved, advanced, start, Steady};

use crate::kind::ListKind;
use bounds::{FAR_REACH, Point};
use tokens::{
    FaultKind, Read, TokenFault, read_g_delta, read_signed, read_three_delta, read_two_delta,
    refuse,
};

/// Where a walk along a list stands.
#[derive(Clone, Copy)]
pub struct Walk {
    /// The type of the list.
    pub kind: ListKind,
    /// The offset from the first vertex.
    pub at: Point,
    /// The last displacement.
    pub vector: Point,
    /// Whether the next displacement goes across, where they go across and up in turn. A flag, since each step turns it over.
    pub across: bool,
}

impl Walk {
    /// The walk at the first vertex.
    pub fn begin(kind: ListKind) -> Self
        ensures { result ≡ start kind }
    {
        Walk {
            kind,
            at: Point::ORIGIN,
            vector: Point::ORIGIN,
            across: kind == ListKind::AcrossFirst,
        }
    }

    // How far the next vertex is from the last. A list of type 5 gives the change of the displacement.
    fn vector_by(self, d: Point) -> Point
        requires { Steady self × Near largest d }
        ensures { result ≡ vector_by self.kind self.vector d }
    {
        if self.kind == ListKind::Changing {
            self.vector + d
        } else {
            d
        }
    }

    // The walk one displacement further.
    fn moved_by(self, d: Point) -> Self
        requires { Steady self × Near largest d }
        ensures { result ≡ moved self d }
    {
        let vector = self.vector_by(d);
        Walk {
            at: self.at + vector,
            vector,
            across: !self.across,
            ..self
        }
    }
}

// A displacement along one axis, which is never zero.
fn read_alternate(file: &[u8], at: usize, across: bool) -> Result<Read<Point>, TokenFault>
    ensures { result ≡ alternate across file.now at }
{
    let d = read_signed(file, at)?;
    if d.value == 0 {
        return refuse(FaultKind::BadList, at);
    }
    Ok(d.map(|size| one_way(across, size)))
}

fn one_way(across: bool, size: i64) -> Point
    ensures { result ≡ one_way across size }
{
    if across {
        Point { x: size, y: 0 }
    } else {
        Point { x: 0, y: size }
    }
}

// The displacement at the place `at`.
fn read_displacement(
    file: &[u8],
    at: usize,
    kind: ListKind,
    across: bool,
) -> Result<Read<Point>, TokenFault>
    ensures { result ≡ displacement kind across file.now at }
{
    let delta = match kind {
        ListKind::AcrossFirst | ListKind::UpFirst => return read_alternate(file, at, across),
        ListKind::Manhattan => read_two_delta(file, at)?,
        ListKind::Octangular => read_three_delta(file, at)?,
        ListKind::General | ListKind::Changing => read_g_delta(file, at)?,
    };
    Ok(delta.map(|(x, y)| Point { x, y }))
}

/// The walk after the displacement at the place `at`.
#[tactic(auto, unfolding(crate::specs::Walks::advanced))]
pub fn advance(file: &[u8], at: usize, walk: Walk) -> Result<Read<Walk>, TokenFault>
    requires { Steady walk }
    ensures { result ≡ advanced file.now at walk }
{
    let d = read_displacement(file, at, walk.kind, walk.across)?;
    let value = walk.moved_by(d.value);
    if !value.at.reaches(FAR_REACH) {
        return refuse(FaultKind::Reach, at);
    }
    Ok(Read {
        value,
        next: d.next,
    })
}
