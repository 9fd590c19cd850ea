//! The six types of lists, and what each asks of a polygon.

ghost use Rattle.std.specs.Prelude.{◌≡◌};
ghost use Rattle.point_lists.specs.Kinds.{decoded, good_count, closes, implied, listed};

use bounds::Point;

/// The type of a list.
#[derive(Clone, Copy, Debug, PartialEq, Eq)]
pub enum ListKind {
    /// Type 0: horizontal and vertical in turn, horizontal first.
    AcrossFirst,
    /// Type 1: horizontal and vertical in turn, vertical first.
    UpFirst,
    /// Type 2: horizontal or vertical.
    Manhattan,
    /// Type 3: horizontal, vertical or diagonal.
    Octangular,
    /// Type 4: any displacement.
    General,
    /// Type 5: the change of the displacement.
    Changing,
}

/// A type that no list has.
#[derive(Clone, Copy, Debug, PartialEq, Eq)]
pub struct UnknownListType(pub u64);

impl TryFrom<u64> for ListKind {
    type Error = UnknownListType;

    ghost try_from_gives = { λ code r. r ≡ decoded code };

    fn try_from(code: u64) -> Result<Self, UnknownListType> {
        match code {
            0 => Ok(ListKind::AcrossFirst),
            1 => Ok(ListKind::UpFirst),
            2 => Ok(ListKind::Manhattan),
            3 => Ok(ListKind::Octangular),
            4 => Ok(ListKind::General),
            5 => Ok(ListKind::Changing),
            _ => Err(UnknownListType(code)),
        }
    }
}

impl ListKind {
    /// Whether a list may have so many displacements. A polygon needs two at least, and an even number where they go across and
    /// up in turn; a path may have any number.
    // Here and below `closed` stays a flag: an enum of polygon and path would be asked the same yes or no at each use.
    pub(crate) fn allows(self, closed: bool, count: u64) -> bool
        ensures { result ≡ good_count self closed count }
    {
        if !closed {
            return true;
        }
        match self {
            ListKind::AcrossFirst | ListKind::UpFirst => count >= 2 && count % 2 == 0,
            _ => count >= 2,
        }
    }

    /// Whether a polygon may close from its last given vertex, which is `last` away from the first.
    pub(crate) fn may_close(self, closed: bool, last: Point) -> bool
        ensures { result ≡ closes self closed last }
    {
        if !closed {
            return true;
        }
        let level = last.x == 0 || last.y == 0;
        match self {
            ListKind::AcrossFirst | ListKind::UpFirst => !level,
            ListKind::Manhattan => level,
            ListKind::Octangular => level || last.x.unsigned_abs() == last.y.unsigned_abs(),
            _ => true,
        }
    }

    /// The vertex that the list of a polygon leaves out.
    pub(crate) fn implied_vertex(self, closed: bool, last: Point) -> Option<Point>
        ensures { implied self closed last ≡ listed result }
    {
        if !closed {
            return None;
        }
        match self {
            ListKind::AcrossFirst => Some(Point { x: 0, y: last.y }),
            ListKind::UpFirst => Some(Point { x: last.x, y: 0 }),
            _ => None,
        }
    }
}
