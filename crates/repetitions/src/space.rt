//! One space between copies: a number along one axis, or a displacement.
//!
//! `0A` is the space (10, 0) across and (0, 10) up. `BB 01 B7 0F` is the displacement (-46, -987).

ghost use Rattle.std.specs.Prelude.{◌≡◌};
ghost use Rattle.repetitions.specs.Spaces.{space_at};

use bounds::Point;
use tokens::{Read, TokenFault, read_g_delta, read_unsigned};

// Where a space goes, and so how it is written.
#[derive(Clone, Copy)]
pub enum Axis {
    // Along x: an unsigned integer.
    Across,
    // Along y: an unsigned integer.
    Up,
    // Anywhere: a g-delta.
    Both,
}

// The space at the place `at`.
#[tactic(auto, unfolding(crate::specs::Spaces::space_at))]
pub fn read_space(file: &[u8], at: usize, axis: Axis) -> Result<Read<Point>, TokenFault>
    ensures reads { result ≡ space_at axis file.now at }
{
    match axis {
        Axis::Across => Ok(read_unsigned(file, at)?.map(|size| Point {
            x: size as i64,
            y: 0,
        })),
        Axis::Up => Ok(read_unsigned(file, at)?.map(|size| Point {
            x: 0,
            y: size as i64,
        })),
        Axis::Both => Ok(read_g_delta(file, at)?.map(|(x, y)| Point { x, y })),
    }
}
