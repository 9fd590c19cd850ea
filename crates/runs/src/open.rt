//! The beginning of a file.

ghost use Rattle.std.specs.Prelude.{◌≡◌};
ghost use Rattle.runs.specs.Runs.{unread, opened};

use checksum::{MAGIC, has_magic};
use fields::Modals;
use steps::{Context, Fault, FileState, Position};
use tokens::FaultKind;

// The most bytes that a file may have.
const LONGEST: usize = 4_294_967_295;

// A fault of the file as a whole. It is in no record: the place, the record and the ID are told as 0.
fn no_file(kind: FaultKind) -> Fault
    ensures { result ≡ unread kind }
{
    Fault {
        kind,
        place: 0,
        first: 0,
        id: 0,
    }
}

/// Where the first record of a file stands: behind the magic bytes.
pub fn open_file(file: &[u8]) -> Result<Position, Fault>
    ensures opens { result ≡ opened file.now }
{
    if file.len() > LONGEST {
        return Err(no_file(FaultKind::TooLong));
    }
    if !has_magic(file) {
        return Err(no_file(FaultKind::NoMagic));
    }
    Ok(Position {
        at: MAGIC.len(),
        context: Context {
            state: FileState::Start,
            late: false,
            modals: Modals::reset(),
        },
    })
}
