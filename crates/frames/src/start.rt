//! START: the version, the unit, a switch, and the table offsets where the switch is off.
//!
//! `03 31 2E 30` is the version 1.0, `00 E8 07` the unit 1000, `00` says that the table offsets follow, and twelve times `00`
//! are the table offsets.

ghost use Rattle.std.specs.Prelude.{◌≡◌, ◌<◌, ◌≤◌, length, IfOk};
ghost use Rattle.tokens.specs.Chains.{largest};
ghost use Rattle.frames.specs.Starts.{version_at, start};

use crate::table::{read_switch, read_tables};
use tokens::{FaultKind, Read, StringRule, TokenFault, read_string, read_unit, refuse};

// The version that is read, `1.0`.
const VERSION: [u8; 3] = *b"1.0";

/// What START tells.
#[derive(Clone, Copy, PartialEq, Eq, Debug)]
pub struct Start {
    /// How many grid steps there are to a micron.
    pub unit: u64,
    /// Whether the table offsets stand in END.
    pub late: bool,
}

// The version at the place `at`.
#[tactic(auto, unfolding(crate::specs::Starts::version_at))]
fn read_version(file: &[u8], at: usize) -> Result<Read<()>, TokenFault>
    ensures { result ≡ version_at file.now at }
{
    let version = read_string(file, at, StringRule::Binary)?;
    if version.value != VERSION.as_slice() {
        return refuse(FaultKind::Version, at);
    }
    Ok(version.with(()))
}

/// The fields of START, which stand from the place `at` on.
#[tactic(auto, unfolding(crate::specs::Starts::start))]
pub fn read_start(file: &[u8], at: usize) -> Result<Read<Start>, TokenFault>
    ensures reads { result ≡ start file.now at }
    ensures within { IfOk result (λ x. (1 ≤ x.value.unit) × (x.value.unit ≤ largest) × (at < x.next) × (x.next ≤ length file.now)) }
{
    let version = read_version(file, at)?;
    let unit = read_unit(file, version.next)?;
    let late = read_switch(file, unit.next)?;
    let tables = read_tables(file, late.next, !late.value)?;
    Ok(tables.with(Start {
        unit: unit.value,
        late: late.value,
    }))
}

#[cfg(test)]
mod tests {
    use super::*;

    #[test]
    fn the_switch_tells_where_the_tables_are(rt: HostRuntime) {
        let early: [u8; 21] = [
            1, 3, 0x31, 0x2e, 0x30, 0, 0xe8, 7, 0, 0, 0, 0, 0, 0, 0, 0, 0, 0, 0, 0, 0,
        ];
        assert_eq!(rt;
            read_start(&early, 1),
            Ok(Read {
                value: Start {
                    unit: 1000,
                    late: false
                },
                next: 21
            })
        );
        let late: [u8; 10] = [1, 3, 0x31, 0x2e, 0x30, 0, 0xe8, 7, 1, 9];
        assert_eq!(rt;
            read_start(&late, 1),
            Ok(Read {
                value: Start {
                    unit: 1000,
                    late: true
                },
                next: 9
            })
        );
    }

    #[test]
    fn faults_name_their_field(rt: HostRuntime) {
        let newer: [u8; 9] = [1, 3, 0x31, 0x2e, 0x31, 0, 0xe8, 7, 1];
        assert_eq!(rt;
            read_start(&newer, 1).err().map(TokenFault::told),
            Some((7, 1))
        );
        let two: [u8; 9] = [1, 3, 0x31, 0x2e, 0x30, 0, 0xe8, 7, 2];
        assert_eq!(rt;
            read_start(&two, 1).err().map(TokenFault::told),
            Some((9, 8))
        );
        let table: [u8; 12] = [1, 3, 0x31, 0x2e, 0x30, 0, 0xe8, 7, 0, 1, 5, 2];
        assert_eq!(rt;
            read_start(&table, 1).err().map(TokenFault::told),
            Some((9, 11))
        );
        let unit: [u8; 8] = [1, 3, 0x31, 0x2e, 0x30, 0, 0, 1];
        assert_eq!(rt;
            read_start(&unit, 1).err().map(TokenFault::told),
            Some((8, 5))
        );
        assert_eq!(rt;
            read_start(&two, 100).err().map(TokenFault::told),
            Some((3, 100))
        );
    }
}
