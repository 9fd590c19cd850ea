//! One reader for the name records of every class.

ghost use Rattle.std.specs.Prelude.{◌≡◌, ◌+◌, ◌<◌, ◌≤◌, length, IfOk, ◌==◌};
ghost use Rattle.tokens.specs.Chains.{largest};
ghost use Rattle.names.specs.Fields.{name_fields};

use crate::class::NameClass;
use tokens::{Part, Read, TokenFault, read_part, read_unsigned};

/// The fields of a name record.
#[derive(Clone, Copy, PartialEq, Eq, Debug)]
pub struct NameFields {
    /// Where the name stands.
    pub part: Part,
    /// The number that the record gives, or none where it is numbered in its order.
    pub number: Option<u64>,
}

/// The fields of the name record with this ID, which stand from the place `at` on.
pub fn read_name<C: NameClass>(
    file: &[u8],
    at: usize,
    id: u64,
) -> Result<Read<NameFields>, TokenFault>
    ensures reads { result ≡ name_fields C.NameClass.RULE (id == C.NameClass.EXPLICIT) file.now at }
    ensures within { IfOk result (λ x. (at < x.value.part.place) × (x.value.part.place + x.value.part.size ≤ x.next) × (x.value.part.size ≤ largest) × (x.next ≤ length file.now)) }
{
    let name = read_part(file, at, C::RULE)?;
    let number = if id == C::EXPLICIT {
        read_unsigned(file, name.next)?.map(Some)
    } else {
        name.with(None)
    };
    let part = name.value;
    Ok(number.map(|number| NameFields { part, number }))
}

#[cfg(test)]
mod tests {
    use super::*;
    use crate::class::{CellNames, TextStrings};
    use std::process::Abort;

    // The fields that are read, at the place 1.
    fn fields(
        rt: &impl Abort,
        found: Result<Read<NameFields>, TokenFault>,
        size: usize,
        number: Option<u64>,
        next: usize,
    ) {
        let part = Part { place: 2, size };
        assert_eq!(rt;
            found,
            Ok(Read {
                value: NameFields { part, number },
                next
            })
        );
    }

    #[test]
    fn a_number_is_read_where_the_record_gives_one(rt: HostRuntime) {
        let file: [u8; 6] = [3, 3, 0x41, 0x42, 0x43, 5];
        fields(&rt, read_name::<CellNames>(&file, 1, 3), 3, None, 5);
        fields(&rt, read_name::<CellNames>(&file, 1, 4), 3, Some(5), 6);
        fields(&rt, read_name::<TextStrings>(&file, 1, 5), 3, None, 5);
        fields(&rt, read_name::<TextStrings>(&file, 1, 6), 3, Some(5), 6);
    }

    #[test]
    fn each_class_has_a_rule_for_its_strings(rt: HostRuntime) {
        let spaced: [u8; 4] = [3, 2, 0x41, 0x20];
        assert_eq!(rt;
            read_name::<CellNames>(&spaced, 1, 3)
                .err()
                .map(TokenFault::told),
            Some((10, 1))
        );
        fields(&rt, read_name::<TextStrings>(&spaced, 1, 5), 2, None, 4);
        let empty: [u8; 2] = [3, 0];
        assert_eq!(rt;
            read_name::<CellNames>(&empty, 1, 3)
                .err()
                .map(TokenFault::told),
            Some((10, 1))
        );
        fields(&rt, read_name::<TextStrings>(&empty, 1, 5), 0, None, 2);
    }

    #[test]
    fn each_cut_is_a_fault_of_the_field_that_it_cuts(rt: HostRuntime) {
        let file: [u8; 7] = [4, 3, 0x41, 0x42, 0x43, 0x85, 0x01];
        for size in 1..5 {
            assert_eq!(rt;
                read_name::<CellNames>(&file[0..size], 1, 4)
                    .err()
                    .map(TokenFault::told),
                Some((3, 1))
            );
        }
        for size in 5..7 {
            assert_eq!(rt;
                read_name::<CellNames>(&file[0..size], 1, 4)
                    .err()
                    .map(TokenFault::told),
                Some((3, 5))
            );
        }
        fields(&rt, read_name::<CellNames>(&file, 1, 4), 3, Some(133), 7);
    }
}
