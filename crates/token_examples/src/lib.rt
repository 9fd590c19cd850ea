//! Examples of tokens that are run: tables of bytes with what they mean, each cut of them, and what is put and read again.

#![tactic(auto)]

#[cfg(test)]
mod tests {
    use encoding::Buffer;
    use std::fmt::Debug;
    use std::process::Abort;
    use tokens::{
        FaultKind, LARGEST, Read, StringRule, TokenFault, read_byte, read_g_delta, read_signed,
        read_string, read_three_delta, read_two_delta, read_unit, read_unsigned,
    };

    fn refused<T: Drop>(
        rt: &impl Abort,
        answer: Result<Read<T>, TokenFault>,
        number: u8,
        place: usize,
    ) {
        assert_eq!(rt; answer.err().map(TokenFault::told), Some((number, place)));
    }

    fn gives<T: PartialEq + Debug + Drop>(
        rt: &impl Abort,
        answer: Result<Read<T>, TokenFault>,
        value: T,
        next: usize,
    ) {
        assert_eq!(rt; answer, Ok(Read { value, next }));
    }

    // The bytes are this value, and each cut of them is a fault of their first byte.
    fn whole<T: PartialEq + Debug + Drop, F: Fn(&[u8]) -> Result<Read<T>, TokenFault> + Drop>(
        rt: &impl Abort,
        read: F,
        bytes: &[u8],
        value: T,
    )
        requires { F.IsAlwaysCallable read }
    {
        for size in 0..bytes.len() {
            refused(rt, read(&bytes[0..size]), 3, 0);
        }
        gives(rt, read(bytes), value, bytes.len());
    }

    // The bytes are this integer.
    fn unsigned(rt: &impl Abort, bytes: &[u8], value: u64) {
        whole(rt, |bytes: &[u8]| read_unsigned(bytes, 0), bytes, value);
    }

    fn signed(rt: &impl Abort, bytes: &[u8], value: i64) {
        whole(rt, |bytes: &[u8]| read_signed(bytes, 0), bytes, value);
    }

    // Every cut of a g-delta names the integer that is cut, the second one where the first is whole.
    fn g_delta(rt: &impl Abort, bytes: &[u8], first: usize, value: (i64, i64)) {
        gives(rt, read_g_delta(bytes, 0), value, bytes.len());
        for size in 0..bytes.len() {
            let place = if size < first { 0 } else { first };
            refused(rt, read_g_delta(&bytes[0..size], 0), 3, place);
        }
    }

    #[test]
    fn unsigned_integers(rt: HostRuntime) {
        unsigned(&rt, &[0x00], 0);
        unsigned(&rt, &[0x7f], 127);
        unsigned(&rt, &[0x80, 0x01], 128);
        unsigned(&rt, &[0xff, 0x7f], 16_383);
        unsigned(&rt, &[0x80, 0x80, 0x01], 16_384);
        unsigned(&rt, &[0xff, 0xff, 0xff, 0xff, 0xff, 0xff, 0x03], LARGEST);
        unsigned(
            &rt,
            &[0x80, 0x80, 0x80, 0x80, 0x80, 0x80, 0x80, 0x80, 0x80, 0x00],
            0,
        );
    }

    #[test]
    fn wide_integers(rt: HostRuntime) {
        refused(
            &rt,
            read_unsigned(&[0x80, 0x80, 0x80, 0x80, 0x80, 0x80, 0x04], 0),
            4,
            0,
        );
        refused(
            &rt,
            read_unsigned(
                &[
                    0x80, 0x80, 0x80, 0x80, 0x80, 0x80, 0x80, 0x80, 0x80, 0x80, 0x00,
                ],
                0,
            ),
            4,
            0,
        );
        refused(
            &rt,
            read_unsigned(
                &[0xff, 0xff, 0xff, 0xff, 0xff, 0xff, 0xff, 0xff, 0xff, 0x7f],
                0,
            ),
            4,
            0,
        );
        refused(
            &rt,
            read_unsigned(&[0xff, 0xff, 0xff, 0xff, 0xff, 0xff, 0xff, 0xff, 0xff], 0),
            3,
            0,
        );
    }

    #[test]
    fn signed_integers(rt: HostRuntime) {
        signed(&rt, &[0x00], 0);
        signed(&rt, &[0x01], 0);
        signed(&rt, &[0x02], 1);
        signed(&rt, &[0x03], -1);
        signed(&rt, &[0x7e], 63);
        signed(&rt, &[0x81, 0x01], -64);
        signed(&rt, &[0xfe, 0x7f], 8_191);
        signed(&rt, &[0x81, 0x80, 0x01], -8_192);
        signed(&rt, &[0xf9, 0x23], -2_300);
        signed(&rt, &[0xf8, 0x23], 2_300);
    }

    #[test]
    fn displacements(rt: HostRuntime) {
        gives(&rt, read_two_delta(&[0x98, 0x2a], 0), (1_350, 0), 2);
        gives(&rt, read_two_delta(&[0x9b, 0x2a], 0), (0, -1_350), 2);
        gives(&rt, read_three_delta(&[0xcd, 0x01], 0), (-25, 25), 2);
        gives(&rt, read_three_delta(&[0xd7, 0x07], 0), (122, -122), 2);
        refused(&rt, read_two_delta(&[0x98], 0), 3, 0);
        refused(&rt, read_three_delta(&[], 0), 3, 0);
        g_delta(&rt, &[0xe9, 0x03, 0x7a], 2, (122, 61));
        g_delta(&rt, &[0xec, 0x05], 2, (-46, -46));
        g_delta(&rt, &[0xbb, 0x01, 0xb7, 0x0f], 2, (-46, -987));
    }

    #[test]
    fn places(rt: HostRuntime) {
        let file = [0x05, 0x80, 0x01, 0x41];
        gives(&rt, read_unsigned(&file, 1), 128, 3);
        gives(&rt, read_byte(&file, 3), 0x41, 4);
        refused(&rt, read_byte(&file, 4), 3, 4);
        refused(&rt, read_unsigned(&file, 4), 3, 4);
        refused(&rt, read_unsigned(&file, 9), 3, 9);
        refused(&rt, read_string(&file, 0, StringRule::Binary), 3, 0);
    }

    #[test]
    fn strings(rt: HostRuntime) {
        gives(
            &rt,
            read_string(&[0x02, 0x41, 0x7e], 0, StringRule::Name),
            &[0x41, 0x7e],
            3,
        );
        refused(&rt, read_string(&[0x00], 0, StringRule::Name), 10, 0);
        refused(&rt, read_string(&[0x01, 0x20], 0, StringRule::Name), 10, 0);
        refused(&rt, read_string(&[0x01, 0x7f], 0, StringRule::Name), 10, 0);
        refused(&rt, read_string(&[0x01, 0x1f], 0, StringRule::Ascii), 10, 0);
        refused(&rt, read_string(&[0x01, 0x7f], 0, StringRule::Ascii), 10, 0);
        refused(&rt, read_string(&[0x02, 0x1f], 0, StringRule::Ascii), 3, 0);
        assert!(rt; read_string(&[0x00], 0, StringRule::Ascii).is_ok());
        assert!(rt; read_string(&[0x01, 0x20], 0, StringRule::Ascii).is_ok());
        assert!(rt; read_string(&[0x01, 0xff], 0, StringRule::Binary).is_ok());
    }

    #[test]
    fn units(rt: HostRuntime) {
        gives(&rt, read_unit(&[0x00, 0xe8, 0x07], 0), 1_000, 3);
        gives(&rt, read_unit(&[0x02, 0x01], 0), 1, 2);
        gives(&rt, read_unit(&[0x04, 0x0a, 0x05], 0), 2, 3);
        refused(&rt, read_unit(&[0x00, 0x00], 0), 8, 0);
        refused(&rt, read_unit(&[0x01, 0x01], 0), 8, 0);
        refused(&rt, read_unit(&[0x02, 0x02], 0), 8, 0);
        refused(&rt, read_unit(&[0x04, 0x05, 0x0a], 0), 8, 0);
        refused(&rt, read_unit(&[0x04, 0x05, 0x00], 0), 8, 0);
        refused(&rt, read_unit(&[0x06], 0), 8, 0);
        refused(&rt, read_unit(&[0x04, 0x05], 0), 3, 2);
        refused(&rt, read_unit(&[], 0), 3, 0);
    }

    #[test]
    fn numbers_of_faults(rt: HostRuntime) {
        assert_eq!(rt; FaultKind::TooLong.number(), 1);
        assert_eq!(rt; FaultKind::Checksum.number(), 19);
        assert_eq!(rt; FaultKind::FewRows.number(), 21);
    }

    #[test]
    fn what_is_put_is_read_again(rt: HostRuntime) {
        let mut out = [0xaau8; 24];
        let mut buffer = Buffer::new(&mut out, 1);
        buffer.put_unsigned(16_384);
        assert_eq!(rt; buffer.at(), 4);
        assert!(rt;
            out[0] == 0xaa && out[1] == 0x80 && out[2] == 0x80 && out[3] == 0x01 && out[4] == 0xaa
        );
        gives(&rt, read_unsigned(&out, 1), 16_384, 4);
        let mut buffer = Buffer::new(&mut out, 0);
        buffer.put_signed(-8_192);
        let next = buffer.at();
        gives(&rt, read_signed(&out, 0), -8_192, next);
        let mut buffer = Buffer::new(&mut out, 5);
        buffer.put_g_delta((-46, -987));
        assert_eq!(rt; buffer.at(), 9);
        assert!(rt; out[5] == 0xbb && out[6] == 0x01 && out[7] == 0xb7 && out[8] == 0x0f);
        gives(&rt, read_g_delta(&out, 5), (-46, -987), 9);
        let mut buffer = Buffer::new(&mut out, 10);
        buffer.put_string(b"AB");
        assert_eq!(rt; buffer.at(), 13);
        assert!(rt;
            out[9] == 0xaa && out[10] == 2 && out[11] == 0x41 && out[12] == 0x42 && out[13] == 0xaa
        );
    }
}
