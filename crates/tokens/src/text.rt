//! Strings: a length, then that many bytes.
//!
//! `03 41 42 43` is the string `ABC`.

ghost use Rattle.std.specs.Prelude.{◌≡◌, ◌+◌, ◌-◌, ◌<◌, ◌≤◌, length, IfOk};
ghost use Rattle.std.specs.List.{between};
ghost use Rattle.tokens.specs.Answers.{shown};
ghost use Rattle.tokens.specs.Chains.{largest};
ghost use Rattle.tokens.specs.Readers.{GoesOn};
ghost use Rattle.tokens.specs.Texts.{printable, obeys, text};

use crate::fault::{FaultKind, Read, TokenFault, refuse};
use crate::integer::read_unsigned;

// The first printable character.
const SPACE: u8 = b' ';

// The first visible one, `!`.
const FIRST_VISIBLE: u8 = b'!';

// The last one, `~`.
const LAST_PRINTABLE: u8 = b'~';

/// What the bytes of a string may be.
#[derive(Clone, Copy)]
pub enum StringRule {
    /// Visible characters, and at least one.
    Name,
    /// Printable characters, or none.
    Ascii,
    /// Any bytes.
    Binary,
}

// Whether each byte is a character from `low` to `~`.
fn are_printable(bytes: &[u8], low: u8) -> bool
    ensures { result ≡ printable low bytes.now }
{
    bytes.iter().all(|b| low <= *b && *b <= LAST_PRINTABLE)
}

/// Whether the bytes obey the rule.
pub fn obeys(bytes: &[u8], rule: StringRule) -> bool
    ensures tells { result ≡ obeys rule bytes.now }
{
    match rule {
        StringRule::Name => !bytes.is_empty() && are_printable(bytes, FIRST_VISIBLE),
        StringRule::Ascii => are_printable(bytes, SPACE),
        StringRule::Binary => true,
    }
}

/// The string at the place `at`: the part of the file that holds its text.
#[tactic(auto, using(crate::proofs::Texts::text_cut, crate::proofs::Texts::text_bad, crate::proofs::Texts::text_made), unfolding(crate::specs::Texts::text))]
pub fn read_string<'a>(
    file: &'a [u8],
    at: usize,
    rule: StringRule,
) -> Result<Read<&'a [u8]>, TokenFault>
    ensures reads { shown (λ t. t.now) result ≡ text rule file.now at }
    ensures within { IfOk result (λ x. (length x.value.now ≤ largest) × (at + length x.value.now < x.next) × GoesOn file.now at x) }
    ensures place { IfOk result (λ x. x.value.now ≡ between (x.next - length x.value.now) x.next file.now) }
{
    let size = read_unsigned(file, at)?;
    let start = size.next;
    if size.value > (file.len() - start) as u64 {
        return refuse(FaultKind::Cut, at);
    }
    let end = start + size.value as usize;
    let bytes = &file[start..end];
    if !obeys(bytes, rule) {
        return refuse(FaultKind::BadString, at);
    }
    Ok(Read {
        value: bytes,
        next: end,
    })
}
