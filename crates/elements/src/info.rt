//! The info byte of an element.

ghost use Rattle.std.specs.Prelude.{◌≡◌, ◌&&◌};
ghost use Rattle.elements.specs.Infos.{info as info_at, rectangle_info, form_of, present_of, following};

use bounds::Point;
use fields::{AnchorVariables, Form, HEIGHT, Modals, Present, SQUARE};
use tokens::{FaultKind, Read, TokenFault, has_flag, read_byte, refuse};

/// The flags of an info byte that announce the coordinates and the repetition.
#[derive(Clone, Copy)]
pub struct AnchorFlags {
    pub x: u8,
    pub y: u8,
    pub repetition: u8,
}

impl AnchorFlags {
    /// Those of a placement, CNXYRAAF.
    pub const PLACEMENT: Self = AnchorFlags {
        x: 0x20,
        y: 0x10,
        repetition: 0x08,
    };

    /// Those of a text, 0CNXYRTL.
    pub const TEXT: Self = AnchorFlags {
        x: 0x10,
        y: 0x08,
        repetition: 0x04,
    };

    /// Those of a figure, SWHXYRDL, 00PXYRDL or EWPXYRDL, which stand where those of a text do.
    pub const FIGURE: Self = Self::TEXT;
}

/// The info byte at the place `at`, of which the flags of the mask are reserved.
pub fn read_info(file: &[u8], at: usize, reserved: u8) -> Result<Read<u8>, TokenFault>
    ensures reads { result ≡ info_at file.now at reserved }
{
    let info = read_byte(file, at)?;
    if has_flag(info.value, reserved) {
        return refuse(FaultKind::Reserved, at);
    }
    Ok(info)
}

/// The info byte of a rectangle: a square has no height.
// The two flags are reserved only together, which no mask of `read_info` can say.
pub fn read_rectangle_info(file: &[u8], at: usize) -> Result<Read<u8>, TokenFault>
    ensures reads { result ≡ rectangle_info file.now at }
{
    let info = read_byte(file, at)?;
    if has_flag(info.value, SQUARE) && has_flag(info.value, HEIGHT) {
        return refuse(FaultKind::Reserved, at);
    }
    Ok(info)
}

/// How a name or a text is given, by the flag that announces it and the flag that says that it is a number.
pub fn form_of(info: u8, given: u8, numbered: u8) -> Form
    ensures tells { result ≡ form_of info given numbered }
{
    if !has_flag(info, given) {
        Form::Absent
    } else if has_flag(info, numbered) {
        Form::ByNumber
    } else {
        Form::ByString
    }
}

/// Which of the coordinates and the repetition are present, by their flags.
pub fn present_of(info: u8, flags: AnchorFlags) -> Present
    ensures tells { result ≡ present_of info flags.x flags.y flags.repetition }
{
    Present {
        x: has_flag(info, flags.x),
        y: has_flag(info, flags.y),
        repetition: has_flag(info, flags.repetition),
    }
}

/// What the coordinates and the repetition of an element inherit, where those of its kind stood at `at`.
pub fn following_at(m: Modals, at: Point) -> AnchorVariables
    ensures takes { result ≡ following m at }
{
    AnchorVariables {
        relative: m.relative,
        at,
        repetition: m.repetition,
    }
}
