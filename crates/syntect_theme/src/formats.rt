//! Colours and flags as texts.
ghost use Rattle.std.specs.Prelude.{◌≡◌, ◌&&◌, not, true, false, Some, IfOk, OnOk};
ghost use Rattle.std.specs.Fmt.{IsPlainFormatter, HasWritten, WritesOnOk, digits};
ghost use Rattle.syntect_theme.specs.Flags.{color_text, flags_text, part_text, rest_text};
ghost use Rattle.syntect_theme.specs.Modifying.{bits_of};

use crate::style::{Color, FontStyle};
use std::fmt;

/// On one line, also in the form of many lines, where the numbers are aligned
/// right in three columns.
impl fmt::Debug for Color {
    ghost debug_output = { λ c. Some (color_text c) };

    fn fmt<W: fmt::Write>(&self, f: &mut fmt::Formatter<W>) -> fmt::Result {
        let Color { r, g, b, a } = *self;
        if f.alternate() {
            write!(f, "Color {{ r/g/b/a: {r: >3}/{g: >3}/{b: >3}/{a: >3} }}")
        } else {
            write!(f, "Color {{ r/g/b/a: {r}/{g}/{b}/{a} }}")
        }
    }
}

/// Writes the name of a flag if it is there, and a bar before it unless it is the first. Answers
/// whether what comes next is the first.
fn write_flag<W: fmt::Write>(
    f: &mut fmt::Formatter<W>,
    is_first: bool,
    is_there: bool,
    name: &str,
) -> Result<bool, fmt::Error>
    ensures writes { OnOk result
        (IsPlainFormatter f.old
        → HasWritten W.write_str_gives f.old (part_text is_first is_there name.now) f.new) }
    ensures next { IfOk result (λ first. first ≡ (is_first && not is_there)) }
{
    if !is_there {
        return Ok(is_first);
    }
    if !is_first {
        f.write_str(" | ")?;
    }
    f.write_str(name)?;
    Ok(false)
}

/// Writes bits that are no flag's, and a bar before them unless they are the first; a word where
/// there is nothing at all.
fn write_others<W: fmt::Write>(f: &mut fmt::Formatter<W>, is_first: bool, others: u8) -> fmt::Result
    ensures { WritesOnOk W.write_str_gives f.old result (rest_text is_first others) f.new }
{
    if others != 0 {
        f.write_str(if is_first { "0x" } else { " | 0x" })?;
        fmt::LowerHex::fmt(&others, f)
    } else if is_first {
        f.write_str("(empty)")
    } else {
        Ok(())
    }
}

/// The names of the flags, and the other bits as a hexadecimal number, between bars.
impl fmt::Debug for FontStyle {
    ghost debug_output = { λ f. Some (flags_text f) };

    fn fmt<W: fmt::Write>(&self, f: &mut fmt::Formatter<W>) -> fmt::Result {
        let is_first = write_flag(f, true, self.contains(FontStyle::BOLD), "BOLD")?;
        let is_first = write_flag(
            f,
            is_first,
            self.contains(FontStyle::UNDERLINE),
            "UNDERLINE",
        )?;
        let is_first = write_flag(f, is_first, self.contains(FontStyle::ITALIC), "ITALIC")?;
        write_others(f, is_first, self.difference(FontStyle::all()).bits())
    }
}

/// What `{:b}`, `{:o}`, `{:x}` and `{:X}` write is the number of the bits.
impl fmt::HasDigits for FontStyle {
    ghost word = { λ f. Some (bits_of f) };

    fn bits(self) -> (u64, u64) {
        (0, u64::from(FontStyle::bits(&self)))
    }
}

impl fmt::Binary for FontStyle {
    fn fmt<W: fmt::Write>(&self, f: &mut fmt::Formatter<W>) -> fmt::Result
        ensures { WritesOnOk W.write_str_gives f.old result
            (digits 2 false (bits_of self.now)) f.new }
    {
        fmt::Binary::fmt(&self.bits(), f)
    }
}

impl fmt::Octal for FontStyle {
    fn fmt<W: fmt::Write>(&self, f: &mut fmt::Formatter<W>) -> fmt::Result
        ensures { WritesOnOk W.write_str_gives f.old result
            (digits 8 false (bits_of self.now)) f.new }
    {
        fmt::Octal::fmt(&self.bits(), f)
    }
}

impl fmt::LowerHex for FontStyle {
    fn fmt<W: fmt::Write>(&self, f: &mut fmt::Formatter<W>) -> fmt::Result
        ensures { WritesOnOk W.write_str_gives f.old result
            (digits 16 false (bits_of self.now)) f.new }
    {
        fmt::LowerHex::fmt(&self.bits(), f)
    }
}

impl fmt::UpperHex for FontStyle {
    fn fmt<W: fmt::Write>(&self, f: &mut fmt::Formatter<W>) -> fmt::Result
        ensures { WritesOnOk W.write_str_gives f.old result
            (digits 16 true (bits_of self.now)) f.new }
    {
        fmt::UpperHex::fmt(&self.bits(), f)
    }
}
