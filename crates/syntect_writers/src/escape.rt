//! Texts in HTML.
ghost use Rattle.std.specs.Prelude.{◌≡◌, ◌++◌, Some, false, string_bytes, OnOk};
ghost use Rattle.syntect_writers.specs.Entities.{entity, escaped};
ghost use Rattle.syntect_writers.specs.Text.{is_plain};

use crate::text::split_plain;
use std::alloc::AllocError;
use std::fmt;

/// A text that is shown as HTML has it: `<`, `>`, `&` and both quotes by their names.
#[derive(Clone, Copy, Debug)]
pub struct Escape<'a>(pub &'a str);

/// How a byte is written that has a meaning in HTML.
#[tactic(auto, unfolding(crate::specs::Entities::entity))]
pub(crate) fn name_of(byte: u8) -> &'static str
    requires { is_plain byte ≡ false }
    ensures { result.now ≡ entity byte }
{
    match byte {
        b'<' => "&lt;",
        b'>' => "&gt;",
        b'&' => "&amp;",
        b'\'' => "&#39;",
        _ => "&quot;",
    }
}

/// Appends the text, as HTML has it. Without memory a part of it may have been put there.
pub fn push_escaped(out: &mut String, text: &str) -> Result<(), AllocError>
    ensures { OnOk result (string_bytes out.new ≡ string_bytes out.old ++ escaped text.now) }
{
    let mut rest = text;
    while let Some((front, stop, back)) = split_plain(rest) {
        out.push_str(front)?;
        out.push_str(name_of(stop))?;
        rest = back;
    }
    out.push_str(rest)
}

impl fmt::Display for Escape<'_> {
    ghost output = { λ e. Some (escaped e.0.now) };

    fn fmt<W: fmt::Write>(&self, f: &mut fmt::Formatter<W>) -> fmt::Result {
        let mut rest = self.0;
        while let Some((front, stop, back)) = split_plain(rest) {
            f.write_str(front)?;
            f.write_str(name_of(stop))?;
            rest = back;
        }
        f.write_str(rest)
    }
}
