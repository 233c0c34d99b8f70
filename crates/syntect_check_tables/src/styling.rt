//! The example about flags.
use crate::below::theme::style::{Color, FontStyle};
use std::alloc::Global;

/// Flags by their bits, and as texts.
pub fn flags(alloc: Global) -> Option<bool> {
    let all = FontStyle::from_bits(7)?;
    let nine = FontStyle::from_bits_unchecked(9);
    let five = FontStyle::BOLD | FontStyle::ITALIC;
    let none = FontStyle::empty();
    let color = Color {
        r: 1,
        g: 2,
        b: 3,
        a: 255,
    };
    let text = format!(in alloc; "{nine:?}, {none:?}, {five:b}, {color:?}, {color:#?}").ok()?;
    Some(
        FontStyle::from_bits(8).is_none()
            && FontStyle::from_bits_truncate(12) == FontStyle::ITALIC
            && (!FontStyle::BOLD).bits() == 6
            && all.is_all()
            && text.as_str()
                == "BOLD | 0x8, (empty), 101, Color { r/g/b/a: 1/2/3/255 }, Color { r/g/b/a:   1/  2/  3/255 }",
    )
}
