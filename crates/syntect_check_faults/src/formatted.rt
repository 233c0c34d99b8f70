//! Values whose texts are written where there is too little room.
use crate::below::values::text::Text;
use std::alloc::Global;
use std::fmt::Write;
use std::{fmt, io};
use syntect_easy::LoadingError;
use syntect_easy::escape::Escape;
use syntect_easy::highlighting::{Color, FontStyle};
use syntect_easy::parsing::ParsingError;
use syntect_easy::parsing::syntax_definition::ContextReference;

/// A writer of so many bytes, which takes nothing of a part that it has no room for.
#[derive(Drop)]
struct Narrow {
    kept: String,
    room: usize,
}

impl Write for Narrow {
    fn write_str(&mut self, s: &str) -> fmt::Result {
        let Some(room) = self.room.checked_sub(s.len()) else {
            return Err(fmt::Error);
        };
        self.room = room;
        self.kept.push_str(s).map_err(|_| fmt::Error)
    }
}

/// What is written.
#[derive(Clone, Copy)]
enum Shown {
    Escaped,
    Color,
    AlignedColor,
    Flags,
    OtherFlags,
    Binary,
    Octal,
    LowerHex,
    UpperHex,
    Refusal,
    DebuggedRefusal,
    Reference,
    LineRefusal,
}

/// Each with its text, as the crate writes it, but for references.
const SHOWN: [(Shown, &str); 13] = [
    (Shown::Escaped, "a&lt;b&amp;&quot;c"),
    (Shown::Color, "Color { r/g/b/a: 1/2/3/255 }"),
    (Shown::AlignedColor, "Color { r/g/b/a:   1/  2/  3/255 }"),
    (Shown::Flags, "BOLD | ITALIC"),
    (Shown::OtherFlags, "ITALIC | 0x8"),
    (Shown::Binary, "11010"),
    (Shown::Octal, "32"),
    (Shown::LowerHex, "1a"),
    (Shown::UpperHex, "1A"),
    (Shown::Refusal, "Failed to parse JSON"),
    (Shown::DebuggedRefusal, "Failed to parse JSON"),
    (Shown::Reference, "'a' of the syntax 'T'"),
    (
        Shown::LineRefusal,
        "Somehow main context was popped from the stack",
    ),
];

const COLOR: Color = Color {
    r: 1,
    g: 2,
    b: 3,
    a: 255,
};

/// A reference to a context of another syntax.
fn write_reference(alloc: Global, out: &mut Narrow) -> fmt::Result {
    let (Ok(name), Ok(context)) = (Text::from_str(alloc, "T"), Text::from_str(alloc, "a")) else {
        return Err(fmt::Error);
    };
    let reference = ContextReference::File {
        name,
        sub_context: Some(context),
        with_escape: false,
    };
    write!(out, "{reference}")
}

fn write_flags(shown: Shown, out: &mut Narrow) -> fmt::Result {
    let flags = FontStyle::from_bits_unchecked(26);
    match shown {
        Shown::Flags => write!(out, "{:?}", FontStyle::BOLD | FontStyle::ITALIC),
        Shown::OtherFlags => write!(out, "{:?}", FontStyle::from_bits_unchecked(12)),
        Shown::Binary => write!(out, "{flags:b}"),
        Shown::Octal => write!(out, "{flags:o}"),
        Shown::LowerHex => write!(out, "{flags:x}"),
        _ => write!(out, "{flags:X}"),
    }
}

fn write_shown(alloc: Global, shown: Shown, out: &mut Narrow) -> fmt::Result {
    match shown {
        Shown::Escaped => write!(out, "{}", Escape("a<b&\"c")),
        Shown::Color => write!(out, "{COLOR:?}"),
        Shown::AlignedColor => write!(out, "{COLOR:#?}"),
        Shown::Refusal => write!(out, "{}", LoadingError::ParseMetadata),
        Shown::DebuggedRefusal => write!(out, "{:?}", LoadingError::ParseMetadata),
        Shown::Reference => write_reference(alloc, out),
        Shown::LineRefusal => write!(out, "{}", ParsingError::MissingMainContext),
        _ => write_flags(shown, out),
    }
}

/// Whether so much room takes the text where it is enough, and else a front of it, and whether that
/// is said.
fn keeps_its_room(alloc: Global, (shown, text): (Shown, &str), room: usize) -> bool {
    let kept = String::new(alloc);
    let mut out = Narrow { kept, room };
    let is_written = write_shown(alloc, shown, &mut out).is_ok();
    let kept = out.kept.as_str();
    is_written == (room >= text.len()) && is_written == (kept == text) && text.starts_with(kept)
}

/// Whether that holds of each room up to one byte more than the text has.
fn keeps_each_room(alloc: Global, row: (Shown, &str)) -> bool {
    let mut all = true;
    for room in 0..=row.1.len() {
        all &= keeps_its_room(alloc, row, room);
    }
    all
}

/// Prints of each text whether it is written as far as there is room, and the refusal said. Answers
/// whether all are.
pub fn all_formatted(rt: &(impl Print + AllocGlobal)) -> io::Result<bool> {
    let mut all = true;
    for row in &SHOWN {
        let holds = keeps_each_room(rt.alloc(), *row);
        all &= holds;
        let outcome = if holds { "ok" } else { "fails" };
        println!(rt; "text {} {outcome}", row.1)?;
    }
    Ok(all)
}
