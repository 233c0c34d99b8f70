//! Sets of what can stand at a place.
use syntect_regex::below::pattern_table::node::Class;
pub use syntect_regex::below::pattern_table::starts::{Places, anywhere, either, nowhere};

/// The ASCII characters that words are made of.
pub const WORD: u128 = 0x07ff_fffe_87ff_fffe_03ff_0000_0000_0000;

/// A newline.
pub const NEWLINE: u128 = 1 << 10;

/// These ASCII characters, and nothing else.
pub fn of_ascii(ascii: u128) -> Places {
    Places { ascii, ..nowhere() }
}

/// What is in both.
pub fn both(a: Places, b: Places) -> Places {
    Places {
        ascii: a.ascii & b.ascii,
        wide: a.wide && b.wide,
        end: a.end && b.end,
    }
}

/// What is not in these.
pub fn others(a: Places) -> Places {
    Places {
        ascii: !a.ascii,
        wide: !a.wide,
        end: !a.end,
    }
}

/// Whether nothing is in these.
pub fn is_none(a: Places) -> bool {
    a.ascii == 0 && !a.wide && !a.end
}

/// Whether all that is in the first ones is in the others.
pub fn is_within(a: Places, b: Places) -> bool {
    is_none(both(a, others(b)))
}

/// Whether anything is in these.
pub fn is_all(a: Places) -> bool {
    is_none(others(a))
}

/// Characters beyond ASCII: at least one of each kind that a class without numbers and names of
/// properties can tell from others, with all that are white space.
const KINDS: &[(u32, u32)] = &[
    (0x80, 0x180),
    (0x2b0, 0x2b8),
    (0x300, 0x308),
    (0x370, 0x3a4),
    (0x5d0, 0x5d4),
    (0x660, 0x66a),
    (0x1680, 0x1682),
    (0x180e, 0x180f),
    (0x2000, 0x2070),
    (0x212a, 0x212c),
    (0x2160, 0x2164),
    (0x2190, 0x2194),
    (0x3000, 0x3008),
    (0x4e00, 0x4e04),
    (0xe000, 0xe002),
    (0xfeff, 0xff00),
    (0xfffd, 0x10000),
    (0x1f600, 0x1f602),
    (0x10ffff, 0x110000),
];

/// Whether a class holds the characters from one up to another.
fn holds_all(class: &Class, from: u32, to: u32) -> bool {
    for number in from..to {
        let is_held = match char::from_u32(number) {
            Some(c) => class.holds(c),
            None => true,
        };
        if !is_held {
            return false;
        }
    }
    true
}

/// Whether a class of a pattern that names no characters beyond ASCII holds all of these.
fn holds_wide(class: &Class) -> bool {
    class.is_wide() && KINDS.iter().all(|kind| holds_all(class, kind.0, kind.1))
}

/// What surely is a character of a class. Of a pattern that is not `plain` nothing is known beyond
/// ASCII.
pub fn sure_of_class(class: &Class, is_plain: bool) -> Places {
    Places {
        ascii: class.ascii(),
        wide: is_plain && holds_wide(class),
        end: false,
    }
}

/// Whether a pattern's text names no characters beyond ASCII, but by what words, digits, white
/// space and the like are.
pub fn is_plain(text: &str) -> bool {
    let named: &[&str] = &["\\x", "\\u", "\\U", "\\p", "\\P", "\\o"];
    text.is_ascii() && !named.iter().any(|front| text.contains(*front))
}
