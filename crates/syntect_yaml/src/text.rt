//! Steps over a text that make nothing.
ghost use Rattle.std.specs.Prelude.{◌≡◌, ◌<◌, ◌≤◌, ◌-◌, ◌+◌, length, drop, slice_index, option_map, IfSome};
ghost use Rattle.std.specs.List.{prefix_len};
ghost use Rattle.syntect_yaml.specs.Lines as lines;
ghost use Rattle.syntect_yaml.specs.Text.{class_test, place_of, Shortens};

/// The byte at a place, and 0 past the end.
#[inline]
pub(crate) fn byte_at(bytes: &[u8], index: usize) -> u8
    ensures { result ≡ slice_index bytes.now index }
{
    bytes.get(index).copied().unwrap_or(0)
}

/// The first byte, and 0 at the end.
#[inline]
pub(crate) fn first(text: &str) -> u8
    ensures { result ≡ slice_index text.now 0 }
{
    byte_at(text.as_bytes(), 0)
}

/// What follows the first `n` bytes, of which the last is ASCII and not 0.
#[inline]
pub(crate) fn skip(text: &str, n: usize) -> &str
    requires some { 0 < n }
    requires there { 0 < slice_index text.now (n - 1) }
    requires ascii { slice_index text.now (n - 1) < 128 }
    ensures rest { result.now ≡ drop n text.now }
    ensures shorter { length result.now < length text.now }
{
    text.split_at(n).1
}

/// Bytes that make a run.
#[derive(Clone, Copy)]
pub(crate) enum Class {
    Space,
    White,
    InLine,
    /// What stands for itself in single quotes.
    Single,
    /// What stands for itself in double quotes.
    Double,
    Hex,
}

#[inline(always)]
fn is_in(class: Class, byte: u8) -> bool
    ensures { result ≡ class_test class byte }
{
    match class {
        Class::Space => byte == b' ',
        Class::White => is_white(byte),
        Class::InLine => byte != b'\n',
        Class::Single => byte != b'\n' && byte != b'\'',
        Class::Double => byte != b'\n' && byte != b'"' && byte != b'\\',
        Class::Hex => byte.is_ascii_hexdigit(),
    }
}

/// Whether the byte is a space or a tab.
#[inline]
pub(crate) fn is_white(byte: u8) -> bool
    ensures { result ≡ lines.is_white byte }
{
    byte == b' ' || byte == b'\t'
}

/// How many bytes at the front are of the class.
#[inline(always)]
pub(crate) fn run_len(bytes: &[u8], class: Class) -> usize
    ensures len { result ≡ prefix_len (class_test class) bytes.now }
    ensures within { result ≤ length bytes.now }
{
    bytes.iter().take_while(|byte| is_in(class, **byte)).count()
}

/// The bytes at the front that are of the class, and what follows them.
#[inline(always)]
pub(crate) fn split_run(text: &str, class: Class) -> (&str, &str)
    ensures parts { (result.0.now, result.1.now) ≡ lines.split_run (class_test class) text.now }
    ensures lengths { length result.0.now + length result.1.now ≡ length text.now }
{
    text.split_at(run_len(text.as_bytes(), class))
}

/// Whether the line is over.
#[inline]
pub(crate) fn ends_line(bytes: &[u8]) -> bool
    ensures { result ≡ lines.ends_line bytes.now }
{
    bytes.is_empty()
        || byte_at(bytes, 0) == b'\n'
        || (byte_at(bytes, 0) == b'\r' && byte_at(bytes, 1) == b'\n')
}

/// The next line.
pub(crate) fn after_line(text: &str) -> &str
    ensures rest { result.now ≡ lines.after_line text.now }
    ensures within { length result.now ≤ length text.now }
    ensures shorter { 0 < length text.now → length result.now < length text.now }
{
    let (_, after) = split_run(text, Class::InLine);
    if after.is_empty() {
        after
    } else {
        skip(after, 1)
    }
}

/// Whether a comment begins after white space of `n` bytes.
#[inline]
fn opens_comment(bytes: &[u8], n: usize, at_once: bool) -> bool
    ensures { result ≡ lines.opens_comment at_once n bytes.now }
{
    byte_at(bytes, n) == b'#' && (at_once || byte_at(bytes, n.saturating_sub(1)) == b' ')
}

/// The next line, where nothing is left on this one but white space and a comment.
#[tactic(auto, unfolding(crate::specs::Lines::line_tail))]
pub(crate) fn line_tail(text: &str, at_once: bool) -> Option<&str>
    ensures value { option_map (λ u. u.now) result ≡ lines.line_tail at_once text.now }
    ensures within { IfSome result (λ u. length u.now ≤ length text.now) }
    ensures shorter { 0 < length text.now → Shortens text.now result }
{
    let n = run_len(text.as_bytes(), Class::White);
    let rest = split_run(text, Class::White).1;
    if ends_line(rest.as_bytes()) || opens_comment(text.as_bytes(), n, at_once) {
        return Some(after_line(rest));
    }
    None
}
