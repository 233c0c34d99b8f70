//! Fronts of texts.
ghost use Rattle.std.specs.Prelude.{◌≡◌, ◌≤◌, length};
ghost use Rattle.std.specs.List.{prefix_len};
ghost use Rattle.syntect_writers.specs.Text.{test_of, SplitsAtFirst, FirstLine};

/// Which bytes a front has.
#[derive(Clone, Copy)]
pub(crate) enum Front {
    /// The bytes that stand in HTML as they are.
    Plain,
    /// The bytes before a newline.
    InLine,
}

#[inline(always)]
fn is_in(front: Front, byte: u8) -> bool
    ensures { result ≡ test_of front byte }
{
    match front {
        Front::Plain => !matches!(byte, b'<' | b'>' | b'&' | b'\'' | b'"'),
        Front::InLine => byte != b'\n',
    }
}

/// How many bytes at the front are of this kind.
#[inline(always)]
fn front_len(bytes: &[u8], front: Front) -> usize
    ensures len { result ≡ prefix_len (test_of front) bytes.now }
    ensures within { result ≤ length bytes.now }
{
    bytes.iter().take_while(|byte| is_in(front, **byte)).count()
}

/// The text before its first byte that has a meaning in HTML, that byte, and the text after it;
/// none without such a byte.
#[inline(always)]
pub(crate) fn split_plain(text: &str) -> Option<(&str, u8, &str)>
    ensures { SplitsAtFirst text.now result }
{
    let bytes = text.as_bytes();
    let len = front_len(bytes, Front::Plain);
    if len == bytes.len() {
        return None;
    }
    Some((text.split_at(len).0, bytes[len], text.split_at(len + 1).1))
}

/// The first line with its newline, and the text after it.
#[inline(always)]
pub(crate) fn split_line(text: &str) -> (&str, &str)
    ensures { FirstLine text.now result.0.now result.1.now }
{
    let bytes = text.as_bytes();
    let len = front_len(bytes, Front::InLine);
    if len == bytes.len() {
        return (text, "");
    }
    text.split_at(len + 1)
}
