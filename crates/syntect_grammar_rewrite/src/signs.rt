//! Characters and signs at the front of a text.
ghost use Rattle.std.specs.Prelude.{◌≡◌, ◌≤◌, ◌<◌, ◌-◌, IsCharBoundary, length, drop, slice_index};
ghost use Rattle.std.specs.List.{prefix_len};
ghost use Rattle.syntect_grammar_rewrite.specs.Cutting as cutting;

/// The byte at a place, and 0 past the end.
#[inline]
pub(crate) fn byte_at(bytes: &[u8], index: usize) -> u8
    ensures { result ≡ slice_index bytes.now index }
{
    bytes.get(index).copied().unwrap_or(0)
}

/// The first byte, and 0 at the end.
#[inline]
pub(crate) fn first(text: &str) -> u8
    ensures { result ≡ slice_index text.now 0 }
{
    byte_at(text.as_bytes(), 0)
}

/// What follows the first `n` bytes, of which the last is ASCII and not 0.
#[inline]
pub(crate) fn skip(text: &str, n: usize) -> &str
    requires some { 0 < n }
    requires there { 0 < slice_index text.now (n - 1) }
    requires ascii { slice_index text.now (n - 1) < 128 }
    ensures rest { result.now ≡ drop n text.now }
    ensures shorter { length result.now < length text.now }
{
    text.split_at(n).1
}

/// Whether the byte goes on with a character that began before it.
#[inline(always)]
fn goes_on(byte: u8) -> bool
    ensures { result ≡ cutting.goes_on byte }
{
    128 <= byte && byte < 192
}

/// How many bytes at the front go on with a character.
#[inline(always)]
fn tail_len(bytes: &[u8]) -> usize
    ensures len { result ≡ prefix_len cutting.goes_on bytes.now }
    ensures within { result ≤ length bytes.now }
{
    bytes.iter().take_while(|byte| goes_on(**byte)).count()
}

/// How many bytes the first character has.
#[inline]
#[tactic(auto, using(crate::proofs::CuttingLaws::char_lens))]
pub(crate) fn char_len(text: &str) -> usize
    ensures len { result ≡ cutting.char_len text.now }
    ensures some { 0 < length text.now → 0 < result }
    ensures boundary { IsCharBoundary text.now result }
{
    let bytes = text.as_bytes();
    if bytes.is_empty() {
        return 0;
    }
    1 + tail_len(&bytes[1..])
}

/// How many bytes the first sign has: a backslash with its next character, or one character.
#[inline]
#[tactic(auto, unfolding(crate::specs::Cutting::sign_len))]
pub(crate) fn sign_len(text: &str) -> usize
    ensures len { result ≡ cutting.sign_len text.now }
    ensures some { 0 < length text.now → 0 < result }
    ensures boundary { IsCharBoundary text.now result }
{
    if first(text) == b'\\' {
        1 + char_len(skip(text, 1))
    } else {
        char_len(text)
    }
}
