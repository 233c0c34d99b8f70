//! Bytes that C gives and takes.
ghost use Rattle.std.specs.Prelude.{◌≡◌, ◌++◌, length, take, drop, IfOk};

use crate::kind::Kind;
use crate::refusal::Refusal;
use std::str;

/// Bytes as a text, or that they are none.
pub fn text_of(bytes: &[u8]) -> Result<&str, Refusal>
    ensures { IfOk result (λ text. text.now ≡ bytes.now) }
{
    match str::from_utf8(bytes) {
        Ok(text) => Ok(text),
        Err(_) => Err(Refusal::of(Kind::Text)),
    }
}

/// Copies bytes to the front of a room, as many as there is room for, and answers how many there
/// are.
#[tactic(auto, using(std::proofs::lemmas::List::take_all, crate::proofs::TextLaws::none_stays))]
pub fn copy_out(bytes: &[u8], room: &mut [u8]) -> usize
    ensures count { result ≡ length bytes.now }
    ensures copied { room.new ≡ take (length room.old) bytes.now
        ++ drop (length bytes.now) room.old }
{
    if bytes.len() <= room.len() {
        room.split_at_mut(bytes.len()).0.copy_from_slice(bytes);
    } else {
        room.copy_from_slice(bytes.split_at(room.len()).0);
    }
    bytes.len()
}
