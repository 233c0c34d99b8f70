//! A text that is written after another one.
ghost use Rattle.std.specs.Prelude.{◌≡◌, ◌++◌, [], string_bytes, encode_utf8, OnOk};
ghost use Rattle.syntect_writers.specs.Entities.{escaped};

use crate::escape::name_of;
use crate::text::split_plain;
use std::alloc::AllocError;
use std::marker::Model;

/// A text and what is written after it. Whatever is refused, the text in front stays and can be
/// taken out again.
#[derive(Drop)]
pub(crate) struct Tail {
    text: String,
    /// Where the text in front ends.
    start: usize,
}

impl Model for Tail {
    ghost use Rattle.std.specs.Prelude.{string_bytes, take, drop};
    ghost use Rattle.std.specs.Str.{IsCharBoundary};
    ghost use Rattle.syntect_writers.specs.Tails.{Written};

    ghost Value = { Written };

    ghost view = { λ a. record {
      front = take a.start (string_bytes a.text);
      back = drop a.start (string_bytes a.text);
    } };

    ghost invariant = { λ a. IsCharBoundary (string_bytes a.text) a.start };
}

impl Tail {
    /// Nothing after a text. Takes no memory.
    #[tactic(auto, using(crate::proofs::TailLaws::ends_whole))]
    pub(crate) fn behind(text: String) -> Tail
        ensures front { result.front ≡ string_bytes text }
        ensures back { result.back ≡ [] }
    {
        let start = text.len();
        Tail { text, start }
    }

    /// Both texts as one. Takes no memory.
    pub(crate) fn into_text(self) -> String
        ensures { string_bytes result ≡ self.front ++ self.back }
    {
        let Tail { text, .. } = self;
        text
    }

    /// The text in front alone. Takes no memory.
    pub(crate) fn into_front(self) -> String
        ensures { string_bytes result ≡ self.front }
    {
        let Tail { mut text, start } = self;
        text.truncate(start);
        text
    }

    /// Appends a text.
    pub(crate) fn push_str(&mut self, part: &str) -> Result<(), AllocError>
        ensures front { self.new.front ≡ self.old.front }
        ensures back { OnOk result (self.new.back ≡ self.old.back ++ part.now) }
    {
        self.text.push_str(part)
    }

    /// Appends a character.
    pub(crate) fn push(&mut self, c: char) -> Result<(), AllocError>
        ensures front { self.new.front ≡ self.old.front }
        ensures back { OnOk result (self.new.back ≡ self.old.back ++ encode_utf8 c) }
    {
        self.text.push(c)
    }

    /// Appends a text, as HTML has it.
    pub(crate) fn push_escaped(&mut self, text: &str) -> Result<(), AllocError>
        ensures front { self.new.front ≡ self.old.front }
        ensures back { OnOk result (self.new.back ≡ self.old.back ++ escaped text.now) }
    {
        let mut rest = text;
        while let Some((front, stop, back)) = split_plain(rest) {
            self.push_str(front)?;
            self.push_str(name_of(stop))?;
            rest = back;
        }
        self.push_str(rest)
    }
}
