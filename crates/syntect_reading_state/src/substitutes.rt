//! Patterns with the texts of groups put in, kept from turn to turn: such a pattern is compiled
//! once while its context is open.
ghost use Rattle.std.specs.Prelude.{◌≡◌, ◌+◌, ◌≤◌, IfErr, IfOk, IfSome, OnOk, string_bytes, true};
ghost use Rattle.syntect_reading_state.specs.syntect_count.Meter.{Advances, StopsAt};
ghost use Rattle.syntect_reading_state.specs.Puts.{look_steps, make_steps, put_in, put_steps, use_steps};

use crate::below::count::meter::Meter;
use crate::below::count::stop::Stop;
use crate::below::regexes::regex::Regex;
use crate::opening::Opening;
use std::alloc::{AllocError, Global};
use std::marker::Model;
use syntect_grammar::syntax_definition::MatchPattern;

/// How many are kept: with one more all earlier ones are dropped.
const MOST: usize = 16;

/// How many bytes that are compared, or copied, count as a step.
const READ_A_STEP: usize = 64;

/// How many steps it takes at least to look for one of them, and to pass over a pattern without
/// back references in a list where others have some.
pub const LEAST_STEPS: usize = 8;

/// How many steps a byte is that is written and made searchable, which takes as long as some of the
/// others do.
const STEPS_A_BYTE: usize = 4;

/// A pattern with the groups of a match put in, and what it was made of. Seen as the pattern.
#[derive(Drop)]
pub struct Substitute {
    pattern: String,
    opening: Opening,
    regex: Regex,
}

impl Model for Substitute {
    ghost use Rattle.std.specs.Prelude.{◌≡◌, List, ℕ, string_bytes};
    ghost use Rattle.syntect_reading_state.specs.syntect_grammar_contexts.Substitution.{substituted};

    ghost Value = { List ℕ };

    ghost view = { λ s. s.regex };

    ghost invariant = { λ s. s.regex
        ≡ substituted (string_bytes s.pattern) s.opening.region s.opening.line };
}

/// The patterns with groups put in that are kept.
pub struct Substitutes {
    kept: Vec<Substitute>,
}

/// Written out, so that crates above call it and needn't prove each part's drop again.
impl Drop for Substitutes {
    fn drop(self) {
        let Substitutes { kept: _ } = self;
    }
}

/// Whether the texts are the same.
fn is_same_text(a: &str, b: &str) -> bool
    ensures { result ≡ true → a.now ≡ b.now }
{
    a == b
}

/// How many steps it takes to look whether a pattern with the groups of a match put in is kept.
fn look_steps(pattern: &MatchPattern, opening: &Opening) -> usize
    ensures { result ≡ look_steps pattern.now.regex opening.now }
{
    pattern.regex.regex_str().len() / READ_A_STEP + opening.line_len() / READ_A_STEP + LEAST_STEPS
}

/// All steps that are left are made, since they are too few.
fn spent(meter: &mut Meter) -> Stop
    ensures advances { Advances meter.old meter.new }
    ensures stops { StopsAt meter.new result }
{
    match meter.spend(usize::MAX) {
        Err(stop) => stop,
        // without a limit: no memory has so many bytes
        Ok(()) => Stop::Memory,
    }
}

/// The text of a pattern with this match's groups put in, which is paid for. No more of it is
/// written than can be paid for, but for one group's text.
fn text_by_meter(
    pattern: &MatchPattern,
    opening: &Opening,
    meter: &mut Meter,
) -> Result<String, Stop>
    ensures text { IfOk result (λ s. string_bytes s ≡ put_in pattern.now.regex opening.now) }
    ensures made { OnOk result (meter.new.made
        ≡ meter.old.made + make_steps (put_in pattern.now.regex opening.now)) }
    ensures advances { Advances meter.old meter.new }
    ensures stops { IfErr result (StopsAt meter.new) }
{
    let left = meter.left().unwrap_or(usize::MAX);
    match opening.text_within(pattern, left / STEPS_A_BYTE)? {
        Some(text) => {
            meter.spend(text.len() * STEPS_A_BYTE)?;
            Ok(text)
        }
        None => Err(spent(meter)),
    }
}

impl Substitute {
    /// The pattern with this match's groups put in. Its bytes are paid for before it is written and
    /// made searchable.
    pub fn new(
        alloc: Global,
        pattern: &MatchPattern,
        opening: &Opening,
        meter: &mut Meter,
    ) -> Result<Substitute, Stop>
        ensures text { IfOk result (λ s. s ≡ put_in pattern.now.regex opening.now) }
        ensures made { OnOk result (meter.new.made
            ≡ meter.old.made + make_steps (put_in pattern.now.regex opening.now)) }
        ensures advances { Advances meter.old meter.new }
        ensures stops { IfErr result (StopsAt meter.new) }
    {
        let text = text_by_meter(pattern, opening, meter)?;
        let regex = Regex::ready(alloc, text)?;
        Ok(Substitute {
            pattern: String::from_str(alloc, pattern.regex.regex_str())?,
            opening: opening.clone(alloc)?,
            regex,
        })
    }

    /// The pattern.
    pub fn regex(&self) -> &Regex
        ensures { result.now ≡ self.now }
    {
        &self.regex
    }

    /// Whether it was made of these.
    fn is_of(&self, pattern: &MatchPattern, opening: &Opening) -> bool
        ensures { result ≡ true → self.now
            ≡ put_in pattern.now.regex opening.now }
    {
        is_same_text(self.pattern.as_str(), pattern.regex.regex_str()) && self.opening == *opening
    }
}

impl Substitutes {
    /// None. Takes no memory.
    pub fn new(alloc: Global) -> Substitutes {
        Substitutes {
            kept: Vec::new(alloc),
        }
    }

    /// Takes out the one that was made of these, if it is kept.
    fn take(&mut self, pattern: &MatchPattern, opening: &Opening) -> Option<Substitute>
        ensures { IfSome result (λ s. s
            ≡ put_in pattern.now.regex opening.now) }
    {
        for place in 0..self.kept.len() {
            if self.kept[place].is_of(pattern, opening) {
                return Some(self.kept.swap_remove(place));
            }
        }
        None
    }

    /// The pattern with this match's groups put in: the one that is kept, which is taken out, or
    /// else a new one. To look for it is paid for, and so is to make it.
    pub fn take_or_make(
        &mut self,
        alloc: Global,
        pattern: &MatchPattern,
        opening: &Opening,
        meter: &mut Meter,
    ) -> Result<Substitute, Stop>
        ensures text { IfOk result (λ s. s ≡ put_in pattern.now.regex opening.now) }
        ensures looks { OnOk result (meter.old.made + look_steps pattern.now.regex opening.now
            + use_steps (put_in pattern.now.regex opening.now) ≤ meter.new.made) }
        ensures steps { OnOk result (meter.new.made
            ≤ meter.old.made + put_steps pattern.now.regex opening.now) }
        ensures advances { Advances meter.old meter.new }
        ensures stops { IfErr result (StopsAt meter.new) }
    {
        meter.spend(look_steps(pattern, opening))?;
        match self.take(pattern, opening) {
            Some(kept) => {
                meter.spend(kept.regex.regex_str().len() / READ_A_STEP)?;
                Ok(kept)
            }
            None => Substitute::new(alloc, pattern, opening, meter),
        }
    }

    /// Keeps one more. Where there is no memory, it isn't kept. No contract says it: whoever keeps
    /// none is only slower.
    pub fn put(&mut self, substitute: Substitute) {
        if self.kept.len() >= MOST {
            self.kept.clear();
        }
        let _ = self.kept.push(substitute);
    }
}
