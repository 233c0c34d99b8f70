//! Readings of lines, one after another.
ghost use Rattle.std.specs.Prelude.{◌≡◌, ◌+◌, ◌≤◌, true, length, take, drop, IfOk};
ghost use Rattle.std.proofs.lemmas.List.Edits.{sets};
ghost use Rattle.syntect_buffer.specs.Answers.{TellsOf};
ghost use Rattle.syntect_buffer.specs.Kept.{IsReadFrom, AreReadAgain, ending, lines_in};
ghost use Rattle.syntect_buffer.specs.States.{StandSame};

use crate::answer::{LineAnswer, ranges_of, refusal, refused_operation};
use crate::below::base::limits::Limits;
use crate::below::easy::easy::{HighlightLines, HighlightWithinError};
use crate::below::parsing::error::Error;
use crate::below::parsing::syntax_set::SyntaxSet;
use crate::below::theme::theme::Theme;
use crate::states::{LineStates, SharedStates, copied, left, stand_same};
use std::alloc::{AllocError, Global};
use syntect_blocks::blocks::Blocks;

/// A line's answer, and the states after the line.
#[derive(Drop)]
pub(crate) struct Reading {
    pub(crate) answer: LineAnswer,
    pub(crate) after: SharedStates,
    /// Whether the line ends as it began, so that it shares the states at its start.
    pub(crate) ends_alike: bool,
}

/// The lines of a buffer, their readings, the states before the first one, and the limits that each
/// is read within.
#[derive(Drop)]
pub(crate) struct Kept {
    pub(crate) limits: Limits,
    pub(crate) start: SharedStates,
    pub(crate) lines: Blocks<String>,
    pub(crate) readings: Blocks<Reading>,
}

/// Reads a line from the states at its start, within limits.
/// A line that reaches one leaves these states.
pub(crate) fn read(
    alloc: Global,
    set: &SyntaxSet,
    theme: &Theme,
    limits: &Limits,
    before: &SharedStates,
    line: &str,
) -> Result<Reading, AllocError>
    ensures read { IfOk result (λ r. IsReadFrom set.now theme.now before.now line.now r) }
    ensures told { IfOk result (λ r. TellsOf limits.now r.answer) }
{
    prove!(line.len() <= usize::MAX);
    let states = before.states();
    let styles = states.styles.clone()?;
    let reader = copied(&states.reader)?;
    let mut lines = HighlightLines::from_state(alloc, theme, styles, reader)?;
    let answer = match lines.highlight_line_within(alloc, line, set, limits) {
        Ok(pieces) => LineAnswer::Pieces(ranges_of(alloc, pieces.as_slice())?),
        Err(HighlightWithinError::Refused(Error::ParsingError(e))) => refusal(e)?,
        Err(HighlightWithinError::Refused(Error::ScopeError(e))) => refused_operation(e)?,
        Err(HighlightWithinError::Refused(_)) => return Err(AllocError),
        Err(HighlightWithinError::LimitReached(limit)) => LineAnswer::LimitReached(limit),
    };
    let (styles, reader) = lines.state();
    let (after, ends_alike) = left(alloc, before, LineStates { styles, reader })?;
    Ok(Reading {
        answer,
        after,
        ends_alike,
    })
}

/// The states at the start of a line, where the first line starts from `start`; after the last
/// line, those after it.
pub(crate) fn states_at<'a>(
    start: &'a SharedStates,
    readings: &'a Blocks<Reading>,
    place: usize,
) -> &'a SharedStates
    requires { place ≤ length readings.now }
    ensures { result.now ≡ ending start.now (take place readings.now) }
{
    if place == 0 {
        start
    } else {
        &readings.get(place - 1).after
    }
}

/// The states after some readings that begin with `now`.
fn states_after<'a>(now: &'a SharedStates, readings: &'a [Reading]) -> &'a SharedStates
    ensures { result.now ≡ ending now.now readings.now }
{
    match readings.last() {
        Some(reading) => &reading.after,
        None => now,
    }
}

/// Reads lines again from a place on, where the states are now these: up to, and without, the first
/// line that starts from the same states as before, or to the end. Where it is known that the first
/// one does, no states are compared.
pub(crate) fn read_again(
    alloc: Global,
    set: &SyntaxSet,
    theme: &Theme,
    kept: &Kept,
    place: usize,
    now: &SharedStates,
    alike: bool,
) -> Result<Vec<Reading>, AllocError>
    requires count { length kept.now.lines ≡ length kept.now.readings }
    requires alike { alike ≡ true
        → StandSame (ending kept.now.start (take place kept.now.readings)) now.now }
    requires within { place ≤ length kept.now.readings }
    ensures { IfOk result (λ again. AreReadAgain set.now theme.now kept.now.limits now.now
        (ending kept.now.start (take place kept.now.readings))
        (drop place (lines_in kept.now)) (drop place kept.now.readings) again.items) }
{
    let mut again = Vec::new(alloc);
    if alike {
        return Ok(again);
    }
    for at in place..kept.lines.len() {
        let before = states_after(now, again.as_slice());
        if stand_same(states_at(&kept.start, &kept.readings, at), before) {
            break;
        }
        let reading = read(
            alloc,
            set,
            theme,
            &kept.limits,
            before,
            kept.lines.get(at).as_str(),
        )?;
        again.push(reading)?;
    }
    Ok(again)
}

/// Puts readings in place of those from a place on.
pub(crate) fn renew(readings: &mut Blocks<Reading>, place: usize, again: Vec<Reading>)
    requires { place + length again.items ≤ length readings.old }
    ensures { readings.new ≡ sets readings.old place again.items }
{
    let count = readings.len();
    prove!(place <= count);
    let mut at = place;
    for reading in again {
        readings.set(at, reading);
        at += 1;
    }
}
