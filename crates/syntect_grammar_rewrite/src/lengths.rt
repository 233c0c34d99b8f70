//! How long texts are once their variables are expanded, and how many uses of variables there are,
//! counted without writing.
ghost use Rattle.std.specs.Prelude.{◌≡◌, ◌<◌, ◌≤◌, ◌+◌, IfOk, IfSome, MatchOption, length, None};
ghost use Rattle.syntect_grammar_rewrite.specs.Expanding.{left, turns, AreOpen};
ghost use Rattle.syntect_grammar_rewrite.specs.Lengths.{length_within, use_mark, with_uses};

use crate::expand::{Frame, go_into, leave, used};
use crate::signs::char_len;
use std::alloc::{AllocError, Global};
use syntect_values::table::Table;
use syntect_values::text::Text;

/// How many bytes the use of a variable counts as.
const USE: usize = 64;

/// The sum, unless it is more than the most.
fn added(sum: usize, more: usize, most: usize) -> Option<usize>
    requires { sum ≤ most }
    ensures sum { MatchOption result (most < sum + more) (λ n. n ≡ sum + more) }
    ensures within { IfSome result (λ n. n ≤ most) }
{
    if more <= most - sum {
        Some(sum + more)
    } else {
        None
    }
}

/// Counts the text's first part, or goes back at its end: what is to be read next, unless the count
/// would pass the most.
fn count_part<'a>(
    alloc: Global,
    variables: &'a Table<Text, Text>,
    frames: &mut Vec<Frame<'a>>,
    marks: &mut Table<Text, bool>,
    count: &mut usize,
    most: usize,
    text: &'a str,
) -> Result<Option<&'a str>, AllocError>
    requires more { 0 < length text.now + length frames.now.items }
    requires within { count.now ≤ most }
    requires marked { AreOpen marks.now frames.now.items }
    ensures passed { IfOk result (λ o. o ≡ None
        → most < count.old + length (left use_mark variables.now frames.old.items text.now)) }
    ensures kept { IfOk result (λ o. IfSome o
        (λ r. count.new + length (left use_mark variables.now frames.new.items r.now)
        ≡ count.old + length (left use_mark variables.now frames.old.items text.now))) }
    ensures falls { IfOk result (λ o. IfSome o
        (λ r. turns variables.now frames.new.items r.now
        < turns variables.now frames.old.items text.now)) }
    ensures within { IfOk result (λ o. IfSome o (λ r. count.new ≤ most)) }
    ensures marked { IfOk result (λ o. IfSome o (λ r. AreOpen marks.new frames.new.items)) }
{
    if text.is_empty() {
        return match leave(frames, marks)? {
            Some(frame) => Ok(Some(frame.rest)),
            None => Ok(Some(text)),
        };
    }
    if let Some((name, after)) = used(text) {
        let Some(sum) = added(*count, USE, most) else {
            return Ok(None);
        };
        *count = sum;
        let name = Text::from_str(alloc, name)?;
        let next = go_into(variables, frames, marks, sum, name, after)?;
        return Ok(Some(next));
    }
    let (c, after) = text.split_at(char_len(text));
    let Some(sum) = added(*count, c.len(), most) else {
        return Ok(None);
    };
    *count = sum;
    Ok(Some(after))
}

/// How many bytes a text has with its variables expanded, and 64 more for each use of a variable
/// that is come to for that, if those are at most so many together.
///
/// Nothing is written: no more memory is taken than the names of the variables that are gone into
/// and the places of those within one another take. It ends at the first character or use that
/// would pass the most, so that how long it takes is bounded by that number, with a look-up by name
/// for each use.
pub fn counted_len(
    alloc: Global,
    text: &str,
    variables: &Table<Text, Text>,
    most: usize,
) -> Result<Option<usize>, AllocError>
    ensures { IfOk result (λ n. n ≡ length_within most (with_uses variables.now text.now)) }
{
    if !text.as_bytes().contains(&b'{') {
        return Ok(added(0, text.len(), most));
    }
    let mut frames: Vec<Frame<'_>> = Vec::new(alloc);
    let mut marks: Table<Text, bool> = Table::new(alloc);
    let mut count = 0;
    let mut rest = text;
    'parts: while !rest.is_empty() || !frames.is_empty() {
        match count_part(
            alloc,
            variables,
            &mut frames,
            &mut marks,
            &mut count,
            most,
            rest,
        ) {
            Ok(Some(next)) => rest = next,
            Ok(None) => return Ok(None),
            Err(e) => return Err(e),
        }
    }
    Ok(Some(count))
}
