//! Variables, expanded.
ghost use Rattle.std.specs.Prelude.{◌≡◌, ℕ, Bool, ◌<◌, ◌≤◌, ◌+◌, ◌++◌, [], ◌∷◌, List, IsTrue, IsOk, IfOk, IfSome, MatchOption, length, drop, option_map, string_bytes, true, false, None};
ghost use Rattle.std.specs.Map.{lookup};
ghost use Rattle.std.specs.BTreeMap.{insert_entry};
ghost use Rattle.std.specs.Cmp.Lexicographic.{slice_cmp};
ghost use Rattle.std.specs.Ordering.{nat_cmp};
ghost use Rattle.std.specs.Str.{bytes_eq};
ghost use Rattle.std.specs.List.{prefix_len};
ghost use Rattle.syntect_grammar_rewrite.specs.Variables as uses;
ghost use Rattle.syntect_grammar_rewrite.specs.Variables.{Variables, without};
ghost use Rattle.syntect_grammar_rewrite.specs.Expanding.{inner, left, turns, is_open, AreOpen, Vanishes, AllVanish, AreTraced, GoesInto, Enters, Closes};
ghost use Rattle.syntect_grammar_rewrite.specs.declared.expand.Frame.{Frame as AFrame};

use crate::signs::{byte_at, char_len, first, skip};
use std::alloc::{AllocError, AllocFailed, Global};
use syntect_values::table::Table;
use syntect_values::text::Text;

/// A variable whose text is being read, what follows its use, and how much was written before it.
#[derive(Drop)]
pub(crate) struct Frame<'a> {
    name: Text,
    pub(crate) rest: &'a str,
    start: usize,
}

/// Whether a byte is one of a name.
#[inline(always)]
fn is_name(byte: u8) -> bool
    ensures { result ≡ uses.is_name byte }
{
    byte.is_ascii_alphanumeric() || byte == b'_'
}

/// How many bytes at the front are of a name.
#[inline(always)]
fn run_len(bytes: &[u8]) -> usize
    ensures len { result ≡ prefix_len uses.is_name bytes.now }
    ensures within { result ≤ length bytes.now }
{
    bytes.iter().take_while(|byte| is_name(**byte)).count()
}

/// How long the name after two braces is.
fn name_len(bytes: &[u8]) -> usize
    ensures len { result ≡ uses.name_len bytes.now }
    ensures within { 0 < result → result + 2 ≤ length bytes.now }
{
    if bytes.len() < 2 {
        return 0;
    }
    run_len(&bytes[2..])
}

/// The name of the variable with whose use the text begins, and what follows that.
#[tactic(auto, unfolding(crate::specs::Variables::is_use))]
pub(crate) fn used(text: &str) -> Option<(&str, &str)>
    ensures cases { MatchOption result (uses.is_use text.now ≡ false)
        (λ p. uses.is_use text.now ≡ true) }
    ensures name { IfSome result (λ p. p.0.now ≡ uses.name text.now) }
    ensures rest { IfSome result (λ p. p.1.now ≡ drop (uses.name_len text.now + 4) text.now) }
{
    let bytes = text.as_bytes();
    // only a name after two braces is measured, so that a long run of letters costs one pass
    if first(text) != b'{' || byte_at(bytes, 1) != b'{' {
        return None;
    }
    let n = name_len(bytes);
    if 0 < n && byte_at(bytes, n + 2) == b'}' && byte_at(bytes, n + 3) == b'}' {
        let name = skip(text, 2).split_at(n).0;
        return Some((name, skip(text, n + 4)));
    }
    None
}

/// Whether the text of a variable is being read.
fn is_open(marks: &Table<Text, bool>, name: &Text) -> bool
    ensures { result ≡ is_open name.now marks.now }
{
    match marks.get(name) {
        Some(is_open) => *is_open,
        None => false,
    }
}

/// The text of a variable, unless that is being read.
fn value_of<'a>(
    variables: &'a Table<Text, Text>,
    marks: &Table<Text, bool>,
    name: &Text,
) -> Option<&'a Text>
    ensures { (frames : List AFrame) → AreOpen marks.now frames
        → option_map (λ v. v.now) result
        ≡ lookup (bytes_eq name.now) (inner variables.now frames) }
{
    if is_open(marks, name) {
        return None;
    }
    variables.get(name)
}

/// Marks the name of a variable as one whose text is being read, or is not any more.
fn mark(marks: &mut Table<Text, bool>, name: Text, is_open: bool) -> Result<(), AllocError>
    ensures { IsOk result → marks.new ≡ insert_entry (slice_cmp nat_cmp) marks.old name is_open }
{
    match marks.insert(name, is_open) {
        Ok(_) => Ok(()),
        Err(AllocFailed { .. }) => Err(AllocError),
    }
}

/// Whether the use of the name is remembered to stand for nothing.
fn vanishes(known: &Table<Text, bool>, name: &Text) -> bool
    ensures { IsTrue result → (us : Variables) → AllVanish us known.now → Vanishes us name.now }
{
    known.get(name).is_some()
}

/// Goes into the text of a variable, unless that is being read: what is to be read next.
pub(crate) fn go_into<'a>(
    variables: &'a Table<Text, Text>,
    frames: &mut Vec<Frame<'a>>,
    marks: &mut Table<Text, bool>,
    written: usize,
    name: Text,
    after: &'a str,
) -> Result<&'a str, AllocError>
    requires { AreOpen marks.now frames.now.items }
    ensures kept { IfOk result
        (λ r. GoesInto variables.now frames.old.items name after.now frames.new.items r.now) }
    ensures deeper { IfOk result (λ r. length frames.new.items ≤ length frames.old.items + 1) }
    ensures enters { IfOk result (λ r. (known : List (List ℕ × Bool))
        → AllVanish (inner variables.now frames.old.items) known
        → Enters variables.now frames.old.items known written name
        after.now frames.new.items r.now) }
    ensures marked { IfOk result (λ r. AreOpen marks.new frames.new.items) }
{
    match value_of(variables, marks, &name) {
        Some(value) => {
            mark(marks, name.clone()?, true)?;
            frames.push(Frame {
                name,
                rest: after,
                start: written,
            })?;
            Ok(value.as_str())
        }
        None => Ok(after),
    }
}

/// Goes into the text of a variable, unless that is being read or its use is remembered to stand
/// for nothing: what is to be read next.
fn enter<'a>(
    variables: &'a Table<Text, Text>,
    frames: &mut Vec<Frame<'a>>,
    marks: &mut Table<Text, bool>,
    known: &Table<Text, bool>,
    written: usize,
    name: Text,
    after: &'a str,
) -> Result<&'a str, AllocError>
    requires vanish { AllVanish (inner variables.now frames.now.items) known.now }
    requires marked { AreOpen marks.now frames.now.items }
    ensures kept { IfOk result (λ r. Enters variables.now frames.old.items known.now written name
        after.now frames.new.items r.now) }
    ensures marked { IfOk result (λ r. AreOpen marks.new frames.new.items) }
{
    if vanishes(known, &name) {
        return Ok(after);
    }
    go_into(variables, frames, marks, written, name, after)
}

/// Remembers that the use of a name stands for nothing.
fn remember(known: &mut Table<Text, bool>, name: Text) -> Result<(), AllocError>
    ensures { IsOk result → known.new ≡ insert_entry (slice_cmp nat_cmp) known.old name true }
{
    match known.insert(name, true) {
        Ok(_) => Ok(()),
        Err(AllocFailed { .. }) => Err(AllocError),
    }
}

/// Remembers whether the use of a name stands for nothing, when its variable's text is over: if it
/// does, what is remembered from within that text holds outside of it too,
/// and else nothing is remembered.
fn settle(
    alloc: Global,
    known: &mut Table<Text, bool>,
    name: Text,
    vanishes: bool,
) -> Result<(), AllocError>
    ensures { IsOk result → (us : Variables) → (IsTrue vanishes → Vanishes us name)
        → AllVanish (without name us) known.old → AllVanish us known.new }
{
    if vanishes {
        remember(known, name)?;
    } else if !known.is_empty() {
        *known = Table::new(alloc);
    }
    Ok(())
}

/// Takes the last frame away, if there is one.
pub(crate) fn leave<'a>(
    frames: &mut Vec<Frame<'a>>,
    marks: &mut Table<Text, bool>,
) -> Result<Option<Frame<'a>>, AllocError>
    requires { AreOpen marks.now frames.now.items }
    ensures taken { IfOk result (λ o. MatchOption o (length frames.old.items ≡ 0)
        (λ f. frames.old.items ≡ frames.new.items ++ f ∷ [])) }
    ensures marked { IfOk result (λ o. IfSome o (λ r. AreOpen marks.new frames.new.items)) }
{
    let Some(frame) = frames.pop() else {
        return Ok(None);
    };
    mark(marks, frame.name.clone()?, false)?;
    Ok(Some(frame))
}

/// Goes back to what follows the use of the variable whose text is over, if there is one.
fn close<'a>(
    alloc: Global,
    frames: &mut Vec<Frame<'a>>,
    marks: &mut Table<Text, bool>,
    known: &mut Table<Text, bool>,
    written: usize,
) -> Result<Option<&'a str>, AllocError>
    requires { AreOpen marks.now frames.now.items }
    ensures none { IfOk result (λ r. r ≡ None → length frames.old.items ≡ 0) }
    ensures kept { IfOk result
        (λ o. IfSome o
        (λ r. Closes frames.old.items known.old written frames.new.items known.new r.now)) }
    ensures shallower { IfOk result
        (λ o. IfSome o (λ r. length frames.old.items ≡ length frames.new.items + 1)) }
    ensures marked { IfOk result (λ o. IfSome o (λ r. AreOpen marks.new frames.new.items)) }
{
    let Some(Frame { name, rest, start }) = leave(frames, marks)? else {
        return Ok(None);
    };
    settle(alloc, known, name, start == written)?;
    Ok(Some(rest))
}

/// Reads the text's first part, or goes back at its end: what is to be read next.
fn turn<'a>(
    alloc: Global,
    variables: &'a Table<Text, Text>,
    frames: &mut Vec<Frame<'a>>,
    marks: &mut Table<Text, bool>,
    known: &mut Table<Text, bool>,
    out: &mut String,
    text: &'a str,
) -> Result<&'a str, AllocError>
    requires more { 0 < length text.now + length frames.now.items }
    requires traced { AreTraced variables.now frames.now.items text.now
        (length (string_bytes out.now)) }
    requires vanish { AllVanish (inner variables.now frames.now.items) known.now }
    requires marked { AreOpen marks.now frames.now.items }
    ensures kept { IfOk result
        (λ r. string_bytes out.new ++ left [] variables.now frames.new.items r.now
        ≡ string_bytes out.old ++ left [] variables.now frames.old.items text.now) }
    ensures falls { IfOk result
        (λ r. turns variables.now frames.new.items r.now
        < turns variables.now frames.old.items text.now) }
    ensures traced { IfOk result
        (λ r. AreTraced variables.now frames.new.items r.now (length (string_bytes out.new))) }
    ensures vanish { IfOk result (λ r. AllVanish (inner variables.now frames.new.items) known.new) }
    ensures marked { IfOk result (λ r. AreOpen marks.new frames.new.items) }
{
    if text.is_empty() {
        let next = close(alloc, frames, marks, known, out.len())?;
        return Ok(next.unwrap_or(text));
    }
    if let Some((name, after)) = used(text) {
        let name = Text::from_str(alloc, name)?;
        let next = enter(variables, frames, marks, known, out.len(), name, after)?;
        return Ok(next);
    }
    let (c, after) = text.split_at(char_len(text));
    out.push_str(c)?;
    Ok(after)
}

/// A text with its variables expanded.
///
/// Each use that is gone into and writes nothing is remembered until one that wrote something is
/// over. So of as many variables as there are, each is gone into at most once for nothing between
/// two that write, and each character is written in at most as many of them: how long it takes is
/// bounded by what is written and the number of variables.
pub(crate) fn expand(
    alloc: Global,
    text: &str,
    variables: &Table<Text, Text>,
) -> Result<String, AllocError>
    ensures { IfOk result (λ s. string_bytes s ≡ uses.expanded variables.now text.now) }
{
    if !text.as_bytes().contains(&b'{') {
        return String::from_str(alloc, text);
    }
    let mut out = String::new(alloc);
    let mut frames: Vec<Frame<'_>> = Vec::new(alloc);
    let mut marks: Table<Text, bool> = Table::new(alloc);
    let mut known: Table<Text, bool> = Table::new(alloc);
    let mut rest = text;
    'turns: while !rest.is_empty() || !frames.is_empty() {
        rest = turn(
            alloc,
            variables,
            &mut frames,
            &mut marks,
            &mut known,
            &mut out,
            rest,
        )?;
    }
    Ok(out)
}
