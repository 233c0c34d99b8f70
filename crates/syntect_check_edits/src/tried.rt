//! Edits of the text of a file, by the grammars of a folder and the theme of a file.
use crate::below::easy::highlighting::Theme;
use crate::below::easy::parsing::{SyntaxReference, SyntaxSet};
use crate::below::easy::util::LinesWithEndings;
use crate::loading::{given_of, syntax_of};
use crate::timing::{Edit, time_filling, time_fresh, time_pair};
use crate::trials::{Seen, try_edits};
use std::rt::{Clock, Files};
use std::{fs, io};
use syntect_buffer::buffer::LineBuffer;

/// Why nothing is tried.
const UNLOADED: &str = "the grammars or the theme do not load";

const UNKNOWN: &str = "no grammar has the file's syntax";

/// Says why nothing is tried.
fn fail(rt: &impl Eprint, why: &str) -> io::Result<bool> {
    eprintln!(rt; "syntect_bench: {why}")?;
    Ok(false)
}

/// Edits a text, and prints what was seen.
fn try_text(
    rt: &(impl Print + Eprint + AllocGlobal),
    content: &str,
    given: (&SyntaxReference, &SyntaxSet, &Theme),
    (edits, seed): (u32, u32),
) -> io::Result<bool> {
    match try_edits(rt.alloc(), content, given, edits, u64::from(seed)) {
        Some(seen) => print_seen(rt, seen),
        None => fail(rt, "no memory"),
    }
}

/// Does so many edits that look random on the text of a file, from a seed, and compares the buffer
/// with a new highlighter that is given all lines after each hundredth. Prints how many lines
/// differed, and answers whether none did.
pub fn try_file(
    rt: &(impl Print + Eprint + AllocGlobal + Files),
    (folder, theme, path): (&str, &str, &str),
    edits: u32,
    seed: u32,
) -> io::Result<bool> {
    let Some(given) = given_of(rt, rt.alloc(), folder, theme) else {
        return fail(rt, UNLOADED);
    };
    let Some(syntax) = syntax_of(rt, rt.alloc(), &given.set, path) else {
        return fail(rt, UNKNOWN);
    };
    let content = fs::read_to_string(rt, path)?;
    let given = (syntax, &given.set, &given.theme);
    try_text(rt, content.as_str(), given, (edits, seed))
}

/// Prints what was seen. Answers whether no line differed.
fn print_seen(rt: &(impl Print + Eprint), seen: Seen) -> io::Result<bool> {
    let Seen {
        edits,
        compared,
        different,
        read,
        lines,
    } = seen;
    println!(rt; "{edits} edits, {compared} comparisons, {different} lines differ")?;
    eprintln!(rt; "{lines} lines at the end, {read} were read again")?;
    Ok(different == 0)
}

/// Prints how long edits of a line of a file's text take, so many rounds, compared with a new
/// highlighter that is given all lines.
pub fn time_edits_of(
    rt: &(impl Print + Eprint + AllocGlobal + Files + Clock),
    (folder, theme, path): (&str, &str, &str),
    place: u32,
    rounds: u32,
) -> io::Result<bool> {
    let Some(given) = given_of(rt, rt.alloc(), folder, theme) else {
        return fail(rt, UNLOADED);
    };
    let Some(syntax) = syntax_of(rt, rt.alloc(), &given.set, path) else {
        return fail(rt, UNKNOWN);
    };
    let content = fs::read_to_string(rt, path)?;
    let given = (syntax, &given.set, &given.theme);
    time_edits(rt, content.as_str(), given, place as usize, rounds)
}

/// Times edits of one line of a text: one blank more at its start and again without, and the line
/// once more and taken out.
fn time_edits(
    rt: &(impl Print + Eprint + AllocGlobal + Clock),
    content: &str,
    given: (&SyntaxReference, &SyntaxSet, &Theme),
    place: usize,
    rounds: u32,
) -> io::Result<bool> {
    let lines: Vec<&str> = LinesWithEndings::from(content).collect(rt.alloc())?;
    time_lines(rt, lines.as_slice(), given, place, rounds)
}

/// Times edits of one of these lines: one blank more at its start and again without, and the line
/// once more and taken out.
fn time_lines(
    rt: &(impl Print + Eprint + AllocGlobal + Clock),
    lines: &[&str],
    (syntax, set, theme): (&SyntaxReference, &SyntaxSet, &Theme),
    place: usize,
    rounds: u32,
) -> io::Result<bool> {
    let Ok(mut buffer) = LineBuffer::new(rt.alloc(), syntax, set, theme) else {
        return fail(rt, "no text begins in this syntax");
    };
    time_filling(rt, &mut buffer, lines)?;
    let own = lines.get(place).copied().unwrap_or("");
    time_pairs(rt, &mut buffer, place, own, rounds)?;
    time_fresh(rt, lines, (syntax, set, theme))?;
    Ok(true)
}

/// Times edits of a buffer's line, which has this text.
fn time_pairs(
    rt: &(impl Print + AllocGlobal + Clock),
    buffer: &mut LineBuffer<'_>,
    place: usize,
    own: &str,
    rounds: u32,
) -> io::Result<()> {
    let other = format!(in rt.alloc(); " {own}")?;
    let (set, back) = (Edit::Set(other.as_str()), Edit::Set(own));
    time_pair(rt, buffer, place, ("set", set), ("set again", back), rounds)?;
    let (insert, back) = (Edit::Insert(own), Edit::Remove);
    time_pair(
        rt,
        buffer,
        place,
        ("insert", insert),
        ("remove", back),
        rounds,
    )
}
