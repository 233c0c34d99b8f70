//! Buffers that read their lines within limits.
use crate::below::easy::easy::HighlightLines;
use crate::below::easy::highlighting::Theme;
use crate::below::easy::parsing::{Limits, LineLimit, SyntaxSet};
use crate::found::{equal, holds};
use crate::within::{LETTERS, MATCHES, SHORT, main_of, set_of, syntax_of};
use std::alloc::Global;
use std::process::Abort;
use syntect_buffer::answer::LineAnswer;
use syntect_buffer::buffer::LineBuffer;

/// A line that takes three turns: into the first context, for the match, and to its end.
const MATCH: &str = "z\n";

fn text(rt: &impl Abort, alloc: Global, line: &str) -> String {
    String::from_str(alloc, line).expect(rt, "memory")
}

/// Puts lines last.
fn push_lines(rt: &impl Abort, alloc: Global, buffer: &mut LineBuffer<'_>, lines: &[&str]) {
    for line in lines {
        let count = buffer.len();
        let number = buffer.insert_line(alloc, count, text(rt, alloc, *line));
        equal(rt, number.ok(), Some(1));
    }
}

/// Puts a line in place of the first one.
fn put_first(rt: &impl Abort, alloc: Global, buffer: &mut LineBuffer<'_>, line: &str) {
    let count = buffer.len();
    assert!(rt; 0 < count);
    let number = buffer.set_line(alloc, 0, text(rt, alloc, line));
    holds(rt, number.is_ok());
}

/// The limit that the line at a place reached.
fn limit_at(rt: &impl Abort, buffer: &LineBuffer<'_>, place: usize) -> Option<LineLimit> {
    let count = buffer.len();
    assert!(rt; place < count);
    match buffer.answer(place) {
        LineAnswer::LimitReached(limit) => Some(*limit),
        _ => None,
    }
}

/// The line at a place has the pieces that a new highlighter gives it as its first line.
fn has_pieces(
    rt: &impl Abort,
    alloc: Global,
    set: &SyntaxSet,
    buffer: &LineBuffer<'_>,
    place: usize,
) {
    let theme = Theme::default(alloc);
    let new = HighlightLines::new(alloc, syntax_of(rt, set), &theme);
    let mut lines = new.expect(rt, "a highlighter");
    let count = buffer.len();
    assert!(rt; place < count);
    let read = lines.highlight_line(alloc, buffer.line(place), set);
    let pieces = read.expect(rt, "pieces");
    let LineAnswer::Pieces(ranges) = buffer.answer(place) else {
        holds(rt, false);
        return;
    };
    equal(rt, ranges.len(), pieces.len());
    for ((style, range), (wanted, piece)) in ranges.iter().zip(pieces.iter()) {
        holds(rt, *style == *wanted);
        equal(rt, range.end.saturating_sub(range.start), piece.len());
    }
}

/// A line of a buffer reaches the limit; the next line, and a short one in its place, are read as
/// the first one is.
fn lines_reach(rt: &impl Abort, alloc: Global, limits: Limits, line: &str, limit: LineLimit) {
    let set = set_of(rt, alloc);
    let theme = Theme::default(alloc);
    let syntax = syntax_of(rt, &set);
    let made = LineBuffer::new_within(alloc, syntax, &set, &theme, limits);
    let mut buffer = made.expect(rt, "a buffer");
    push_lines(rt, alloc, &mut buffer, &[line, MATCH]);
    equal(rt, limit_at(rt, &buffer, 0), Some(limit));
    has_pieces(rt, alloc, &set, &buffer, 1);
    put_first(rt, alloc, &mut buffer, MATCH);
    has_pieces(rt, alloc, &set, &buffer, 0);
    put_first(rt, alloc, &mut buffer, line);
    equal(rt, limit_at(rt, &buffer, 0), Some(limit));
    has_pieces(rt, alloc, &set, &buffer, 1);
}

#[test]
fn a_line_of_too_many_steps_in_a_buffer(rt: HostRuntime) {
    let limits = Limits {
        steps: 2000,
        ..Limits::default()
    };
    let limit = LineLimit::Steps {
        context: main_of(&rt, &set_of(&rt, rt.alloc())),
        index: 1,
        place: 2,
    };
    lines_reach(&rt, rt.alloc(), limits, LETTERS, limit);
}

#[test]
fn a_line_of_too_many_turns_in_a_buffer(rt: HostRuntime) {
    let limits = Limits {
        turns: 3,
        ..Limits::default()
    };
    let limit = LineLimit::Turns { place: 2 };
    lines_reach(&rt, rt.alloc(), limits, MATCHES, limit);
}

/// A buffer without limits reads the line that takes too many turns for the other one.
#[test]
fn a_buffer_without_limits(rt: HostRuntime) {
    let alloc = rt.alloc();
    let set = set_of(&rt, alloc);
    let theme = Theme::default(alloc);
    let made = LineBuffer::new(alloc, syntax_of(&rt, &set), &set, &theme);
    let mut buffer = made.expect(&rt, "a buffer");
    push_lines(&rt, alloc, &mut buffer, &[MATCHES, SHORT]);
    equal(&rt, limit_at(&rt, &buffer, 0), None);
    has_pieces(&rt, alloc, &set, &buffer, 0);
    equal(&rt, limit_at(&rt, &buffer, 1), None);
}
