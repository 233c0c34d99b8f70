//! What sets answer.
use crate::below::metadata::scoped::ScopedMetadata;
use crate::given::{Asked, Entry, ask, is_text};
use std::alloc::{AllocError, Global};
use std::process::Abort;

/// Questions on lines: of a line that isn't looked at, of less and of more, of the next line, and
/// of no more there.
#[derive(Clone, Copy)]
enum Question {
    Unindented,
    Decrease,
    Increase,
    Bracket,
    NextLine,
}

fn answer(scoped: &ScopedMetadata<'_>, question: Question, line: &str) -> Result<bool, AllocError> {
    match question {
        Question::Unindented => scoped.unindented_line(line),
        Question::Decrease => scoped.decrease_indent(line),
        Question::Increase => scoped.increase_indent(line),
        Question::Bracket => scoped.bracket_increase(line),
        Question::NextLine => scoped.disable_indent_next_line(line),
    }
}

/// Whether sets answer all questions so.
fn answers(scoped: &ScopedMetadata<'_>, rows: &[(Question, &'static str, bool)]) -> bool {
    for (question, line, wanted) in rows {
        match answer(scoped, *question, line) {
            Ok(yes) if yes == *wanted => {}
            _other => return false,
        }
    }
    true
}

/// The metadata of entries, asked for a scope, and a copy of it, answer so.
fn answered(
    rt: &impl Abort,
    alloc: Global,
    entries: &[Entry],
    scope: &str,
    rows: &[(Question, &'static str, bool)],
) {
    let asked = ask(rt, alloc, entries, scope);
    let scoped = asked.scoped(rt);
    let copy = scoped.clone().expect(rt, "memory");
    assert!(rt; answers(&scoped, rows) & answers(&copy, rows), "{scope}");
}

/// Entries of two scopes, of which the greater one has two patterns.
const TWO_SCOPES: [Entry; 2] = [
    (
        "1",
        "source.a",
        "{\"unIndentedLinePattern\":\"^x\",\"decreaseIndentPattern\":\"b\"}",
    ),
    (
        "2",
        "source",
        "{\"decreaseIndentPattern\":\"c\",\"bracketIndentNextLinePattern\":\"d\",\"disableIndentNextLinePattern\":\"e\"}",
    ),
];

/// What they answer.
const OF_TWO_SCOPES: [(Question, &str, bool); 8] = [
    (Question::Unindented, "xy", true),
    (Question::Decrease, "b", true),
    (Question::Decrease, "ab", false),
    (Question::Decrease, "c", false),
    (Question::Bracket, "d", true),
    (Question::Bracket, "x", false),
    (Question::NextLine, "e", true),
    (Question::Increase, "x", false),
];

#[test]
fn the_first_pattern_answers(rt: HostRuntime) {
    answered(&rt, rt.alloc(), &TWO_SCOPES, "source.a", &OF_TWO_SCOPES);
}

/// The entry of a language with braces.
const BRACES: [Entry; 1] = [(
    "1",
    "source.rust",
    "{\"increaseIndentPattern\":\"^.*\\\\{[^}\\\"']*$\",\"decreaseIndentPattern\":\"^\\\\s*\\\\}\"}",
)];

/// What it answers.
const OF_BRACES: [(Question, &str, bool); 6] = [
    (Question::Increase, "struct This {", true),
    (Question::Increase, "struct This }", false),
    (Question::Decrease, "     }", true),
    (Question::Decrease, "struct This {", false),
    (Question::Decrease, "struct This {}", false),
    (Question::Increase, "struct This {}", false),
];

#[test]
fn indent_of_braces(rt: HostRuntime) {
    answered(&rt, rt.alloc(), &BRACES, "source.rust", &OF_BRACES);
}

#[test]
fn no_set_matches(rt: HostRuntime) {
    let entries = [("1", "source.a", "{\"unIndentedLinePattern\":\"^x\"}")];
    let rows = [(Question::Unindented, "xy", false)];
    answered(&rt, rt.alloc(), &entries, "text", &rows);
}

/// Whether so many sets match, and comments have these marks.
fn has_marks(
    scoped: &ScopedMetadata<'_>,
    count: usize,
    line: Option<&str>,
    block: Option<(&str, &str)>,
) -> bool {
    (scoped.items.len() == count)
        & (scoped.is_empty() == (count == 0))
        & is_text(scoped.line_comment(), line)
        & (scoped.block_comment() == block)
}

/// How many sets match a scope, and what marks comments there: in a line, and around a block.
type Marks = (
    usize,
    Option<&'static str>,
    Option<(&'static str, &'static str)>,
);

/// The metadata of entries, asked for a scope, has these marks.
fn marked(rt: &impl Abort, alloc: Global, entries: &[Entry], scope: &str, marks: Marks) {
    let asked = ask(rt, alloc, entries, scope);
    let scoped = asked.scoped(rt);
    assert!(rt; has_marks(&scoped, marks.0, marks.1, marks.2), "{scope}");
}

const ONE: &str = "{\"shellVariables\":[{\"name\":\"TM_COMMENT_START\",\"value\":\"1\"}]}";

const TWO: &str = "{\"shellVariables\":[{\"name\":\"TM_COMMENT_START\",\"value\":\"2\"}]}";

/// The variables of three kinds of comment.
const COMMENTS: &str =
    "{\"shellVariables\":[{\"name\":\"TM_COMMENT_START\",\"value\":\"-- \"},{\"name\":\"TM_COMMENT_START_2\",\"value\":\"# \"},{\"name\":\"TM_COMMENT_START_3\",\"value\":\"(*\"},{\"name\":\"TM_COMMENT_END_3\",\"value\":\"*)\"},{\"name\":\"TM_COMMENT_DISABLE_INDENT_3\",\"value\":\"yes\"}]}";

#[test]
fn equal_scores_in_order_of_scope_texts(rt: HostRuntime) {
    let entries = [("1", "a, b", ONE), ("2", "a", TWO)];
    marked(&rt, rt.alloc(), &entries, "a", (2, Some("2"), None));
}

#[test]
fn the_greater_score_comes_first(rt: HostRuntime) {
    let entries = [("1", "a", ONE), ("2", "a.b", TWO)];
    marked(&rt, rt.alloc(), &entries, "a.b", (2, Some("2"), None));
}

#[test]
fn marks_of_comments(rt: HostRuntime) {
    let entries = [("1", "source.a", COMMENTS)];
    let marks = (1, Some("-- "), Some(("(*", "*)")));
    marked(&rt, rt.alloc(), &entries, "source.a", marks);
    marked(&rt, rt.alloc(), &entries, "text", (0, None, None));
}
