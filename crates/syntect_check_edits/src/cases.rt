//! The edits that are shown.
use crate::given::Edit;

/// A text of lines that ends with the word that it began with.
const DOCUMENT: &str =
    "name: T\nscope: source.t\ncontexts:\n  main:\n    - match: <<(\\w+)\n      push: doc\n  doc:\n    - meta_scope: string.doc\n    - match: ^\\1$\n      pop: true\n";

/// A context that is not there.
const LACKING: &str =
    "name: T\nscope: source.t\ncontexts:\n  main:\n    - match: x\n      push: scope:source.none\n";

/// An edit of a text.
pub struct Case {
    pub name: &'static str,
    pub grammar: &'static str,
    /// The lines of the text, and how often they stand in it.
    pub lines: &'static [&'static str],
    pub times: u32,
    pub edit: Edit<'static>,
}

const LINES: &[&str] = &["<<EOT\n", "x\n", "EOT\n", "y\n"];

/// Edits of short texts.
pub const CASES: [Case; 6] = [
    Case {
        name: "one line inside a string",
        grammar: DOCUMENT,
        lines: LINES,
        times: 1,
        edit: Edit::Set(1, "z\n"),
    },
    Case {
        name: "a string that no longer begins",
        grammar: DOCUMENT,
        lines: LINES,
        times: 1,
        edit: Edit::Set(0, "a\n"),
    },
    Case {
        name: "a string that begins otherwise",
        grammar: DOCUMENT,
        lines: LINES,
        times: 1,
        edit: Edit::Set(0, "<<EOT;\n"),
    },
    Case {
        name: "a line before the first",
        grammar: DOCUMENT,
        lines: LINES,
        times: 1,
        edit: Edit::Insert(0, "<<y\n"),
    },
    Case {
        name: "the first line taken out",
        grammar: DOCUMENT,
        lines: LINES,
        times: 1,
        edit: Edit::Remove(0),
    },
    Case {
        name: "a refused line",
        grammar: LACKING,
        lines: &["az\n", "ay\n"],
        times: 1,
        edit: Edit::Set(0, "ax\n"),
    },
];

/// A text of as many lines as a block of the buffer has.
pub const LONG: &[Case] = &[Case {
    name: "a line more than a block has",
    grammar: DOCUMENT,
    lines: LINES,
    times: 128,
    edit: Edit::Insert(512, "z\n"),
}];
