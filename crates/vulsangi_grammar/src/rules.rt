//! What is looked for in grammars, each with the number that it has in reports.

/// How grave a finding is.
#[derive(Clone, Copy, Debug, PartialEq, Eq)]
pub enum Grade {
    /// The file isn't loaded.
    Fault,
    /// The grammar does something else than it seems to say.
    Warning,
    /// Something that may be meant.
    Note,
}

/// One thing that is looked for.
#[derive(Clone, Copy)]
pub struct Rule {
    /// Its number, as reports have it.
    pub number: &'static str,
    pub grade: Grade,
    /// What is wrong, in a few words.
    pub title: &'static str,
    /// What that means, with an example and what helps.
    pub text: &'static str,
}

impl Grade {
    /// Its name in reports of text.
    pub fn name(self) -> &'static str {
        match self {
            Grade::Fault => "error",
            Grade::Warning => "warning",
            Grade::Note => "note",
        }
    }
}

pub const NOT_LOADED: Rule = Rule {
    number: "V001",
    grade: Grade::Fault,
    title: "the grammar can't be loaded",
    text: "A grammar is a file `.sublime-syntax` in YAML with a `scope` and a context `main`. Loading \
refuses it as a whole where one part of it is refused: text that is no YAML, a key that must be \
there and isn't, a value of another kind, a pattern that can't be read, a scope of more than eight \
parts.

    - match: '(a'        # the bracket isn't closed

The message says what was met. Of a pattern the caret is below the place in it up to which it can \
be read. docs/DIFFERENCES.md lists what this library doesn't read of patterns.",
};

pub const NO_THEME: Rule = Rule {
    number: "V002",
    grade: Grade::Fault,
    title: "the theme can't be loaded",
    text: "A theme is JSON, as docs/THEMES.md has it, in a file `.tmTheme`, or `.json` in a folder \
`themes`. A property list in XML, which other editors call `.tmTheme` too, is converted first:

    vulsangi convert Monokai.tmTheme -o monokai.json",
};

pub const NOT_READ: Rule = Rule {
    number: "V003",
    grade: Grade::Fault,
    title: "the file can't be read",
    text: "The file is missing, may not be read, or isn't UTF-8. Save it as UTF-8.",
};

pub const NOTHING_THERE: Rule = Rule {
    number: "V004",
    grade: Grade::Fault,
    title: "nothing to look through",
    text: "No file is a grammar (`.sublime-syntax`) or a theme (`.tmTheme`, or `.json` in a folder `themes`).",
};

pub const UNKNOWN_KEY: Rule = Rule {
    number: "V101",
    grade: Grade::Warning,
    title: "unknown key",
    text: "The key has no meaning here, and what stands at it is passed over without a word. Mostly \
it is misspelt; the message names the nearest key that has a meaning.

    - macth: 'x'         # match
      scpoe: keyword.x   # scope",
};

pub const NOT_HERE: Rule = Rule {
    number: "V102",
    grade: Grade::Warning,
    title: "a key that this library doesn't know",
    text: "Sublime Text knows this key, and this library, which reads what syntect 5.3 reads, passes \
over it: `version`, `extends`, `branch`, `branch_point`, `fail`, `meta_prepend`, `meta_append`, \
`apply_prototype`. What depends on it is coloured otherwise than in the editor. There is no \
remedy but to write the grammar without it.",
};

pub const OTHER_KIND: Rule = Rule {
    number: "V103",
    grade: Grade::Warning,
    title: "a value of another kind",
    text: "The value isn't what its key wants, and it is passed over without a word or refused.

    meta_include_prototype: 'no'     # wants true or false
    file_extensions: note            # wants a list: [note]
    variables: {count: 3}            # wants a text: '3'
    pop: 2                           # one context is left, whatever stands there
    captures: {name: keyword.x}      # wants numbers of groups",
};

pub const NO_VARIABLE: Rule = Rule {
    number: "V104",
    grade: Grade::Warning,
    title: "the variable isn't defined",
    text: "A pattern names a variable that `variables` doesn't have. Nothing is put in its place.

    variables:
      ident: '[a-z]+'
    contexts:
      main:
        - match: '{{idnet}}'         # ident",
};

pub const UNUSED_VARIABLE: Rule = Rule {
    number: "V105",
    grade: Grade::Note,
    title: "the variable is used nowhere",
    text: "No pattern, and no variable that a pattern uses, names this variable. Take it away, or use it.",
};

pub const VARIABLE_CIRCLE: Rule = Rule {
    number: "V106",
    grade: Grade::Warning,
    title: "the variable leads back to itself",
    text: "The variable names itself, perhaps by way of others. The circle is cut where it closes, and \
nothing is put in there.

    variables:
      a: 'x{{b}}'
      b: 'y{{a}}'",
};

pub const NO_FIRST_LINE: Rule = Rule {
    number: "V107",
    grade: Grade::Warning,
    title: "`first_line_match` is no pattern",
    text: "The text can't be read as a pattern. The grammar is loaded all the same, and no first line \
leads to it.",
};

pub const NO_GROUP: Rule = Rule {
    number: "V108",
    grade: Grade::Warning,
    title: "the pattern has no such group",
    text: "`captures` names the number of a group that the pattern doesn't have, or that stands in a \
lookahead or a lookbehind, and the scope is never given.

    - match: '(a)(b)'
      captures:
        3: keyword.x                 # the groups are 1 and 2",
};

pub const LEADS_NOWHERE: Rule = Rule {
    number: "V109",
    grade: Grade::Warning,
    title: "the reference leads nowhere",
    text: "An `include`, a `push`, a `set` or an `embed` names a context or a grammar that isn't there. \
An `include` of it includes nothing; a match that would open it is a refusal of the line. Of \
another grammar all that is known are the files that are looked through: name its folder too.",
};

pub const NOT_REACHED: Rule = Rule {
    number: "V110",
    grade: Grade::Note,
    title: "nothing reaches this context",
    text: "No way of references leads from `main` or `prototype` to this context, and no other grammar \
that is looked through names it. Take it away, or name it where it was meant.",
};

pub const SAME_AGAIN: Rule = Rule {
    number: "V111",
    grade: Grade::Warning,
    title: "a pattern before it always wins",
    text: "Of the patterns that match at a place the first one wins. What this context asks earlier, by \
itself, by includes and by the prototype, takes each place where this pattern, or all that this \
include brings, can begin: the same pattern, one that is its front, or ones that match wherever \
one of certain characters stands. So this never matches, and what it says is never done. Put it \
before those.

    - match: 'let'
    - match: 'lets'                  # put it before `let`, or write '\\blet\\b'
    - match: '[=<>]'
    - match: '==|<='                 # put it before `[=<>]`

A match that reads nothing counts as one that takes its place where it opens a context, or where \
it leaves one that matches which read something alone open. Told is what holds in every context \
that includes this one; where as many contexts are open as may be, no match opens a further one. \
Not told is what takes more than the next character to see, as that `\\bif\\b` takes what \
`\\bif(?= x)` would begin with.",
};

pub const DOES_NOTHING: Rule = Rule {
    number: "V112",
    grade: Grade::Warning,
    title: "the match takes nothing and does nothing",
    text: "The pattern is an anchor or looks ahead or behind, so that its match has no characters, and \
there is no `push`, `set`, `pop` or `embed`. Its scope is over nothing, and reading passes over it.

    - match: '(?=\\))'               # pop: true is missing
      scope: punctuation.end",
};

pub const GOES_ROUND: Rule = Rule {
    number: "V113",
    grade: Grade::Warning,
    title: "contexts open one another without reading",
    text: "A match without characters opens a context in which a match without characters opens the \
next, and so on, back to the first. Reading stops the circle after some turns and goes on one \
character farther.

    main:
      - match: ''
        push: other
    other:
      - match: ''
        push: main",
};

pub const NEVER_MATCHES: Rule = Rule {
    number: "V114",
    grade: Grade::Warning,
    title: "nothing matches this pattern",
    text: "Two parts of the pattern can't both hold, whatever the text: what one of them reads or wants \
beside it isn't what the other one wants there. An anchor stands where it can't hold, a lookahead \
wants another character than the one that is read next, or a lookbehind another one than was read.

    - match: 'a^b'                   # no line begins after `a`
    - match: '(?=[a-z])\\d+'         # no digit is a letter
    - match: 'foo\\b[a-z]'          # no word ends where it goes on
    - match: '(?<=x)^'               # nothing stands before a line

Told is what the characters at both sides of one place say. `(?!)` by itself is taken as meant, and \
patterns of which a part is put in when their context is opened are not looked at.",
};

pub const NO_LINE_BEGINS: Rule = Rule {
    number: "V115",
    grade: Grade::Warning,
    title: "no line begins where this is asked",
    text: "The pattern begins with `^` or `\\A`, and no context that asks it is ever asked where a line \
begins: each match that opens the context reads a part of a line, the context is always left \
where the line ends, and what it opens gives back to it in the midst of a line. Leave the anchor \
out, or let the context stay open over lines.

    main:
      - match: '#if'
        push: condition
    condition:
      - match: '$'
        pop: true
      - match: '^\\s*defined'       # the line began before `#if`
        scope: keyword.x

Told of what the grammar itself does. A context isn't told of that another grammar names, or that \
patterns of a `with_prototype` are asked in. Other places at which a pattern can't begin, as one \
that looks behind for what never stands before its context, are not looked for.",
};

pub const COSTLY: Rule = Rule {
    number: "V201",
    grade: Grade::Note,
    title: "searches of this pattern aren't linear",
    text: "Most patterns are searched in time proportional to the line. This one isn't: it refers back \
to a group (`\\1`), holds a group in a lookbehind, looks ahead with groups in a loop, or is too large \
with its counted loops written out. There are lines that make it costly; within limits such a line \
is shown plain. docs/BOUND.md says more.

The message names the part, at which the caret points where the pattern is written in one line, and \
a text that costs: of some, made of the characters that the pattern has, the one of which twice as \
much takes more than three times as many steps. Where there is none among those, that is told.",
};

pub const ODD_SCOPE: Rule = Rule {
    number: "V202",
    grade: Grade::Note,
    title: "a scope outside the convention",
    text: "Themes know scopes that begin with one of these words: comment, constant, entity, invalid, \
keyword, markup, meta, punctuation, source, storage, string, support, text, variable. What has \
only another scope has no colour.

    scope: keywrod.control           # keyword.control",
};

pub const LONG_PATTERN: Rule = Rule {
    number: "V203",
    grade: Grade::Note,
    title: "a long pattern",
    text: "With its variables put in, the pattern has more than 8192 bytes. It is compiled at its first \
search, which takes time and memory in proportion. A list of words may be shorter where words that \
begin alike share that.",
};

pub const MANY_PATTERNS: Rule = Rule {
    number: "V204",
    grade: Grade::Note,
    title: "a context of many patterns",
    text: "With all that it includes the context has more than 1000 patterns, most of them from \
includes in includes, or of the same ones by several ways. Each is a row to look at for each place \
of a line.",
};

pub const LEAVES_MAIN: Rule = Rule {
    number: "V205",
    grade: Grade::Note,
    title: "`main` is left",
    text: "A pattern of `main`, or one that it includes, has `pop`. In a file of this grammar nothing is \
below `main` but `__start`, which opens it again, and reading begins in it anew. It is right where \
other grammars open this one and expect it to leave.",
};

pub const CLEARS: Rule = Rule {
    number: "V206",
    grade: Grade::Note,
    title: "the context clears scopes",
    text: "`clear_scopes` takes scopes away while the context is open, and they come back when it is \
left. The proof that each colour is that of the theme's best rule holds for lines in which they \
come back in the order in which they went; docs/PROVED.md says what is known of the others.",
};

pub const NO_COLOUR: Rule = Rule {
    number: "V207",
    grade: Grade::Note,
    title: "a scope that no theme at hand knows",
    text: "Of the themes that are looked through none has a rule for this scope, so that its text has the \
colour of what it stands in. Scopes that begin with meta, source, text or punctuation are mostly \
without a rule, and are not told. Name the folder of your themes together with the grammars:

    vulsangi check mine themes",
};

pub const OUT_OF_ORDER: Rule = Rule {
    number: "V208",
    grade: Grade::Note,
    title: "scopes are cleared out of order",
    text: "A `set` leaves a context that has `clear_scopes`, or a context that has it is opened after the \
first one of a `push`, a `set` or an `embed`. Then scopes come back in another order than that in \
which they were taken away, and what the editors show there differs.

    - match: x
      push: [one, clears]            # push: clears

The proof that each colour is that of the theme's best rule doesn't speak of lines in which such a \
match is picked.",
};

pub const OUT_OF_PROOF: Rule = Rule {
    number: "V209",
    grade: Grade::Note,
    title: "lines may be outside of the proof of colours",
    text: "The proof that each colour is that of the theme's best rule is about lines in which scopes are \
cleared in order. In this grammar, or in one that it names, perhaps by way of others, a match \
clears them out of order, as V208 tells there; or a `with_prototype` has a `set`, which may leave a \
context that clears scopes, where one of these grammars has such. All lines of grammars of which \
this isn't told are in the proof, if all grammars that they name are looked through.",
};

pub const MANY_BYTES: Rule = Rule {
    number: "V210",
    grade: Grade::Note,
    title: "large patterns together",
    text: "With their variables put in, the patterns of the grammar have more than 65536 bytes together. \
They are kept as long as the grammar is, and compiled when they are first searched. Where many \
patterns use a long variable, a context of their own, which they open, may have it once.",
};

pub const THEME_KEY: Rule = Rule {
    number: "V301",
    grade: Grade::Warning,
    title: "unknown key of a theme",
    text: "The key has no meaning in a theme, in a rule or in what a rule sets, and what stands at it is \
passed over. docs/THEMES.md lists the keys.

    { \"scopes\": \"keyword\", ..      # scope",
};

pub const NOT_A_COLOUR: Rule = Rule {
    number: "V302",
    grade: Grade::Warning,
    title: "no colour",
    text: "A colour is `#` and six or eight hexadecimal digits, of which the last two say how much of it \
covers what is below. Of three digits each is a whole part, from 0 to 15 of 255, so that `#fff` is \
nearly black; and what is no colour at all is passed over.",
};

pub const NOT_A_FONT: Rule = Rule {
    number: "V303",
    grade: Grade::Warning,
    title: "no font",
    text: "The words of a font are bold, italic and underline; normal and regular stand for none of these. \
Where one word is another, none of them counts.",
};

pub const SCOPE_LIST: Rule = Rule {
    number: "V304",
    grade: Grade::Warning,
    title: "`scope` is no text",
    text: "The selectors of a rule stand in one text, with commas between them. A list, as other editors \
take it, is passed over, and the rule with it.

    \"scope\": \"keyword, storage\"",
};

/// All of them, in the order of their numbers.
pub const RULES: &[Rule] = &[
    NOT_LOADED,
    NO_THEME,
    NOT_READ,
    NOTHING_THERE,
    UNKNOWN_KEY,
    NOT_HERE,
    OTHER_KIND,
    NO_VARIABLE,
    UNUSED_VARIABLE,
    VARIABLE_CIRCLE,
    NO_FIRST_LINE,
    NO_GROUP,
    LEADS_NOWHERE,
    NOT_REACHED,
    SAME_AGAIN,
    DOES_NOTHING,
    GOES_ROUND,
    NEVER_MATCHES,
    NO_LINE_BEGINS,
    COSTLY,
    ODD_SCOPE,
    LONG_PATTERN,
    MANY_PATTERNS,
    LEAVES_MAIN,
    CLEARS,
    NO_COLOUR,
    OUT_OF_ORDER,
    OUT_OF_PROOF,
    MANY_BYTES,
    THEME_KEY,
    NOT_A_COLOUR,
    NOT_A_FONT,
    SCOPE_LIST,
];

/// The rule of a number; `v101` and `101` will do.
pub fn rule_of(number: &str) -> Option<&'static Rule> {
    let digits = number.trim_start_matches(['V', 'v']);
    for rule in RULES {
        if rule.number.trim_start_matches('V') == digits {
            return Some(rule);
        }
    }
    None
}
