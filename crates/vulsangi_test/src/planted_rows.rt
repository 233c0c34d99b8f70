//! Grammars with a fault each, and where it stands: by the number of the finding, its line and its
//! column. Of 0 and 0 no place is told.

/// What is to be found: a number, a line and a column.
pub type Told = (&'static str, usize, usize);

/// Themes, and what is to be found in them.
pub const THEMES: &[(&str, &[Told])] = &[
    (
        "{\"name\": \"A\", \"settings\": [
  {\"settings\": {\"background\": \"#ffffff\", \"caret\": \"#000000\"}},
  {\"scope\": \"keyword, storage\", \"settings\": {\"fontStyle\": \"bold italic\"}}
]}",
        &[],
    ),
    // no JSON: a comma too many
    (
        "{\"name\": \"A\",
  \"settings\": [],
}",
        &[("V002", 3, 1)],
    ),
    ("<?xml version=\"1.0\"?>", &[("V002", 0, 0)]),
    (
        "{\"setings\": [], \"settings\": [
  {\"scopes\": \"a\", \"settings\": {}},
  {\"scope\": \"b\", \"settings\": {\"foregroud\": \"#000000\"}}
]}",
        &[("V301", 1, 2), ("V301", 2, 4), ("V301", 3, 31)],
    ),
    (
        "{\"settings\": [
  {\"scope\": \"b\", \"settings\": {\"foreground\": \"blue\"}},
  {\"scope\": \"c\", \"settings\": {\"background\": \"#abc\", \"fontStyle\": \"blod\"}},
  {\"scope\": [\"d\", \"e\"], \"settings\": {}}
]}",
        &[
            ("V302", 2, 45),
            ("V302", 3, 45),
            ("V303", 3, 66),
            ("V304", 4, 14),
        ],
    ),
];

/// Grammars, and what is to be found in them.
pub const ROWS: &[(&str, &[Told])] = &[
    // nothing
    (
        "name: A
scope: source.a
contexts:
  main:
    - match: '\\b[a-z]+\\b'
      scope: keyword.a
    - match: '\"'
      push: string
  string:
    - meta_scope: string.a
    - match: '\"'
      pop: true
",
        &[],
    ),
    // no YAML: a list that isn't closed
    (
        "name: A
scope: source.a
contexts:
  main: [
",
        &[("V001", 5, 1)],
    ),
    // a pattern that ends too early
    (
        "name: A
scope: source.a
contexts:
  main:
    - match: 'a'
    - match: 'x(y'
",
        &[("V001", 6, 18)],
    ),
    // a bracket too many
    (
        "name: A
scope: source.a
contexts:
  main:
    - match: xy)z
",
        &[("V001", 5, 16)],
    ),
    // in a context inside of another
    (
        "name: A
scope: source.a
contexts:
  main:
    - match: a
      push:
        - match: b
        - match: '*c'
          pop: true
",
        &[("V001", 8, 19)],
    ),
    // an item without a pattern
    (
        "name: A
scope: source.a
contexts:
  main:
    - scope: keyword.a
",
        &[("V001", 5, 7)],
    ),
    // no main
    (
        "name: A
scope: source.a
contexts:
  other:
    - match: a
",
        &[("V001", 0, 0)],
    ),
    // misspelt keys
    (
        "name: A
scope: source.a
file_extension: [a]
contexts:
  main:
    - match: a
      scpoe: keyword.a
    - match: b
      captres:
        1: keyword.b
",
        &[("V101", 3, 1), ("V101", 7, 7), ("V101", 9, 7)],
    ),
    // keys of other readers
    (
        "name: A
scope: source.a
contexts:
  main:
    - match: a
      branch_point: b
      branch: [c, d]
",
        &[("V102", 6, 7), ("V102", 7, 7)],
    ),
    // what is passed over here: one context is left, and groups have numbers
    (
        "name: A
scope: source.a
version: 2
contexts:
  main:
    - match: a
      push:
        - match: b
          pop: 2
        - match: (?<c>c)
          captures: {c: keyword.c}
          pop: true
",
        &[("V102", 3, 1), ("V103", 9, 11), ("V103", 11, 11)],
    ),
    // a tab
    (
        "name: A
scope: source.a
contexts:
  main:
    - match: a
  \tscope: keyword.a
",
        &[("V001", 6, 3)],
    ),
    // a variable that is no pattern, told once
    (
        "name: A
scope: source.a
variables:
  word: '[a-z'
contexts:
  main:
    - match: '{{word}}'
    - match: 'a{{word}}'
",
        &[("V001", 4, 14)],
    ),
    // values of another kind
    (
        "name: A
scope: source.a
file_extensions: a
hidden: 'no'
contexts:
  main:
    - match: a
      captures: keyword.a
",
        &[("V103", 3, 1), ("V103", 4, 1), ("V103", 8, 7)],
    ),
    // numbers where texts are wanted
    (
        "name: A
scope: source.a
file_extensions: [a, 1]
variables:
  count: 3
  number: '3'
contexts:
  main:
    - match: 'x{{count}}{{number}}'
",
        &[("V103", 3, 1), ("V103", 5, 3)],
    ),
    // variables
    (
        "name: A
scope: source.a
variables:
  ident: '[a-z]+'
  unused: 'x'
  left: 'l{{right}}'
  right: 'r{{left}}'
contexts:
  main:
    - match: 'x{{idnet}}'
    - match: '{{ident}}{{left}}'
",
        &[
            ("V105", 5, 3),
            ("V106", 6, 3),
            ("V106", 7, 3),
            ("V104", 10, 7),
        ],
    ),
    // a first line's pattern
    (
        "name: A
scope: source.a
first_line_match: '(?x'
contexts:
  main: []
",
        &[("V107", 3, 1)],
    ),
    // groups
    (
        "name: A
scope: source.a
contexts:
  main:
    - match: '(a)(?=(b))'
      captures:
        0: meta.a
        1: keyword.a
        2: keyword.b
        3: keyword.c
    - match: '<'
      embed: scope:source.a#inner
      escape: '(>)'
      escape_captures:
        1: keyword.d
        2: keyword.e
  inner: []
",
        &[("V108", 6, 7), ("V108", 6, 7), ("V108", 14, 7)],
    ),
    // references
    (
        "name: A
scope: source.a
contexts:
  main:
    - include: others
    - match: a
      push: [string, strnig]
    - match: b
      set:
        - match: c
          push: scope:source.b
  string:
    - match: b
      pop: true
",
        &[("V109", 5, 7), ("V109", 7, 7), ("V109", 11, 11)],
    ),
    // contexts that nothing reaches: they name one another
    (
        "name: A
scope: source.a
contexts:
  main:
    - match: a
  one:
    - include: two
  two:
    - include: one
",
        &[("V110", 6, 3), ("V110", 8, 3)],
    ),
    // the same again
    (
        "name: A
scope: source.a
contexts:
  main:
    - match: '\\ba\\b'
      scope: keyword.a
    - match: b
    - match: '\\ba\\b'
      scope: keyword.b
    - match: bc
    - match: ab
",
        &[("V111", 8, 7), ("V111", 10, 7)],
    ),
    // nothing is taken, and nothing done; where something is done all is well
    (
        "name: A
scope: source.a
contexts:
  main:
    - match: '(?=\\))'
      scope: keyword.a
    - match: '(?=a)\\w'
    - match: '(?=[(]b)'
      push: other
    - match: '$'
    - match: '\\b(?=d)(?<!e)'
    - match: 'f?'
  other:
    - match: '(?!x(y)z)'
      pop: true
",
        &[("V112", 5, 7), ("V112", 10, 7), ("V112", 11, 7)],
    ),
    // round and round
    (
        "name: A
scope: source.a
contexts:
  main:
    - match: a
      push: one
  one:
    - match: ''
      set: two
  two:
    - match: ''
      set: one
",
        &[("V113", 7, 3), ("V113", 10, 3)],
    ),
    // a back reference in the pattern itself
    (
        "name: A
scope: source.a
contexts:
  main:
    - match: '(a|b)\\1'
    - match: 'y(?<=(y))z'
    - match: '(?<=u)v'
",
        &[("V201", 5, 20), ("V201", 6, 16)],
    ),
    // scopes
    (
        "name: A
scope: source.a
contexts:
  main:
    - match: a
      scope: keywrod.a keyword.b
    - match: (b)
      captures:
        1: strong.b
",
        &[("V202", 6, 7), ("V202", 8, 7)],
    ),
    // main is left, and scopes are cleared
    (
        "name: A
scope: source.a
contexts:
  main:
    - match: a
      pop: true
    - match: b
      push:
        - clear_scopes: 1
        - match: c
          pop: true
",
        &[("V205", 6, 7), ("V206", 9, 11)],
    ),
    // comments, quotes, and lists that begin with their key
    (
        "%YAML 1.2
---
# a grammar
name: A
scope: source.a
'contexts':
  main:
  # nothing yet
  - match: a

  - match: b
    \"scopes\": keyword.b
",
        &[("V101", 12, 5)],
    ),
];
