//! Grammars in which patterns never come, or of which more is told than a pattern says by itself.
use crate::planted_rows::Told;

/// Grammars, and what is to be found in them.
pub const ROWS: &[(&str, &[Told])] = &[
    // what can't hold at one place; the last six can, or are meant
    (
        "name: A
scope: source.a
contexts:
  main:
    - match: 'a^b'
    - match: '(?=[a-z])\\d+'
    - match: 'foo\\b[a-z]'
    - match: '(?<=x)^'
    - match: '(?!)'
    - match: 'a\\n^b'
    - match: 'foo\\b\\W'
    - match: '(?<=x)y'
    - match: '(?!b)b|c'
    - match: '(?=[a-z])\\w+'
",
        &[
            ("V114", 5, 7),
            ("V114", 6, 7),
            ("V114", 7, 7),
            ("V114", 8, 7),
        ],
    ),
    // `.` takes each place but a line's end, and then what leaves does
    (
        "name: A
scope: source.a
contexts:
  main:
    - match: '[=<>]'
    - match: '==|<='
    - match: '=|!'
    - match: '\\('
      push: inner
  inner:
    - match: '\\)'
      pop: true
    - match: '.'
    - match: '\\w+'
    - match: '$'
      pop: true
    - include: more
  more:
    - match: x
",
        &[("V111", 6, 7), ("V111", 14, 7), ("V111", 17, 7)],
    ),
    // a front of several letters, and no front
    (
        "name: A
scope: source.a
contexts:
  main:
    - match: '::'
    - match: '::='
    - match: '->>'
    - match: '->'
",
        &[("V111", 6, 7)],
    ),
    // the prototype comes first, where it is wanted
    (
        "name: A
scope: source.a
contexts:
  prototype:
    - match: '#.*$'
  main:
    - match: '#!'
    - match: '[$]'
      push: bare
  bare:
    - meta_include_prototype: false
    - match: '#!'
    - match: ';'
      pop: true
",
        &[("V111", 7, 7)],
    ),
    // what leaves without reading doesn't do so where its context was just opened
    (
        "name: A
scope: source.a
contexts:
  main:
    - match: '(?=a)'
      push: word
    - match: b
      push: other
  word:
    - match: '(?=\\S)'
      pop: true
    - match: a
  other:
    - match: '(?=\\S)'
      pop: true
    - match: c
",
        &[("V111", 16, 7)],
    ),
    // an include that is shared: told where it is never asked, and not in itself
    (
        "name: A
scope: source.a
contexts:
  main:
    - match: '[ab]'
    - include: letters
    - match: c
      push: other
  letters:
    - match: a
    - match: bc
  other:
    - include: letters
    - match: d
      pop: true
",
        &[("V111", 6, 7)],
    ),
    // no line begins in a context that is always left at the line's end
    (
        "name: A
scope: source.a
contexts:
  main:
    - match: '#if'
      push: condition
    - match: '^x'
  condition:
    - match: '$'
      pop: true
    - match: '^\\s*defined'
    - match: '\\('
      push: inner
  inner:
    - match: '\\)'
      pop: true
    - match: '^y'
",
        &[("V115", 11, 7)],
    ),
    // it may, where what is open within reads the line's end
    (
        "name: A
scope: source.a
contexts:
  main:
    - match: '#if'
      push: condition
  condition:
    - match: '$'
      pop: true
    - match: '^\\s*defined'
    - match: '\\('
      push: inner
  inner:
    - match: '\\n'
      pop: true
",
        &[],
    ),
    // and where the context is opened at a line's begin
    (
        "name: A
scope: source.a
contexts:
  main:
    - match: '(?=#)'
      push: condition
  condition:
    - match: '$'
      pop: true
    - match: '^#'
",
        &[],
    ),
    // scopes are cleared out of order in two ways
    (
        "name: A
scope: source.a
contexts:
  main:
    - match: a
      push: [one, clear]
    - match: b
      push: clear
  one:
    - match: c
      pop: true
  clear:
    - clear_scopes: 1
    - match: d
      set: one
    - match: e
      pop: true
",
        &[
            ("V209", 2, 1),
            ("V208", 6, 7),
            ("V206", 13, 7),
            ("V208", 15, 7),
        ],
    ),
    // `main` is left by what it includes
    (
        "name: A
scope: source.a
contexts:
  main:
    - include: word
    - match: b
      push: word
  word:
    - match: a
      pop: true
",
        &[("V205", 5, 7)],
    ),
    // nine patterns of 8001 bytes
    (
        "name: A
scope: source.a
variables:
  b: xxxxxxxxxx
  c: '{{b}}{{b}}{{b}}{{b}}{{b}}{{b}}{{b}}{{b}}{{b}}{{b}}'
  d: '{{c}}{{c}}{{c}}{{c}}{{c}}{{c}}{{c}}{{c}}{{c}}{{c}}'
  e: '{{d}}{{d}}{{d}}{{d}}{{d}}{{d}}{{d}}{{d}}'
contexts:
  main:
    - match: '{{e}}1'
    - match: '{{e}}2'
    - match: '{{e}}3'
    - match: '{{e}}4'
    - match: '{{e}}5'
    - match: '{{e}}6'
    - match: '{{e}}7'
    - match: '{{e}}8'
    - match: '{{e}}9'
",
        &[("V210", 8, 1)],
    ),
];
