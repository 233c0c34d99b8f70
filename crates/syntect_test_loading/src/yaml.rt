//! YAML: what is read of it, and where it is refused.
use crate::below::yaml::error::ReadError;
use crate::below::yaml::read::{LinePlace, read, refused_at};
use crate::below::yaml::value::{Scalar, Yaml};
use crate::found::{equal, holds};
use std::alloc::{AllocError, Global};
use std::process::Abort;

// A value in one line, its texts in double quotes.
fn show_scalar(alloc: Global, out: &mut String, scalar: &Scalar) -> Result<(), AllocError> {
    match scalar {
        Scalar::Text(text) => {
            out.push('"')?;
            out.push_str(text.as_str())?;
            out.push('"')
        }
        Scalar::Number(n) => out.push_str(format!(in alloc; "{n}")?.as_str()),
        Scalar::Truth(true) => out.push_str("true"),
        Scalar::Truth(false) => out.push_str("false"),
        Scalar::Null => out.push_str("null"),
    }
}

#[cycle(show)]
fn show(alloc: Global, out: &mut String, value: &Yaml) -> Result<(), AllocError> {
    match value {
        Yaml::Scalar(scalar) => show_scalar(alloc, out, scalar),
        Yaml::List(items) => show_items(alloc, out, items),
        Yaml::Map(entries) => show_entries(alloc, out, entries),
    }
}

#[cycle(show)]
fn show_items(alloc: Global, out: &mut String, items: &Vec<Yaml>) -> Result<(), AllocError> {
    out.push('[')?;
    for item in items {
        show(alloc, out, item)?;
        out.push(';')?;
    }
    out.push(']')
}

#[cycle(show)]
fn show_entries(
    alloc: Global,
    out: &mut String,
    entries: &Vec<(Scalar, Yaml)>,
) -> Result<(), AllocError> {
    out.push('{')?;
    for entry in entries {
        show_scalar(alloc, out, &entry.0)?;
        out.push(':')?;
        show(alloc, out, &entry.1)?;
        out.push(';')?;
    }
    out.push('}')
}

// What a text reads as, in one line.
fn shown(alloc: Global, text: &str) -> Result<String, AllocError> {
    let mut out = String::new(alloc);
    match read(alloc, text) {
        Ok(Some(value)) => show(alloc, &mut out, &value)?,
        Ok(None) => out.push_str("no node")?,
        Err(ReadError::NoValue) => out.push_str("no value")?,
        Err(ReadError::Memory) => out.push_str("no memory")?,
    }
    Ok(out)
}

// Each of these texts reads so.
fn read_so(rt: &impl Abort, alloc: Global, rows: &[(&'static str, &'static str)]) {
    for (text, wanted) in rows {
        let found = shown(alloc, text).expect(rt, "memory");
        assert_eq!(rt; found.as_str(), *wanted, "{text}");
    }
}

/// Texts that hold no node.
const WITHOUT_A_NODE: [&str; 6] = [
    "",
    "# x",
    "---",
    "\u{feff}",
    "%YAML 1.2\n---\n",
    " \n\t\n\n  # a",
];

#[test]
fn texts_without_a_node(rt: HostRuntime) {
    for text in &WITHOUT_A_NODE {
        read_so(&rt, rt.alloc(), &[(*text, "no node")]);
    }
}

/// Texts that are refused.
const WITHOUT_A_VALUE: [&str; 42] = [
    "a: 1\na: 2",
    "name: a: b",
    "a: &x 1",
    "a: *x",
    "a: !t 1",
    "a: 1\n...",
    "...",
    "a: 1\n---\nb: 2",
    "a:\n\tb: 1",
    "\ta: 1",
    "a: >\n  x",
    "a: |2\n  x",
    "'a",
    "a: 'b\n  c'",
    "\"a",
    "[1, 2",
    "[1 2\n3]",
    "{a}",
    "{a: }",
    "{a: 1 b: 2}",
    "{a: 1, a: 2}",
    "[,]",
    "[a: b]",
    "]",
    "a: b\n  c",
    "a: b\n  c: d",
    "- a\nb: 1",
    "a: 1\n- b",
    "a: - b",
    "a: \"\\q\"",
    "a: \"\\ud800\"",
    "a: \"\\x4\"",
    "%YAML 1.2\na: 1",
    "a: @b",
    "a: `b`",
    "? a\n: b",
    ": a",
    "a: 'b' c",
    "a: [b] c",
    "a: 'b'# c",
    "[a,\n...\n]",
    "a: b:",
];

#[test]
fn texts_without_a_value(rt: HostRuntime) {
    for text in &WITHOUT_A_VALUE {
        read_so(&rt, rt.alloc(), &[(*text, "no value")]);
    }
}

/// Texts, and what they read as.
const VALUES: [(&str, &str); 15] = [
    (
        "a: 1\nb: +2\nc: -03\n7: x",
        "{\"a\":1;\"b\":2;\"c\":-3;7:\"x\";}",
    ),
    (
        "a: true\nb: false\nc: null\nd: ~\ne:\nf: True",
        "{\"a\":true;\"b\":false;\"c\":null;\"d\":null;\"e\":null;\"f\":\"True\";}",
    ),
    (
        "- 9223372036854775807\n- -9223372036854775808",
        "[9223372036854775807;-9223372036854775808;]",
    ),
    (
        "- 9223372036854775808\n- -9223372036854775809",
        "[\"9223372036854775808\";\"-9223372036854775809\";]",
    ),
    (
        "- +\n- 1.5\n- 0x10\n- 'true'\n- \"1\"",
        "[\"+\";\"1.5\";\"0x10\";\"true\";\"1\";]",
    ),
    (
        "a:\n- 1\n- b: 2\n  c: 3\n-\n- - x\n  - y\nd:\n  - e",
        "{\"a\":[1;{\"b\":2;\"c\":3;};null;[\"x\";\"y\";];];\"d\":[\"e\";];}",
    ),
    (
        "   a: 1\n\n   # c\n   b:  # d\n     c: e # f\n   g: h#i",
        "{\"a\":1;\"b\":{\"c\":\"e\";};\"g\":\"h#i\";}",
    ),
    (
        "a: {b: 1, 'c': [d, -e , {}],}\nf: [\n  g, # h\n\n i\n]",
        "{\"a\":{\"b\":1;\"c\":[\"d\";\"-e\";{};];};\"f\":[\"g\";\"i\";];}",
    ),
    (
        "a: b:c\nd: -e\nf: ?g\nh : i\nj: k l \t\n'm' : n",
        "{\"a\":\"b:c\";\"d\":\"-e\";\"f\":\"?g\";\"h\":\"i\";\"j\":\"k l\";\"m\":\"n\";}",
    ),
    (
        "- 'it''s # it'\n- \"a # b\" # c\n- ''",
        "[\"it's # it\";\"a # b\";\"\";]",
    ),
    ("%YAML 1.2\n# c\n---\na: 1", "{\"a\":1;}"),
    (
        "\u{feff}a: b\r\nc: |\r\n  d\r\n  e\r\nf: g",
        "{\"a\":\"b\";\"c\":\"d\ne\n\";\"f\":\"g\";}",
    ),
    ("a: é\n'ß': \"→\"", "{\"a\":\"é\";\"ß\":\"→\";}"),
    ("x", "\"x\""),
    (
        "1: a\n'1': b\ntrue: c\n~: d",
        "{1:\"a\";\"1\":\"b\";true:\"c\";null:\"d\";}",
    ),
];

#[test]
fn values(rt: HostRuntime) {
    read_so(&rt, rt.alloc(), &VALUES);
}

/// Texts with scalars of several lines, and what they read as.
const LITERAL_SCALARS: [(&str, &str); 8] = [
    (
        "a: |\n  b\n\n  # c\n    d\n\n\ne: 1",
        "{\"a\":\"b\n\n# c\n  d\n\";\"e\":1;}",
    ),
    (
        "a: |-\n  b\n\n  # c\n    d\n\n\ne: 1",
        "{\"a\":\"b\n\n# c\n  d\";\"e\":1;}",
    ),
    (
        "a: |+\n  b\n\n  # c\n    d\n\n\ne: 1",
        "{\"a\":\"b\n\n# c\n  d\n\n\n\";\"e\":1;}",
    ),
    ("a: | # x\n\n  b\n# c\n", "{\"a\":\"\nb\n\";}"),
    (
        "- |\n b\n- |-\n   c\n-   |\n  d",
        "[\"b\n\";\"c\";\"d\n\";]",
    ),
    (
        "a: |\nb: |-\nc: |+\n",
        "{\"a\":\"\";\"b\":\"\";\"c\":\"\";}",
    ),
    ("- a: |\n    b\n  c: d", "[{\"a\":\"b\n\";\"c\":\"d\";};]"),
    ("|\na\n b", "\"a\n b\n\""),
];

#[test]
fn literal_scalars(rt: HostRuntime) {
    read_so(&rt, rt.alloc(), &LITERAL_SCALARS);
}

/// Scalars, and their texts.
const ESCAPES: [(&str, &str); 18] = [
    ("\"\\\\\"", "\\"),
    ("\"\\\"\"", "\""),
    ("\"\\/\"", "/"),
    ("\"\\n\"", "\n"),
    ("\"\\t\"", "\t"),
    ("\"\\r\"", "\r"),
    ("\"\\0\"", "\0"),
    ("\"\\a\"", "\u{7}"),
    ("\"\\b\"", "\u{8}"),
    ("\"\\e\"", "\u{1b}"),
    ("\"\\f\"", "\u{c}"),
    ("\"\\v\"", "\u{b}"),
    ("\"\\ \"", " "),
    ("\"\\x41\"", "A"),
    ("\"\\u00e9\"", "é"),
    ("\"\\U0001F600\"", "😀"),
    ("'\\n'", "\\n"),
    ("\\n", "\\n"),
];

#[test]
fn escapes(rt: HostRuntime) {
    for (text, wanted) in &ESCAPES {
        let value = read(rt.alloc(), text);
        let found = matches!(&value, Ok(Some(v)) if v.as_str() == Some(*wanted));
        assert!(rt; found, "{text}");
    }
}

// Each part so many times, one part after the other.
fn repeated(rt: &impl Abort, alloc: Global, parts: &[(&'static str, u32)]) -> String {
    let mut text = String::new(alloc);
    for (part, times) in parts {
        for _ in 0..*times {
            text.push_str(part).expect(rt, "memory");
        }
    }
    text
}

// Whether a text is refused.
fn is_refused(alloc: Global, text: &str) -> bool {
    matches!(read(alloc, text), Err(ReadError::NoValue))
}

#[test]
fn nesting(rt: HostRuntime) {
    let alloc = rt.alloc();
    let deep = repeated(&rt, alloc, &[("[", 100), ("]", 100)]);
    holds(&rt, matches!(read(alloc, deep.as_str()), Ok(Some(_))));
    for times in [101, 100000] {
        let deeper = repeated(&rt, alloc, &[("[", times), ("]", times)]);
        holds(&rt, is_refused(alloc, deeper.as_str()));
    }
    let dashes = repeated(&rt, alloc, &[("- ", 101)]);
    holds(&rt, is_refused(alloc, dashes.as_str()));
}

#[test]
fn long_texts(rt: HostRuntime) {
    let alloc = rt.alloc();
    let line = repeated(&rt, alloc, &[("a: ", 1), ("0123456789", 1000000)]);
    let long = read(alloc, line.as_str());
    let whole =
        matches!(&long, Ok(Some(v)) if v.get("a").and_then(Yaml::as_str).map(|t| t.len()) == Some(10000000));
    holds(&rt, whole);
}

/// The whole text reads, and no part of it that ends early wants memory.
#[test]
fn fronts_of_a_text(rt: HostRuntime) {
    let alloc = rt.alloc();
    let text =
        "%YAML 1.2\n---\nname: 'C'\nscope: source.c\ncontexts:\n  main:\n    - match: \"\\\\b(if)\\b\" # x\n      captures: {1: a, 2: [b]}\n    - include: c\n  c:\n    - |\n      d\n";
    let mut front = String::new(alloc);
    for c in text.chars() {
        let read = read(alloc, front.as_str());
        holds(&rt, !matches!(read, Err(ReadError::Memory)));
        front.push(c).expect(&rt, "memory");
    }
    holds(&rt, matches!(read(alloc, front.as_str()), Ok(Some(_))));
}

#[test]
fn look_ups(rt: HostRuntime) {
    let text = "a: x\nb: 7\nc: true\nd: [1, 2]\n1: y\ne:";
    let value = read(rt.alloc(), text)
        .expect(&rt, "memory")
        .expect(&rt, "a node");
    let copy = value.clone().expect(&rt, "memory");
    holds(&rt, copy == value);
    equal(&rt, value.get("a").and_then(Yaml::as_str), Some("x"));
    equal(&rt, value.get("b").and_then(Yaml::as_i64), Some(7));
    equal(&rt, value.get("c").and_then(Yaml::as_bool), Some(true));
    equal(
        &rt,
        value
            .get("d")
            .and_then(Yaml::as_list)
            .map(|items| items.len()),
        Some(2),
    );
    holds(&rt, value.get("1").is_none());
    holds(
        &rt,
        value
            .get("e")
            .and_then(Yaml::as_scalar)
            .map_or(false, Scalar::is_null),
    );
    equal(&rt, value.as_map().map(|entries| entries.len()), Some(6));
    holds(&rt, value.as_str().is_none());
    holds(&rt, copy.get("a") != value.get("b"));
}

/// Texts that are refused, each with the line and the column where it is.
const PLACES: [(&str, usize, usize); 14] = [
    ("a: b: c", 1, 5),
    ("a: 1\nb: [c, d\ne: 2", 3, 1),
    ("a: 1\n# é\nb: 'é' x", 3, 8),
    ("\u{feff}a: 1\nb: &c 2", 2, 4),
    ("a: 1\nb: 2\na: 3", 3, 3),
    // What stops a block stands in a line of its own: a tab as indentation,
    // or the end of the document.
    ("a: 1\n\tb: 2", 2, 1),
    ("a:\n\tb: 1", 2, 1),
    ("- é\n\n# c\n\t- b", 4, 1),
    ("-\n\ta", 2, 1),
    ("a: |\n  x\n\ty", 3, 1),
    ("a: 1\n# c\n...\nb: 2", 3, 1),
    ("# c\n\ta: 1", 2, 1),
    ("a: b\n  c", 2, 3),
    ("a: 'é'\r\nb: \"é\" x", 2, 8),
];

#[test]
fn places_of_refusals(rt: HostRuntime) {
    for (text, line, column) in &PLACES {
        let place = refused_at(rt.alloc(), text).expect(&rt, "memory");
        let (line, column) = (*line, *column);
        assert_eq!(rt; place, Some(LinePlace { line, column }), "{text}");
    }
    for text in ["a: 1", "# a"] {
        let place = refused_at(rt.alloc(), text).expect(&rt, "memory");
        holds(&rt, place.is_none());
    }
}
