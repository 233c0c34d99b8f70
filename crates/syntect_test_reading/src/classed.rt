//! Pages of spans with classes: the values of syntect's own tests, and its answers for this
//! grammar. A line that needs a context which is not there is refused.
use crate::below::easy::Error;
use crate::below::easy::html::{ClassStyle, ClassedHTMLGenerator};
use crate::below::easy::parsing::{ScopeRepository, SyntaxDefinition, SyntaxSet, SyntaxSetBuilder};
use crate::below::easy::util::LinesWithEndings;
use crate::below::parsing::parser::ParsingError;
use crate::found::{equal, holds};
use std::alloc::Global;
use std::process::Abort;

/// A sign, names after `fn` with a block each, notes to the line's end,
/// and a context that is not there.
const GRAMMAR: &str = r"
name: T
scope: source.t
contexts:
  main:
    - {match: '[+]', scope: keyword.operator.t}
    - {match: 'fn', scope: storage.t, push: [block, name]}
    - {match: '#', push: note}
    - {match: '!', push: absent}
  name:
    - meta_scope: meta.function.t
    - {match: '\w+', scope: entity.name.t, pop: true}
    - {match: '(?=\{)', pop: true}
  block:
    - meta_content_scope: meta.block.t
    - {match: '\{', scope: punctuation.begin.t}
    - {match: '\}', scope: punctuation.end.t, pop: true}
  note:
    - meta_scope: comment.t
    - {match: '\n', pop: true}
";

/// Classes with `p-` in front of each.
const PREFIXED: ClassStyle = ClassStyle::SpacedPrefixed { prefix: "p-" };

const SUM: &str =
    "<span class=\"source t\">x <span class=\"keyword operator t\">+</span> y\n</span>";

const PREFIXED_SUM: &str =
    "<span class=\"p-source p-t\">x <span class=\"p-keyword p-operator p-t\">+</span> y\n</span>";

/// Blocks and a note, in the middle of which the text ends.
const BLOCKS: &str = "fn f {\n  a < \"b\" & c\n} #<\n+\nfn{";

/// Between the second `fn` and its block the span of a name is opened and closed: it is left out.
const BLOCKS_PAGE: &str = "<span class=\"source t\"><span class=\"meta function t\">\
<span class=\"storage t\">fn</span></span><span class=\"meta block t\"><span class=\"meta function t\"> \
<span class=\"entity name t\">f</span></span> <span class=\"punctuation begin t\">{</span>\n  \
a &lt; &quot;b&quot; &amp; c\n</span><span class=\"punctuation end t\">}</span> \
<span class=\"comment t\">#&lt;\n</span><span class=\"keyword operator t\">+</span>\n\
<span class=\"meta function t\"><span class=\"storage t\">fn</span></span><span class=\"meta block t\">\
<span class=\"punctuation begin t\">{</span></span></span>";

/// The set of the grammar.
fn built(rt: &impl Abort, alloc: Global, repository: &mut ScopeRepository) -> SyntaxSet {
    let definition = SyntaxDefinition::load_from_str(alloc, GRAMMAR, true, None, repository).expect(
        rt,
        "a grammar",
    );
    let mut builder = SyntaxSetBuilder::new(alloc);
    builder.add(definition).expect(rt, "memory");
    builder.build(alloc, repository).expect(rt, "a set")
}

/// A page that begins in the grammar's syntax.
fn begun<'s>(
    rt: &impl Abort,
    alloc: Global,
    set: &'s SyntaxSet,
    repository: &'s ScopeRepository,
    style: ClassStyle,
) -> ClassedHTMLGenerator<'s> {
    let syntax = set.find_syntax_by_name("T").expect(rt, "a syntax");
    ClassedHTMLGenerator::new_with_class_style(alloc, syntax, set, repository, style).expect(
        rt,
        "an answer",
    )
}

/// The page of a text.
fn page(rt: &impl Abort, alloc: Global, text: &str, style: ClassStyle) -> String {
    let mut repository = ScopeRepository::new(alloc);
    let set = built(rt, alloc, &mut repository);
    let mut generator = begun(rt, alloc, &set, &repository, style);
    for line in LinesWithEndings::from(text) {
        generator
            .parse_html_for_line_which_includes_newline(line)
            .expect(rt, "an answer");
    }
    generator.finalize().expect(rt, "an answer")
}

#[test]
fn a_page_of_classes(rt: HostRuntime) {
    let alloc = rt.alloc();
    let first = page(&rt, alloc, "x + y\n", ClassStyle::Spaced);
    equal(&rt, first.as_str(), SUM);
    let second = page(&rt, alloc, "x + y\n", PREFIXED);
    equal(&rt, second.as_str(), PREFIXED_SUM);
}

#[test]
fn a_page_without_empty_spans(rt: HostRuntime) {
    let alloc = rt.alloc();
    let blocks = page(&rt, alloc, BLOCKS, ClassStyle::Spaced);
    equal(&rt, blocks.as_str(), BLOCKS_PAGE);
    let nothing = page(&rt, alloc, "", ClassStyle::Spaced);
    equal(&rt, nothing.as_str(), "");
}

/// A refused line adds nothing, and the next one is read as if it had not been.
#[test]
fn a_refused_line_adds_nothing(rt: HostRuntime) {
    let alloc = rt.alloc();
    let mut repository = ScopeRepository::new(alloc);
    let set = built(&rt, alloc, &mut repository);
    let mut generator = begun(&rt, alloc, &set, &repository, ClassStyle::Spaced);
    let refused = generator.parse_html_for_line_which_includes_newline("!\n");
    holds(
        &rt,
        matches!(
            refused,
            Err(Error::ParsingError(ParsingError::UnresolvedContextReference(_)))
        ),
    );
    generator
        .parse_html_for_line_which_includes_newline("x + y\n")
        .expect(&rt, "an answer");
    let text = generator.finalize().expect(&rt, "an answer");
    equal(&rt, text.as_str(), SUM);
}
