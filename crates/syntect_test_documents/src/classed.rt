//! Lines with classes.
use crate::given::{ROWS, assets_in, equal, holds, is_text};
use syntect_documents::below::assets::error::AssetsError;
use syntect_documents::below::easy::html::ClassStyle;
use syntect_documents::below::parsing::within::LineLimit;
use syntect_documents::classed::classed_text;
use syntect_documents::lines::LineForm;

const HELLO: &str =
    "<pre class=\"code\"><span class=\"line\"><span class=\"source t\"> <span class=\"word\">hello</span></span></span></pre>\n";

const PREFIXED: &str =
    "<pre class=\"&lt;-code\"><span class=\"line\"><span class=\"&lt;-source &lt;-t\"> <span class=\"&lt;-word\">hello</span></span></span></pre>\n";

const BLOCKS: &str = "fn f {\n  a < \"b\" & c\n} #<\n+\nfn{";

/// Spans that are open at a line's end are closed there, and opened in the next one.
const BLOCKS_SHOWN: &str = "<pre class=\"code\">\
<span class=\"line\" id=\"L1\"><span class=\"source t\"><span class=\"meta function t\"><span class=\"storage t\">fn</span></span><span class=\"meta block t\"><span class=\"meta function t\"> <span class=\"entity name t\">f</span></span> <span class=\"punctuation begin t\">{</span>\n\
</span></span></span><span class=\"line\" id=\"L2\"><span class=\"source t\"><span class=\"meta block t\">  a &lt; &quot;b&quot; &amp; c\n\
</span></span></span><span class=\"line marked\" id=\"L3\"><span class=\"source t\"><span class=\"meta block t\"></span><span class=\"punctuation end t\">}</span> <span class=\"comment t\">#&lt;\n\
</span></span></span><span class=\"line\" id=\"L4\"><span class=\"source t\"><span class=\"keyword operator t\">+</span>\n\
</span></span><span class=\"line\" id=\"L5\"><span class=\"source t\"><span class=\"meta function t\"><span class=\"storage t\">fn</span></span><span class=\"meta block t\"><span class=\"punctuation begin t\">{</span></span></span></span></pre>\n";

const ROWS_SHOWN: &str =
    "<pre class=\"code\"><span class=\"line\">xxxxxxxxxxxxxxxxxxxxxxxxxxxxxxxxxxxxxxxxxxxxxxxxxxxxxxxxxxxx\n\
</span><span class=\"line\"><span class=\"source u\"><span class=\"word\">hello</span></span></span></pre>\n";

const THIRD: [(u64, u64); 1] = [(3, 3)];

#[test]
fn texts_with_classes(rt: HostRuntime) {
    let alloc = rt.alloc();
    let (assets, _) = assets_in(&rt, "syntect_documents_classed");
    let (plain, spaced) = (LineForm::plain(), ClassStyle::Spaced);
    let prefixed = ClassStyle::SpacedPrefixed { prefix: "<-" };
    let named = LineForm {
        anchor: Some("L"),
        marked: &THIRD,
        ..plain
    };
    let rows = [
        (" hello", "t", spaced, plain, HELLO),
        (" hello", "t", prefixed, plain, PREFIXED),
        (BLOCKS, "b", spaced, named, BLOCKS_SHOWN),
        ("", "t", spaced, plain, "<pre class=\"code\"></pre>\n"),
    ];
    for (text, name, style, form, wanted) in &rows {
        let shown = classed_text(&assets, alloc, text, name, *style, *form);
        is_text(&rt, shown, wanted);
    }
}

#[test]
fn a_line_with_classes_that_reaches_a_limit(rt: HostRuntime) {
    let alloc = rt.alloc();
    let (mut assets, _) = assets_in(&rt, "syntect_documents_classed_limit");
    assets.limits.steps = 1_000_000;
    let (plain, spaced) = (LineForm::plain(), ClassStyle::Spaced);
    let shown = classed_text(&assets, alloc, ROWS, "u", spaced, plain).expect(&rt, "a text");
    equal(&rt, shown.text.as_str(), ROWS_SHOWN);
    holds(
        &rt,
        matches!(shown.plain, Some((1, LineLimit::Steps { .. }))),
    );
}

#[test]
fn classed_texts_that_are_refused(rt: HostRuntime) {
    let alloc = rt.alloc();
    let (assets, _) = assets_in(&rt, "syntect_documents_classed_refused");
    let (plain, spaced) = (LineForm::plain(), ClassStyle::Spaced);
    let refused = classed_text(&assets, alloc, "", "none", spaced, plain);
    holds(
        &rt,
        matches!(refused, Err(AssetsError::UnknownLanguage(..))),
    );
    let refused = classed_text(&assets, alloc, "u", "l", spaced, plain);
    holds(&rt, matches!(refused, Err(AssetsError::NotShown(_))));
}
