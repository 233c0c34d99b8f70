//! Spans with a prefix.
use crate::below::scope::repository::ScopeRepository;
use crate::below::scope::stack::{ScopeStack, ScopeStackOp};
use crate::found::equal;
use syntect_writers::class_style::ClassStyle;
use syntect_writers::classed::line_tokens_to_classed_spans;

#[test]
fn a_prefix_is_escaped(rt: HostRuntime) {
    let mut repository = ScopeRepository::new(rt.alloc());
    let scope = repository.build("source.t").expect(&rt, "a scope");
    let ops = [(0, ScopeStackOp::Push(scope))];
    let mut stack = ScopeStack::new(rt.alloc());
    let style = ClassStyle::SpacedPrefixed { prefix: "p<" };
    let (html, number) = line_tokens_to_classed_spans(
        rt.alloc(),
        "x",
        &ops,
        style,
        &mut stack,
        &repository,
    ).expect(&rt, "memory");
    equal(&rt, html.as_str(), "<span class=\"p&lt;source p&lt;t\">x");
    equal(&rt, number, 1);
}
