//! Patterns as they are rewritten: variables, references, ends of lines.
use crate::below::values::table::Table;
use crate::below::values::text::Text;
use crate::found::{equal, holds};
use std::alloc::Global;
use std::process::Abort;
use syntect_grammar_rewrite::references::{refers_back, tested};
use syntect_grammar_rewrite::rewrite::rewrite;

fn put(rt: &impl Abort, alloc: Global, table: &mut Table<Text, Text>, name: &str, value: &str) {
    let name = Text::from_str(alloc, name).expect(rt, "memory");
    let value = Text::from_str(alloc, value).expect(rt, "memory");
    holds(rt, table.insert(name, value).is_ok());
}

#[test]
fn references(rt: HostRuntime) {
    let alloc = rt.alloc();
    equal(
        &rt,
        tested(alloc, "a\\1[\\\\2]é\\é")
            .expect(&rt, "memory")
            .as_str(),
        "a<placeholder_1>[\\\\2]é\\é",
    );
    holds(&rt, refers_back("a\\1"));
    holds(&rt, refers_back("\\\\٣"));
    holds(&rt, !refers_back("1\\a2\\"));
}

/// Adds 64 variables, each with a text of uses of the two before it. The uses stand for nothing,
/// where `first` does.
fn put_chain(rt: &impl Abort, alloc: Global, table: &mut Table<Text, Text>, first: &str) {
    put(rt, alloc, table, "v0", first);
    put(rt, alloc, table, "v1", "{{v0}}{{v0}}");
    for i in 2..64u32 {
        let name = format!(in alloc; "v{i}").expect(rt, "memory");
        let (one, two) = (i.saturating_sub(1), i.saturating_sub(2));
        let text = format!(in alloc; "{{{{v{one}}}}}{{{{v{two}}}}}{{{{v{one}}}}}").expect(
            rt, "memory",
        );
        put(rt, alloc, table, name.as_str(), text.as_str());
    }
}

#[test]
fn chains_of_nothing(rt: HostRuntime) {
    let alloc = rt.alloc();
    let mut table = Table::new(alloc);
    put_chain(&rt, alloc, &mut table, "");
    let text = rewrite(alloc, "a{{v63}}b{{v63}}", &table, true).expect(&rt, "memory");
    equal(&rt, text.as_str(), "ab");
    let mut table = Table::new(alloc);
    put_chain(&rt, alloc, &mut table, "{{open}}");
    put(&rt, alloc, &mut table, "open", "x{{v63}}y{{v62}}");
    let text = rewrite(alloc, "{{open}}{{v0}}", &table, true).expect(&rt, "memory");
    equal(&rt, text.as_str(), "xyxy");
}
