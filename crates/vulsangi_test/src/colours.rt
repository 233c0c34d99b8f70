//! Which rule of a theme gave a colour.
use std::alloc::Global;
use vulsangi_check::vulsangi_grammar::syntect::Error;
use vulsangi_check::vulsangi_grammar::syntect::highlighting::ThemeSet;
use vulsangi_check::vulsangi_grammar::syntect::parsing::{ScopeRepository, ScopeStack};
use vulsangi_doctor::scopes::explain;

/// The rules of themes, a stack, and the lines that are told of it. Of rules that score alike the
/// first one wins, and one of a deep scope before one of a long scope that lies higher.
const ROWS: &[(&str, &str, &str)] = &[
    (
        "{\"scope\": \"keyword\", \"settings\": {\"foreground\": \"#010101\"}},
         {\"scope\": \"keyword, none\", \"settings\": {\"foreground\": \"#020202\"}}",
        "source.a keyword.b",
        "colour  #010101\nby      keyword\nfont by no rule: the theme's own\n",
    ),
    (
        "{\"scope\": \"source.a\", \"settings\": {\"foreground\": \"#010101\"}},
         {\"scope\": \"keyword\", \"settings\": {\"foreground\": \"#020202\"}}",
        "source.a keyword.b",
        "colour  #020202\nby      keyword\nfont by no rule: the theme's own\n",
    ),
    (
        "{\"scope\": \"source keyword\", \"settings\": {\"foreground\": \"#010101\"}},
         {\"scope\": \"keyword\", \"settings\": {\"fontStyle\": \"bold\"}},
         {\"scope\": \"keyword - source\", \"settings\": {\"foreground\": \"#020202\"}}",
        "source.a keyword.b",
        "colour  #010101\nby      source keyword\nfont by keyword\n",
    ),
    (
        "{\"scope\": \"string\", \"settings\": {\"foreground\": \"#010101\"}}",
        "source.a keyword.b",
        "colour  #090909\nby      no rule: the theme's own\nfont by no rule: the theme's own\n",
    ),
];

/// What is told of a stack by a theme of these rules, after its scopes.
fn told(alloc: Global, rules: &str, stack: &str) -> Result<String, Error> {
    let mut repository = ScopeRepository::new(alloc);
    let text = format!(in alloc;
        "{{\"settings\": [{{\"settings\": {{\"foreground\": \"#090909\"}}}}, {rules}]}}"
    )?;
    let mut bytes = text.as_bytes();
    let Ok(theme) = ThemeSet::load_from_reader(alloc, &mut bytes, &mut repository) else {
        return Ok(String::from_str(alloc, "no theme")?);
    };
    let stack = match ScopeStack::from_text(alloc, stack, &mut repository) {
        Ok(stack) => stack,
        Err(_) => return Ok(String::from_str(alloc, "no stack")?),
    };
    let mut out = String::new(alloc);
    explain(alloc, &stack, &theme, &repository, &mut out)?;
    Ok(out)
}

#[test]
fn the_best_rule_is_told(rt: HostRuntime) {
    for (rules, stack, wanted) in ROWS {
        match told(rt.alloc(), *rules, *stack) {
            Ok(found) => assert!(rt; found.as_str().ends_with(*wanted), "{found}"),
            Err(_) => assert!(rt; false, "out of memory"),
        }
    }
}
