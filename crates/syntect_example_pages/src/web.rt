//! A page of HTML with classes, and its style sheet.
use crate::loading::{set_of, syntax_of, theme_of};
use std::fs;
use std::rt::Files;
use syntect::escape::Escape;
use syntect::html::{ClassStyle, ClassedHTMLGenerator, css_for_theme_with_class_style};
use syntect::parsing::ScopeRepository;
use syntect::util::LinesWithEndings;

/// What stands before the name of the text in a page.
const HEAD: &str = "<!DOCTYPE html>\n<html lang=\"en\">\n<head>\n<meta charset=\"utf-8\">\n\
<meta name=\"viewport\" content=\"width=device-width\">\n\
<meta name=\"color-scheme\" content=\"light dark\">\n";

/// The text of a file as spans with classes.
fn spans_of(rt: &(impl AllocGlobal + Files), grammars: &str, path: &str) -> Option<String> {
    let alloc = rt.alloc();
    let mut repository = ScopeRepository::new(alloc);
    let set = set_of(rt, alloc, grammars, &mut repository)?;
    let syntax = syntax_of(rt, alloc, &set, path)?;
    let text = fs::read_to_string(rt, path).ok()?;
    let style = ClassStyle::Spaced;
    let started = ClassedHTMLGenerator::new_with_class_style(
        alloc,
        syntax,
        &set,
        &repository,
        style,
    );
    let mut generator = started.ok()?;
    for line in LinesWithEndings::from(text.as_str()) {
        generator
            .parse_html_for_line_which_includes_newline(line)
            .ok()?;
    }
    generator.finalize().ok()
}

/// Adds the page of a text: its spans with classes in an element of the class `code`, and a link to
/// the style sheet.
pub fn write_page(
    rt: &(impl AllocGlobal + Files),
    grammars: &str,
    path: &str,
    sheet: &str,
    out: &mut String,
) -> Option<()> {
    let spans = spans_of(rt, grammars, path)?;
    let name = match path.rsplit_once('/') {
        Some((_, name)) => name,
        None => path,
    };
    out.push_str(HEAD).ok()?;
    writeln!(out, "<title>{}</title>", Escape(name)).ok()?;
    writeln!(out, "<link rel=\"stylesheet\" href=\"{}\">", Escape(sheet)).ok()?;
    out.push_str("</head>\n<body class=\"code\">\n<pre>").ok()?;
    out.push_str(spans.as_str()).ok()?;
    out.push_str("</pre>\n</body>\n</html>\n").ok()
}

/// Adds the style sheet of a theme, for screens of one kind.
fn write_sheet_for(
    rt: &(impl AllocGlobal + Files),
    kind: &str,
    path: &str,
    out: &mut String,
) -> Option<()> {
    let alloc = rt.alloc();
    let mut repository = ScopeRepository::new(alloc);
    let theme = theme_of(rt, alloc, path, &mut repository)?;
    let style = ClassStyle::Spaced;
    let sheet = css_for_theme_with_class_style(alloc, &theme, &repository, style).ok()?;
    writeln!(out, "@media (prefers-color-scheme: {kind}) {{").ok()?;
    out.push_str(sheet.as_str()).ok()?;
    out.push_str("}\n").ok()
}

/// Adds the style sheet of a theme for light screens and of one for dark screens.
pub fn write_sheet(
    rt: &(impl AllocGlobal + Files),
    light: &str,
    dark: &str,
    out: &mut String,
) -> Option<()> {
    write_sheet_for(rt, "light", light, out)?;
    write_sheet_for(rt, "dark", dark, out)
}
