//! Texts as HTML, and style sheets.
use crate::choose::theme_of;
use crate::show::Job;
use std::alloc::{AllocError, Global};
use std::rt::Files;
use syntect::assets::{Assets, AssetsError, Format, PlainLine, Shown};
use syntect::documents::{
    Choice, LINE_SHEET, LineForm, classed_in, document, numbered_in, sheet_for_light_and_dark,
};
use syntect::escape::Escape;
use syntect::highlighting::{Color, Theme};
use syntect::html::{ClassStyle, css_for_theme_with_class_style};
use syntect::parsing::SyntaxReference;
use vulsangi_words::form::Form;
use vulsangi_words::words::Asked;

/// The names of the classes.
const CLASSES: ClassStyle = ClassStyle::SpacedPrefixed { prefix: "v-" };

/// The rules of a document beside those of its theme.
const PAGE_SHEET: &str = "body { margin: 1em; }
pre { margin: 0; padding: 1em; overflow-x: auto; tab-size: 4; }
h2 { font: bold 1em sans-serif; margin: 1.5em 0 .5em; }
.line { display: block; }
";

/// What begins a line that stands in a span of its own.
const LINE: &str = "<span class=\"line";

/// What ends the lines.
const CLOSING: &str = "</pre>\n";

/// The marked lines, as the writers of pages take them.
fn marked(alloc: Global, asked: &Asked<'_, '_>) -> Result<Vec<(u64, u64)>, AllocError> {
    let mut pairs = Vec::new(alloc);
    for range in asked.marked.ranges.as_slice() {
        pairs.push((range.first, range.last))?;
    }
    Ok(pairs)
}

/// How lines are numbered, named and marked. They have names where these are of one text alone.
fn line_form<'p>(job: &Job<'_, '_, '_>, marked: &'p [(u64, u64)]) -> LineForm<'p> {
    let has_names = job.asked.number && !job.several && !job.asked.fragment;
    LineForm {
        numbers: job.asked.number,
        anchor: if has_names { Some("L") } else { None },
        marked,
        ..LineForm::plain()
    }
}

/// Appends a page's lines that are asked for.
fn push_asked(out: &mut String, asked: &Asked<'_, '_>, page: &str) -> Result<(), AllocError> {
    if asked.lines.is_empty() {
        return out.push_str(page);
    }
    let mut parts = page.strip_suffix(CLOSING).unwrap_or(page).split(LINE);
    out.push_str(parts.next().unwrap_or(""))?;
    for (number, line) in (1..u64::MAX).zip(parts) {
        if asked.shows(number) {
            out.push_str(LINE)?;
            out.push_str(line)?;
        }
    }
    out.push_str(CLOSING)
}

/// A text as HTML: with inline styles or with classes.
fn page_of(
    alloc: Global,
    job: &Job<'_, '_, '_>,
    syntax: &SyntaxReference,
    text: &str,
) -> Result<Shown, AssetsError> {
    let marked = marked(alloc, job.asked)?;
    let lines = line_form(job, marked.as_slice());
    if job.form == Form::Classes {
        return classed_in(job.assets, alloc, text, syntax, CLASSES, lines);
    }
    if job.asked.chooses_lines() {
        return numbered_in(job.assets, alloc, text, syntax, job.theme, lines);
    }
    let format = Format::Html;
    job.assets.show_in(alloc, text, syntax, job.theme, format)
}

/// Appends a text as HTML, and answers the first line of it that is shown plain.
pub fn push_text(
    alloc: Global,
    out: &mut String,
    job: &Job<'_, '_, '_>,
    syntax: &SyntaxReference,
    text: &str,
) -> Result<Option<PlainLine>, AssetsError> {
    let page = page_of(alloc, job, syntax, text)?;
    push_asked(out, job.asked, page.text.as_str())?;
    Ok(page.plain)
}

/// Appends the heading of a file.
pub fn push_heading(out: &mut String, name: &str) -> Result<(), AllocError> {
    writeln!(out, "<h2>{}</h2>", Escape(name))
}

/// The sheet of the themes for light and for dark screens.
fn sheet_of_two(
    rt: &(impl AllocGlobal + Files),
    assets: &mut Assets,
    asked: &Asked<'_, '_>,
) -> Result<String, AssetsError> {
    let alloc = rt.alloc();
    let light = theme_of(rt, assets, asked.light.unwrap_or("dawn"))?;
    let dark = theme_of(rt, assets, asked.dark.unwrap_or("dusk"))?;
    let (repository, by) = (&assets.repository, Choice::Preference);
    let mut out = sheet_for_light_and_dark(alloc, &light, &dark, repository, CLASSES, by)?;
    out.push_str(LINE_SHEET)?;
    Ok(out)
}

/// The sheet that texts with classes are shown by.
pub fn sheet_of(
    rt: &(impl AllocGlobal + Files),
    assets: &mut Assets,
    asked: &Asked<'_, '_>,
    theme: &Theme,
) -> Result<String, AssetsError> {
    if asked.light.is_some() || asked.dark.is_some() {
        return sheet_of_two(rt, assets, asked);
    }
    let alloc = rt.alloc();
    let mut out = css_for_theme_with_class_style(alloc, theme, &assets.repository, CLASSES)?;
    out.push_str(LINE_SHEET)?;
    Ok(out)
}

/// The rule that puts a theme's background behind the whole page.
fn push_ground(out: &mut String, theme: &Theme) -> Result<(), AllocError> {
    let back = theme.settings.background.unwrap_or(Color::WHITE);
    let front = theme.settings.foreground.unwrap_or(Color::BLACK);
    let (r, g, b) = (back.r, back.g, back.b);
    write!(out, "body {{ background-color: rgb({r}, {g}, {b}); ")?;
    let (r, g, b) = (front.r, front.g, front.b);
    writeln!(out, "color: rgb({r}, {g}, {b}); }}")
}

/// Appends the rules that put the grounds of two themes behind a page, on light and on dark screens.
fn push_grounds(out: &mut String, light: &Theme, dark: &Theme) -> Result<(), AllocError> {
    out.push_str(":root { color-scheme: light dark; }\n")?;
    push_ground(out, light)?;
    out.push_str("@media (prefers-color-scheme: dark) {\n ")?;
    push_ground(out, dark)?;
    out.push_str("}\n")
}

/// Appends the rules that put the themes' grounds behind a whole page with classes.
pub fn push_grounds_of(
    rt: &(impl AllocGlobal + Files),
    assets: &mut Assets,
    asked: &Asked<'_, '_>,
    theme: &Theme,
    out: &mut String,
) -> Result<(), AssetsError> {
    if asked.light.is_none() && asked.dark.is_none() {
        return Ok(push_ground(out, theme)?);
    }
    let light = theme_of(rt, assets, asked.light.unwrap_or("dawn"))?;
    let dark = theme_of(rt, assets, asked.dark.unwrap_or("dusk"))?;
    Ok(push_grounds(out, &light, &dark)?)
}

/// A document of these pages, with the sheet of their classes where they have classes.
pub fn whole(
    alloc: Global,
    theme: &Theme,
    title: &str,
    classes: Option<&str>,
    body: &str,
) -> Result<String, AllocError> {
    let mut sheet = String::from_str(alloc, PAGE_SHEET)?;
    match classes {
        Some(classes) => sheet.push_str(classes)?,
        None => {
            push_ground(&mut sheet, theme)?;
            sheet.push_str(LINE_SHEET)?;
        }
    }
    document(alloc, title, sheet.as_str(), body)
}
