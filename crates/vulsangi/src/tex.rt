//! Texts for LaTeX.
use crate::show::Job;
use std::alloc::{AllocError, Global};
use syntect::assets::{AssetsError, PlainLine};
use syntect::easy::HighlightLines;
use syntect::highlighting::{Color, Style, Theme};
use syntect::parsing::SyntaxReference;
use syntect::util::{LinesWithEndings, as_latex_escaped};

/// What stands before the document. In `Verbatim` only the backslash and braces have a meaning, as
/// in the texts that are made for LaTeX; a double backslash, which is written for one, is made to
/// show one. A comma keeps its own meaning there, since colours have commas.
const PREAMBLE: &str = r"\documentclass{article}
\usepackage[T1]{fontenc}
\usepackage[utf8]{inputenc}
\usepackage[margin=2cm]{geometry}
\usepackage{xcolor}
\usepackage{fancyvrb}
\makeatletter
\def\verbatim@nolig@list{\do\`\do\<\do\>\do\'\do\-}
\makeatother
\fvset{formatcom={\protected\def\\{\char92 }}}
\begin{document}
";

/// What opens the lines of a text.
const OPENING: &str = "\\begin{Verbatim}[commandchars=\\\\\\{\\},fontsize=\\small]\n";

/// What closes them.
const CLOSING: &str = "\\end{Verbatim}\n";

/// Appends a character of a heading.
fn push_char(out: &mut String, c: char) -> Result<(), AllocError> {
    match c {
        '\\' => out.push_str("\\textbackslash{}"),
        '~' => out.push_str("\\textasciitilde{}"),
        '^' => out.push_str("\\textasciicircum{}"),
        '{' | '}' | '$' | '&' | '#' | '_' | '%' => {
            out.push('\\')?;
            out.push(c)
        }
        c => out.push(c),
    }
}

/// Appends the heading of a file.
pub fn push_heading(out: &mut String, name: &str) -> Result<(), AllocError> {
    out.push_str("\\section*{\\texttt{")?;
    for c in name.chars() {
        push_char(out, c)?;
    }
    out.push_str("}}\n")
}

/// Appends the number of a line, where there are numbers.
fn push_number(out: &mut String, numbered: bool, number: u64) -> Result<(), AllocError> {
    if numbered {
        write!(out, "\\textcolor{{gray}}{{{number:>4}}}  ")
    } else {
        Ok(())
    }
}

/// Appends the pieces of a line without its newline, and a newline. A group of LaTeX doesn't go
/// past its line there.
fn push_line(alloc: Global, out: &mut String, pieces: &[(Style, &str)]) -> Result<(), AllocError> {
    let mut shown = Vec::new(alloc);
    for (style, text) in pieces {
        let text = text.strip_suffix('\n').unwrap_or(*text);
        if !text.is_empty() {
            shown.push((*style, text))?;
        }
    }
    if !shown.is_empty() {
        let line = as_latex_escaped(alloc, shown.as_slice())?;
        out.push_str(line.as_str())?;
    }
    out.push('\n')
}

/// Appends the lines of a text that are asked for, and answers the first plain one.
fn push_lines(
    alloc: Global,
    out: &mut String,
    job: &Job<'_, '_, '_>,
    syntax: &SyntaxReference,
    text: &str,
) -> Result<Option<PlainLine>, AssetsError> {
    let assets = job.assets;
    let asked = job.asked;
    let mut lines = HighlightLines::new(alloc, syntax, job.theme)?;
    let mut plain = None;
    for (number, line) in (1..u64::MAX).zip(LinesWithEndings::from(text)) {
        let read = lines.highlight_line_or_plain(alloc, line, &assets.set, &assets.limits);
        let (pieces, limit) = match read {
            Ok(read) => read,
            Err(e) => return Err(AssetsError::from(e)),
        };
        if let (None, Some(limit)) = (plain, limit) {
            plain = Some((number, limit));
        }
        if asked.shows(number) {
            push_number(out, asked.number, number)?;
            push_line(alloc, out, pieces.as_slice())?;
        }
    }
    Ok(plain)
}

/// Appends a text for LaTeX, and answers the first line of it that is shown plain.
pub fn push_text(
    alloc: Global,
    out: &mut String,
    job: &Job<'_, '_, '_>,
    syntax: &SyntaxReference,
    text: &str,
) -> Result<Option<PlainLine>, AssetsError> {
    out.push_str(OPENING)?;
    let plain = push_lines(alloc, out, job, syntax, text)?;
    out.push_str(CLOSING)?;
    Ok(plain)
}

/// A document of these texts on a theme's background.
pub fn document(alloc: Global, theme: &Theme, body: &str) -> Result<String, AllocError> {
    let Color { r, g, b, a: _ } = theme.settings.background.unwrap_or(Color::WHITE);
    format!(in alloc; "{PREAMBLE}\\pagecolor[RGB]{{{r},{g},{b}}}\n{body}\\end{{document}}\n")
}
