//! A text for LaTeX, as a document of its own.
use crate::loading::{set_of, syntax_of, theme_of};
use std::alloc::Global;
use std::fs;
use std::rt::Files;
use syntect::easy::HighlightLines;
use syntect::highlighting::{Color, Style, Theme};
use syntect::parsing::{ScopeRepository, SyntaxSet};
use syntect::util::{LinesWithEndings, as_latex_escaped};

/// What stands before the document. In `Verbatim` only the backslash and braces have a meaning, as
/// in the texts that are made for LaTeX; a double backslash, which is written for one, is made to
/// show one. A comma keeps its own meaning there, since colours have commas.
const PREAMBLE: &str = r"\documentclass{article}
\usepackage[T1]{fontenc}
\usepackage[utf8]{inputenc}
\usepackage[margin=2cm]{geometry}
\usepackage{xcolor}
\usepackage{fancyvrb}
\makeatletter
\def\verbatim@nolig@list{\do\`\do\<\do\>\do\'\do\-}
\makeatother
\fvset{formatcom={\protected\def\\{\char92 }}}
\pagestyle{empty}
\begin{document}
";

/// Adds the command that gives the page a theme's background.
fn write_ground(theme: &Theme, out: &mut String) -> Option<()> {
    let Color { r, g, b, a: _ } = theme.settings.background.unwrap_or(Color::WHITE);
    writeln!(out, "\\pagecolor[RGB]{{{r},{g},{b}}}").ok()
}

/// Adds the pieces of a line without its newline, and a newline. A group of LaTeX doesn't go past
/// its line there.
fn write_line(alloc: Global, pieces: &[(Style, &str)], out: &mut String) -> Option<()> {
    let mut shown = Vec::new(alloc);
    for (style, text) in pieces {
        let text = text.strip_suffix('\n').unwrap_or(*text);
        if !text.is_empty() {
            shown.push((*style, text)).ok()?;
        }
    }
    if !shown.is_empty() {
        let line = as_latex_escaped(alloc, shown.as_slice()).ok()?;
        out.push_str(line.as_str()).ok()?;
    }
    out.push('\n').ok()
}

/// Adds the lines of a file.
fn write_lines(
    rt: &(impl AllocGlobal + Files),
    (set, theme): (&SyntaxSet, &Theme),
    path: &str,
    out: &mut String,
) -> Option<()> {
    let alloc = rt.alloc();
    let syntax = syntax_of(rt, alloc, set, path)?;
    let text = fs::read_to_string(rt, path).ok()?;
    let mut lines = HighlightLines::new(alloc, syntax, theme).ok()?;
    for line in LinesWithEndings::from(text.as_str()) {
        let pieces = lines.highlight_line(alloc, line, set).ok()?;
        write_line(alloc, pieces.as_slice(), out)?;
    }
    Some(())
}

/// Adds a document of a text under a theme.
pub fn write_latex(
    rt: &(impl AllocGlobal + Files),
    grammars: &str,
    theme: &str,
    path: &str,
    out: &mut String,
) -> Option<()> {
    let alloc = rt.alloc();
    let mut repository = ScopeRepository::new(alloc);
    let set = set_of(rt, alloc, grammars, &mut repository)?;
    let theme = theme_of(rt, alloc, theme, &mut repository)?;
    out.push_str(PREAMBLE).ok()?;
    write_ground(&theme, out)?;
    out.push_str("\\begin{Verbatim}[commandchars=\\\\\\{\\},fontsize=\\small]\n")
        .ok()?;
    write_lines(rt, (&set, &theme), path, out)?;
    out.push_str("\\end{Verbatim}\n\\end{document}\n").ok()
}
