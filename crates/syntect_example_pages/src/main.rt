//! Pages to look at: a text as HTML with classes, the style sheet of two themes for light and dark
//! screens, and a text for LaTeX.
//!
//! `scripts/pages.sh` makes the pages of `examples/pages` with it.
#![tactic(auto)]

mod latex;
mod loading;
mod web;

use crate::latex::write_latex;
use crate::web::{write_page, write_sheet};
use std::process::ExitCode;
use std::rt::Files;
use std::{env, io};

const USAGE: &str =
    "usage: syntect_example_pages html GRAMMARS TEXT SHEET | css LIGHT DARK | tex GRAMMARS THEME TEXT";

/// Adds what the words ask for. None where they ask for nothing, where a file is not as it is
/// wanted, and where memory runs out.
fn write_asked(rt: &(impl AllocGlobal + Files), words: &[String], out: &mut String) -> Option<()> {
    match words {
        [what, grammars, text, sheet] if what.as_str() == "html" => {
            write_page(rt, grammars.as_str(), text.as_str(), sheet.as_str(), out)
        }
        [what, light, dark] if what.as_str() == "css" => {
            write_sheet(rt, light.as_str(), dark.as_str(), out)
        }
        [what, grammars, theme, text] if what.as_str() == "tex" => {
            write_latex(rt, grammars.as_str(), theme.as_str(), text.as_str(), out)
        }
        _ => None,
    }
}

fn main(rt: HostRuntime) -> io::Result<ExitCode> {
    let words: Vec<String> = env::args(&rt)?.skip(1).collect(rt.alloc())?;
    let mut out = String::new(rt.alloc());
    if write_asked(&rt, words.as_slice(), &mut out).is_none() {
        eprintln!(rt; "{USAGE}")?;
        return Ok(ExitCode::from(2));
    }
    print!(rt; "{out}")?;
    Ok(ExitCode::from(0))
}
