//! What there is to choose from.
use std::alloc::{AllocError, Global};
use syntect::assets::{Assets, AssetsError, Format};
use syntect::highlighting::Theme;
use syntect::parsing::SyntaxReference;
use vulsangi_words::form::Form;

/// What each theme is shown by.
const SAMPLE: &str = "    /// The moons that are up.
    fn up(moons: &[Moon], hour: f64) -> usize {
        moons.iter().filter(|m| m.height(hour) > 0.5).count() // \"all\"
    }
";

/// A language with its file extensions.
fn push_language(out: &mut String, syntax: &SyntaxReference) -> Result<(), AllocError> {
    write!(out, "{:<24}", syntax.name.as_str())?;
    for extension in syntax.file_extensions.as_slice() {
        write!(out, " {}", extension.as_str())?;
    }
    out.push('\n')
}

/// The languages, each with its file extensions.
pub fn languages(alloc: Global, assets: &Assets) -> Result<String, AllocError> {
    let mut out = String::new(alloc);
    for syntax in assets.set.syntaxes() {
        if !syntax.hidden {
            push_language(&mut out, syntax)?;
        }
    }
    Ok(out)
}

/// A theme's name, and in colours a sample of it.
fn push_theme(
    alloc: Global,
    out: &mut String,
    assets: &Assets,
    form: Form,
    name: &str,
    theme: &Theme,
) -> Result<(), AssetsError> {
    let (Form::Screen(colors), Some(syntax)) = (form, assets.set.find_syntax_by_token("rs")) else {
        return Ok(writeln!(out, "{name}")?);
    };
    let format = Format::Screen(colors);
    let shown = assets.show_in(alloc, SAMPLE, syntax, theme, format)?;
    Ok(writeln!(out, "\x1b[0;1m{name}\x1b[0m\n{}", shown.text)?)
}

/// The themes, each with a sample of it where there are colours.
pub fn themes(alloc: Global, assets: &Assets, form: Form) -> Result<String, AssetsError> {
    let mut out = String::new(alloc);
    for (name, theme) in assets.themes.themes.as_map().iter() {
        push_theme(alloc, &mut out, assets, form, name.as_str(), theme)?;
    }
    Ok(out)
}
