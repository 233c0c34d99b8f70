//! `syntect_example_pager FOLDER THEME FILE` shows a text file in a terminal, highlighted by the
//! grammars of a folder and a theme.
#![tactic(auto)]

use anyhow::bail;
use std::env;
use std::path::Path;
use std::rt::Files;
use syntect::assets::{Assets, AssetsError, Colors, Format};

/// The text that shows a file. What of the folder can't be loaded is told on standard error, and
/// so is the first line that costs too much.
fn shown(
    rt: &(impl AllocGlobal + Eprint + Files),
    folder: &str,
    theme: &str,
    path: &str,
) -> Result<String, AssetsError> {
    let (mut assets, told) = Assets::what_loads(rt, rt.alloc(), Path::new(folder))?;
    for line in told.as_slice() {
        eprintln!(rt; "{line}")?;
    }
    let theme = assets.theme_in(rt, rt.alloc(), Path::new(theme))?;
    let format = Format::Screen(Colors::Bits24);
    let shown = assets.show_file(rt, rt.alloc(), Path::new(path), &theme, format)?;
    if let Some((line, limit)) = shown.plain {
        eprintln!(rt; "{path}:{line}: shown plain: {limit}")?;
    }
    Ok(shown.text)
}

fn main(rt: HostRuntime) -> anyhow::Result<()> {
    let words: Vec<String> = env::args(&rt)?.skip(1).collect(rt.alloc())?;
    let [folder, theme, path] = words.as_slice() else {
        bail!("usage: syntect_example_pager FOLDER THEME FILE");
    };
    match shown(&rt, folder.as_str(), theme.as_str(), path.as_str()) {
        Ok(text) => print!(rt; "{text}")?,
        Err(e) => {
            eprintln!(rt; "{e:?}")?;
            bail!("nothing is shown");
        }
    }
    Ok(())
}
