//! `syncat FOLDER THEME html|term FILE` writes a text file, highlighted, to standard output.
//!
//! FOLDER has the grammars and THEME is a theme. The text is a page of HTML, or lines for a
//! terminal of 24 bit colours. The status is 0; after wrong words it is 2, and after any other
//! fault 1, with a line that tells of it on standard error.
#![tactic(auto)]

use std::process::ExitCode;
use std::{env, io};
use syntect_cat::run;

fn main(rt: HostRuntime) -> io::Result<ExitCode> {
    // words that are no text are as good as none
    let words = match env::args(&rt) {
        Ok(words) => words.skip(1).collect(rt.alloc())?,
        Err(_) => Vec::new(rt.alloc()),
    };
    let status = run(
        &rt,
        rt.alloc(),
        words.as_slice(),
        &mut rt.stdout(),
        &mut rt.stderr(),
    );
    Ok(ExitCode::from(status))
}
