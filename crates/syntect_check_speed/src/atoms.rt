//! How long a repository takes for new atoms.
use crate::below::scope::repository::ScopeRepository;
use std::alloc::{AllocError, Global};
use std::io;
use std::process::ExitCode;
use std::rt::Clock;
use std::time::Instant;

/// How many atoms are timed.
const TIMED_ATOMS: u32 = 60000;

/// The texts of the atoms.
fn texts(alloc: Global) -> Result<Vec<String>, AllocError> {
    let mut texts = Vec::new(alloc);
    for i in 0..TIMED_ATOMS {
        texts.push(format!(in alloc; "{i}")?)?;
    }
    Ok(texts)
}

/// Builds scopes of new atoms, and prints how long it took. The status is 1 if one was refused.
pub fn time_atoms(rt: &(impl Print + AllocGlobal + Clock)) -> io::Result<ExitCode> {
    let alloc = rt.alloc();
    let texts = texts(alloc)?;
    let mut repository = ScopeRepository::new(alloc);
    let start = Instant::now(rt)?;
    let mut refused = false;
    for text in &texts {
        refused |= repository.build(text.as_str()).is_err();
    }
    let time = start.elapsed(rt)?.as_micros();
    println!(rt; "{TIMED_ATOMS} atoms: {time} us")?;
    Ok(ExitCode::from(u8::from(refused)))
}
