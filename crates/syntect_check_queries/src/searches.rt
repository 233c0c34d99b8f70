//! How long searches take.
use std::io;
use std::process::ExitCode;
use std::rt::Clock;
use std::time::Instant;
use syntect_regex::regex::Regex;
use syntect_regex::region::Region;

/// How many characters the text has that is searched.
const LENGTH: usize = 100_000;

/// How often it is searched.
const ROUNDS: u32 = 100;

/// The patterns: a stretch over the whole text, and one that is tried at each place in vain.
const PATTERNS: [&str; 2] = ["[a-z]+", "b"];

/// The letter `a`, again and again.
fn letters(rt: &impl AllocGlobal) -> io::Result<String> {
    let mut text = String::new(rt.alloc());
    for _ in 0..LENGTH {
        text.push('a')?;
    }
    Ok(text)
}

/// Searches a text again and again with one region, and prints the time a character.
fn timed(rt: &(impl Print + AllocGlobal + Clock), pattern: &str, text: &str) -> io::Result<()> {
    let alloc = rt.alloc();
    let regex = Regex::new(alloc, String::from_str(alloc, pattern)?)?;
    let mut region = Region::new(alloc);
    let start = Instant::now(rt)?;
    let mut found = 0u32;
    for _ in 0..ROUNDS {
        if regex.search_into(text, 0, text.len(), &mut region)? {
            found = found.saturating_add(1);
        }
    }
    let nanos = start.elapsed(rt)?.as_nanos();
    let characters = u128::from(ROUNDS) * LENGTH as u128;
    let hundredths = nanos.saturating_mul(100) / characters;
    let (whole, part) = (hundredths / 100, hundredths % 100);
    println!(rt; "{pattern}: {whole}.{part:02} ns a character, found {found} times of {ROUNDS}")
}

/// Prints how long the searches take.
pub fn time_searches(rt: &(impl Print + AllocGlobal + Clock)) -> io::Result<ExitCode> {
    let text = letters(rt)?;
    for pattern in &PATTERNS {
        timed(rt, pattern, text.as_str())?;
    }
    Ok(ExitCode::SUCCESS)
}
