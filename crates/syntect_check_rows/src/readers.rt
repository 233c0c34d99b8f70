//! The examples about pages and themes of what a reader gives.
use crate::below::base::loading::{LoadingError, SettingsError};
use crate::below::parsing::parser::ParsingError;
use crate::below::parsing::syntax_definition::SyntaxDefinition;
use crate::below::parsing::syntax_set::{SyntaxSet, SyntaxSetBuilder};
use crate::below::scope::repository::ScopeRepository;
use crate::below::theme::theme::Theme;
use crate::below::theme_files::theme_set::ThemeSet;
use std::alloc::Global;
use std::io;
use std::io::{BufRead, Read};
use syntect_easy::Error;
use syntect_easy::html::highlighted_html_for_reader;

const GRAMMAR: &str =
    "name: T\nscope: source.t\ncontexts: {main: [{match: x, push: 'scope:source.none'}]}\n";

const TWO_LINES: &str =
    "<pre style=\"background-color:#ffffff;\">\n<span style=\"color:#000000;\">a\n</span><span style=\"color:#000000;\">b</span></pre>\n";

/// A reader that gives bytes, so many at a time at most, and may fail where they end.
#[derive(Clone, Copy)]
struct Given<'a> {
    bytes: &'a [u8],
    width: usize,
    fails: bool,
}

/// A reader that fails where its bytes end.
fn failing(bytes: &[u8]) -> Given<'_> {
    Given {
        bytes,
        width: usize::MAX,
        fails: true,
    }
}

/// A reader that gives one byte at a time.
fn dribbling(bytes: &[u8]) -> Given<'_> {
    Given {
        bytes,
        width: 1,
        fails: false,
    }
}

impl Read for Given<'_> {
    fn read(&mut self, buf: &mut [u8]) -> io::Result<usize> {
        let mut front = self.fill_buf()?;
        let count = front.read(buf)?;
        self.consume(count);
        Ok(count)
    }
}

impl BufRead for Given<'_> {
    fn fill_buf(&mut self) -> io::Result<&[u8]> {
        if self.bytes.is_empty() && self.fails {
            return Err(broken());
        }
        Ok(self.bytes.split_at(self.bytes.len().min(self.width)).0)
    }

    fn consume(&mut self, amount: usize) {
        self.bytes = self.bytes.get(amount..).unwrap_or(&[]);
    }
}

/// The fault of a reader that fails.
fn broken() -> io::Error {
    io::Error::from(io::ErrorKind::BrokenPipe)
}

/// What a reader's page is expected to be.
#[derive(Clone, Copy)]
enum Outcome {
    Page(&'static str),
    Io,
    /// A line names a context that is not there.
    Unresolved,
}

/// Whether a reader's bytes come to this.
fn comes_to<R: BufRead + Drop>(
    alloc: Global,
    reader: R,
    set: &SyntaxSet,
    outcome: Outcome,
) -> Option<bool> {
    let syntax = set.syntaxes().first()?;
    let theme = Theme::default(alloc);
    let page = highlighted_html_for_reader(alloc, reader, set, syntax, &theme);
    Some(match (page, outcome) {
        (Ok(page), Outcome::Page(wanted)) => page.as_str() == wanted,
        (Err(Error::Io(_)), Outcome::Io) => true,
        (
            Err(Error::ParsingError(ParsingError::UnresolvedContextReference(_))),
            Outcome::Unresolved,
        ) => true,
        _ => false,
    })
}

/// The set of a grammar that pushes a context which is not there at each `x`.
fn leading_out(alloc: Global) -> Option<SyntaxSet> {
    let mut repository = ScopeRepository::new(alloc);
    let loaded = SyntaxDefinition::load_from_str(alloc, GRAMMAR, true, None, &mut repository);
    let mut builder = SyntaxSetBuilder::new(alloc);
    builder.add(loaded.ok()?).ok()?;
    builder.build(alloc, &mut repository).ok()
}

/// Readers that give all, at once or a byte at a time, that fail, and whose bytes are no text.
pub fn readers(alloc: Global) -> Option<bool> {
    let set = leading_out(alloc)?;
    let whole: &[u8] = b"a\nb";
    let no_text: &[u8] = b"\xff\n";
    let mut holds = comes_to(alloc, whole, &set, Outcome::Page(TWO_LINES))?;
    holds &= comes_to(alloc, dribbling(whole), &set, Outcome::Page(TWO_LINES))?;
    holds &= comes_to(alloc, failing(b"x"), &set, Outcome::Io)?;
    holds &= comes_to(alloc, no_text, &set, Outcome::Io)?;
    Some(holds)
}

/// Faults after a line: of several the first in the order of lines.
pub fn faults_behind_lines(alloc: Global) -> Option<bool> {
    let set = leading_out(alloc)?;
    let late: &[u8] = b"a\n\xff\n";
    let refused: &[u8] = b"ax\n\xff\n";
    let mut holds = comes_to(alloc, failing(b"a\n"), &set, Outcome::Io)?;
    holds &= comes_to(alloc, late, &set, Outcome::Io)?;
    holds &= comes_to(alloc, refused, &set, Outcome::Unresolved)?;
    holds &= comes_to(alloc, failing(b"x\n"), &set, Outcome::Unresolved)?;
    Some(holds)
}

/// A theme that does not end.
const HALF_A_THEME: &str = "{\"settings\":[{\"set";

/// A theme that ends.
const A_THEME: &str = "{\"settings\":[{\"settings\":{}}]}";

/// Readers of a theme: one fails where its bytes end, one ends there, one gives a byte at a time.
pub fn theme_readers(alloc: Global) -> Option<bool> {
    let mut repository = ScopeRepository::new(alloc);
    let mut bytes = HALF_A_THEME.as_bytes();
    let mut faulty = failing(bytes);
    let failed = ThemeSet::load_from_reader(alloc, &mut faulty, &mut repository);
    let ended = ThemeSet::load_from_reader(alloc, &mut bytes, &mut repository);
    let mut slow = dribbling(A_THEME.as_bytes());
    let whole = ThemeSet::load_from_reader(alloc, &mut slow, &mut repository);
    let is_io = matches!(failed, Err(LoadingError::Io(_)));
    let is_json = matches!(ended, Err(LoadingError::ReadSettings(SettingsError::Json)));
    Some(is_io & is_json & whole.is_ok())
}
