//! The lines of a reader, one by one.
ghost use Rattle.std.specs.Prelude.{◌≡◌, ◌==◌, ◌<◌, ◌+◌, length, IfOk, IfErr};
ghost use Rattle.std.specs.Io.{StartsWith};
ghost use Rattle.std.specs.Io.BufRead.{take_through};
ghost use Rattle.std.specs.List.{position};
ghost use Rattle.std.specs.Str.{IsUtf8};
ghost use Rattle.std.specs.declared.io.Error.{Error as AnIoError};
ghost use Rattle.syntect_easy.specs.Files.{IsFirstOf};
ghost use Rattle.syntect_easy.specs.LineErrors.{error_of, lines_error};
ghost use Rattle.syntect_easy.specs.Pages.{IsReadFault, TellsNoText};
ghost use Rattle.syntect_easy.specs.Rows.{can_go_on, GivesNext};

use crate::below::base::lines::ReadLines;
use crate::below::base::tree::Tree;
use crate::below::scope::stack::ScopeError;
use std::io::{BufReader, Error as IoError, ErrorKind};
use std::{fmt, io, str};
use syntect_parsing::error::{Error, ParsingError};

/// Why a reader's lines are not shown: what `Error` has of it, without the refusals of loading.
/// The borrow checker covers no call that takes `FileLines` and answers an error which has a
/// `'static` text, as those of loading do.
#[derive(Drop)]
pub enum LinesError {
    /// Reading failed, or a line is not UTF-8.
    Io(io::Error),
    /// A line was not read.
    ParsingError(ParsingError),
    /// An operation on a stack of scopes was refused.
    ScopeError(ScopeError),
    /// A text could not be formatted.
    Fmt(fmt::Error),
    /// There was no memory.
    Memory,
}

impl LinesError {
    /// The refusal of a call as one of lines. Those of loading, which no line has, are lost.
    pub fn of(e: Error) -> LinesError
        ensures { result ≡ lines_error e }
    {
        match e {
            Error::Io(e) => LinesError::Io(e),
            Error::ParsingError(e) => LinesError::ParsingError(e),
            Error::ScopeError(e) => LinesError::ScopeError(e),
            Error::Fmt(e) => LinesError::Fmt(e),
            _ => LinesError::Memory,
        }
    }

    /// The same refusal of a call.
    pub fn into_error(self) -> Error
        ensures { result ≡ error_of self }
    {
        match self {
            LinesError::Io(e) => Error::Io(e),
            LinesError::ParsingError(e) => Error::ParsingError(e),
            LinesError::ScopeError(e) => Error::ScopeError(e),
            LinesError::Fmt(e) => Error::Fmt(e),
            LinesError::Memory => Error::Memory,
        }
    }
}

/// The lines of a file of a tree, which was opened at this path.
#[derive(Drop)]
pub struct FileLines<'a, T: Tree> {
    pub tree: &'a T,
    pub path: &'a str,
    pub reader: BufReader<T::File>,
}

impl<'a, T: Tree> ReadLines for FileLines<'a, T> {
    ghost use Rattle.std.specs.Io.Buffered.{reader_remaining};
    ghost use Rattle.syntect_easy.specs.syntect_base.Trees.{not_read_on};

    ghost ahead = { λ lines. reader_remaining T.File.Read.remaining lines.reader };

    ghost failed = { λ lines e. T.told lines.tree.now (not_read_on lines.path.now e) };

    fn read_next(&mut self, line: &mut Vec<u8>) -> io::Result<usize> {
        self.tree.read_line(self.path, &mut self.reader, line)
    }
}

/// Whether another line can follow this one, or the beginning: one without a newline at its end is
/// the last.
fn can_go_on(line: &[u8]) -> bool
    ensures { result ≡ can_go_on line.now }
{
    match line.last() {
        Some(b) => *b == b'\n',
        None => true,
    }
}

/// Reads the next line, up to and with its newline, in place of the one before it. False where
/// nothing is left, as after a line without a newline. `Io` where reading fails.
pub fn next_line<L: ReadLines>(lines: &mut L, line: &mut Vec<u8>) -> Result<bool, Error>
    ensures next { IfOk result
        (GivesNext (L.ahead lines.old) line.old.items (L.ahead lines.new) line.new.items) }
    ensures err { IfErr result (IsReadFault (L.failed lines.old)) }
    ensures same { (e : AnIoError) → L.failed lines.new e → L.failed lines.old e }
{
    if !can_go_on(line.as_slice()) {
        return Ok(false);
    }
    line.clear();
    let count = lines.read_next(line)?;
    Ok(count > 0)
}

/// The text of bytes that are UTF-8. `Io` where they are not.
pub fn text_of(bytes: &[u8]) -> Result<&str, Error>
    ensures ok { IfOk result (λ text. (text.now ≡ bytes.now) × IsUtf8 bytes.now) }
    ensures err { IfErr result (IsReadFault TellsNoText) }
    ensures not_utf8 { IfErr result (λ _. ¬ (IsUtf8 bytes.now)) }
{
    match str::from_utf8(bytes) {
        Ok(text) => Ok(text),
        Err(_) => Err(Error::Io(IoError::new(
            ErrorKind::InvalidData,
            "stream did not contain valid UTF-8",
        ))),
    }
}

/// The place of the first newline.
fn newline_in(bytes: &[u8]) -> Option<usize>
    ensures { result ≡ position (λ b. b == 10) bytes.now }
{
    bytes.iter().position(|b| *b == b'\n')
}

/// The bytes up to and with the first newline, or all of them.
fn up_to_newline(bytes: &[u8]) -> &[u8]
    ensures { result.now ≡ take_through 10 bytes.now }
{
    match newline_in(bytes) {
        Some(at) => bytes.split_at(at + 1).0,
        None => bytes,
    }
}

/// Bytes without their last character, if that isn't whole. Bytes that are no UTF-8 elsewhere stay
/// as they are.
fn whole_characters(bytes: &[u8]) -> &[u8]
    ensures front { StartsWith bytes.now result.now }
    ensures nearly { length bytes.now < length result.now + 4 }
    ensures whole { IsUtf8 bytes.now → result.now ≡ bytes.now }
{
    match str::from_utf8(bytes) {
        Ok(_) => bytes,
        Err(e) => match e.error_len() {
            Some(_) => bytes,
            None => bytes.split_at(e.valid_up_to()).0,
        },
    }
}

/// The first line of bytes that are the front of a text, without a character that is cut off where
/// the line goes on. `Io` where the line is not UTF-8.
pub fn first_line(bytes: &[u8]) -> Result<&str, Error>
    ensures line { IfOk result (λ line. IsUtf8 line.now) }
    ensures asked { IfOk result (λ line. IsFirstOf bytes.now line.now) }
    ensures err { IfErr result (IsReadFault TellsNoText) }
    ensures not_utf8 { IfErr result (λ _. ¬ (IsUtf8 (take_through 10 bytes.now))) }
{
    let line = up_to_newline(bytes);
    if line.len() < bytes.len() {
        text_of(line)
    } else {
        text_of(whole_characters(line))
    }
}
