//! Files and folders, by calls whose answers clauses can name.
ghost use Rattle.std.specs.Prelude.{◌≡◌, ◌+◌, ◌++◌, ℕ, List, [], length, IfOk, IfErr, IfSome, OnOk, IsUtf8, string_bytes, vec_len};
ghost use Rattle.std.specs.Io.{StartsWith, StopsAt, appended_bytes};
ghost use Rattle.std.specs.Io.BufRead.{DropsThrough, take_through};
ghost use Rattle.std.specs.Io.Buffered.{reader_buffer, reader_remaining};
ghost use Rattle.std.specs.Io.KnownBytes.{IsAtEnd, Keeps};
ghost use Rattle.std.specs.IoError.{error_kind};
ghost use Rattle.syntect_base.specs.Trees.{Answer, RefusesText, RefusesLine, has_bytes, not_read, begins, not_begun, opened, not_opened, not_read_on, listed, not_listed, stands, not_told, written, not_written};

use std::alloc::Global;
use std::io::{BufRead, BufReader, ErrorKind, Read};
use std::rt::Files;
use std::{fs, io};

/// What stands at a path.
#[derive(Clone, Copy)]
pub enum Kind {
    File,
    Folder,
    /// Neither, or a link to a folder.
    Other,
}

/// A tree of files and folders. Code for any tree knows nothing of `told`, so that only a call can
/// show that it holds of an answer.
pub trait Tree {
    type File: Read + Drop;

    // What calls on the tree told.
    ghost told: { Self → Answer → Type 0 };

    /// The bytes of a file.
    fn read_file(&self, alloc: Global, path: &str) -> io::Result<Vec<u8>>
        ensures ok { IfOk result (λ bytes. told self.now (has_bytes path.now bytes.items)) }
        ensures err { IfErr result (λ e. told self.now (not_read path.now e)) };

    /// The first line of a file, with its line feed if it has one.
    fn read_first_line(&self, alloc: Global, path: &str) -> io::Result<Vec<u8>>
        ensures ok { IfOk result (λ line. told self.now (begins path.now line.items)) }
        ensures err { IfErr result (λ e. told self.now (not_begun path.now e)) };

    /// A file, opened to be read from its beginning on.
    fn open_reader(&self, path: &str) -> io::Result<Self::File>
        ensures ok { IfOk result
            (λ file. told self.now (opened path.now (Self.File.remaining file))) }
        ensures err { IfErr result (λ e. told self.now (not_opened path.now e)) };

    /// Appends the next line of a file that was opened at this path, up to and with its line feed.
    /// It answers how many bytes that is: none where nothing is left.
    fn read_line(
        &self,
        path: &str,
        reader: &mut BufReader<Self::File>,
        line: &mut Vec<u8>,
    ) -> io::Result<usize>
        ensures count { IfOk result (λ n. vec_len line.new ≡ vec_len line.old + n) }
        ensures appends { StartsWith line.new.items line.old.items }
        ensures stops { StopsAt (appended_bytes line.old.items line.new.items) 10 }
        ensures bytes { OnOk result (IfSome (reader_remaining Self.File.remaining reader.old)
            (λ xs. line.new.items ≡ line.old.items ++ take_through 10 xs)) }
        ensures rest { OnOk result (DropsThrough
            (reader_remaining Self.File.remaining reader.old)
            (reader_remaining Self.File.remaining reader.new) 10) }
        ensures end { IfOk result
            (λ n. n ≡ 0 → IsAtEnd (reader_remaining Self.File.remaining reader.old)) }
        ensures err { IfErr result (λ e. told self.now (not_read_on path.now e)) };

    /// Reads on in a file that was opened at this path until the reader's buffer has bytes, or
    /// nothing is left. No byte is taken.
    fn fill(&self, path: &str, reader: &mut BufReader<Self::File>) -> io::Result<()>
        ensures keeps { Keeps (reader_remaining Self.File.remaining reader.old)
            (reader_remaining Self.File.remaining reader.new) }
        ensures some { OnOk result (IfSome (reader_remaining Self.File.remaining reader.old)
            (λ xs. length (reader_buffer reader.new) ≡ 0 → xs ≡ [])) }
        ensures err { IfErr result (λ e. told self.now (not_read_on path.now e)) };

    /// The names in a folder: their bytes, and a NUL after each.
    fn list_folder(&self, alloc: Global, path: &str) -> io::Result<Vec<u8>>
        ensures ok { IfOk result (λ bytes. told self.now (listed path.now bytes.items)) }
        ensures err { IfErr result (λ e. told self.now (not_listed path.now e)) };

    /// What stands at a path. A link is what it leads to, but that no link is a folder.
    fn kind_at(&self, path: &str) -> io::Result<Kind>
        ensures ok { IfOk result (λ kind. told self.now (stands path.now kind)) }
        ensures err { IfErr result (λ e. told self.now (not_told path.now e)) };

    /// Writes a file of these bytes, in place of what it held.
    fn write_file(&self, path: &str, bytes: &[u8]) -> io::Result<()>
        ensures ok { OnOk result (told self.now (written path.now bytes.now)) }
        ensures err { IfErr result (λ e. told self.now (not_written path.now e)) };
}

/// The files and folders of the standard library, which tells nothing of what they hold.
impl<T: Files> Tree for T {
    type File = T::File;

    ghost told = { λ tree answer. Unit {0} };

    fn read_file(&self, alloc: Global, path: &str) -> io::Result<Vec<u8>> {
        let mut file = fs::open(self, path)?;
        let mut bytes = Vec::new(alloc);
        file.read_to_end(&mut bytes)?;
        Ok(bytes)
    }

    fn read_first_line(&self, alloc: Global, path: &str) -> io::Result<Vec<u8>> {
        let mut reader = BufReader::new(alloc, fs::open(self, path)?)?;
        let mut line = Vec::new(alloc);
        reader.read_until(b'\n', &mut line)?;
        Ok(line)
    }

    fn open_reader(&self, path: &str) -> io::Result<T::File> {
        fs::open(self, path)
    }

    fn read_line(
        &self,
        _path: &str,
        reader: &mut BufReader<T::File>,
        line: &mut Vec<u8>,
    ) -> io::Result<usize> {
        reader.read_until(b'\n', line)
    }

    fn fill(&self, _path: &str, reader: &mut BufReader<T::File>) -> io::Result<()> {
        match reader.fill_buf() {
            Ok(_) => Ok(()),
            Err(e) => Err(e),
        }
    }

    fn list_folder(&self, alloc: Global, path: &str) -> io::Result<Vec<u8>> {
        let mut folder = String::from_str(alloc, path)?;
        if !path.is_empty() && !path.ends_with('/') {
            folder.push_str("/")?;
        }
        let mut reader = BufReader::new(alloc, self.open_dir(folder.as_str())?)?;
        let mut bytes = Vec::new(alloc);
        reader.read_to_end(&mut bytes)?;
        Ok(bytes)
    }

    fn kind_at(&self, path: &str) -> io::Result<Kind> {
        let own = fs::symlink_metadata(self, path)?;
        if own.is_file() {
            return Ok(Kind::File);
        }
        if own.is_dir() {
            return Ok(Kind::Folder);
        }
        if own.is_symlink() && fs::metadata(self, path)?.is_file() {
            return Ok(Kind::File);
        }
        Ok(Kind::Other)
    }

    fn write_file(&self, path: &str, bytes: &[u8]) -> io::Result<()> {
        fs::write(self, path, bytes)
    }
}

/// The text of bytes. Those that are not UTF-8 are refused as the standard library does.
fn text_of(bytes: Vec<u8>) -> io::Result<String>
    ensures ok { IfOk result (λ text. string_bytes text ≡ bytes.items) }
    ensures kind { IfErr result (λ e. error_kind e ≡ ErrorKind.InvalidData) }
    ensures err { IfErr result (λ e. ¬ (IsUtf8 bytes.items)) }
{
    match String::from_utf8(bytes) {
        Ok(text) => Ok(text),
        Err(_) => Err(io::Error::new(ErrorKind::InvalidData, "stream did not contain valid UTF-8")),
    }
}

/// The text of a file. Bytes that are not UTF-8 are refused as the standard library does.
pub fn read_text<T: Tree>(tree: &T, alloc: Global, path: &str) -> io::Result<String>
    ensures ok { IfOk result (λ text. T.told tree.now (has_bytes path.now (string_bytes text))) }
    ensures err { IfErr result (RefusesText (T.told tree.now) path.now) }
{
    let bytes = match tree.read_file(alloc, path) {
        Ok(bytes) => bytes,
        Err(e) => return Err(e),
    };
    match text_of(bytes) {
        Ok(text) => Ok(text),
        Err(e) => Err(e),
    }
}

/// The first line of a file, with its line feed if it has one. One that is not UTF-8 is refused as
/// the standard library does.
pub fn first_line<T: Tree>(tree: &T, alloc: Global, path: &str) -> io::Result<String>
    ensures ok { IfOk result (λ line. T.told tree.now (begins path.now (string_bytes line))) }
    ensures err { IfErr result (RefusesLine (T.told tree.now) path.now) }
{
    let bytes = match tree.read_first_line(alloc, path) {
        Ok(bytes) => bytes,
        Err(e) => return Err(e),
    };
    match text_of(bytes) {
        Ok(line) => Ok(line),
        Err(e) => Err(e),
    }
}
