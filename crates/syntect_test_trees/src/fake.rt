//! A tree of files and folders in memory.
ghost use Rattle.std.specs.Prelude.{◌≡◌, ◌==◌, ◌≤◌, ℕ, List, Option, Some, IfOk, IfErr, length};
ghost use Rattle.std.specs.Io.BufRead.{take_through};
ghost use Rattle.std.specs.IoError.{error_kind};
ghost use Rattle.std.specs.List.{position_or_len};
ghost use Rattle.syntect_test_trees.specs.Fakes.{Tells, kind_of, thing_at};

use crate::below::base::tree::{Kind, Tree};
use std::alloc::Global;
use std::io;
use std::io::{BufRead, BufReader, ErrorKind, Read};

/// What stands at a path.
#[derive(Clone, Copy)]
pub enum Thing {
    /// A file of these bytes.
    File(&'static [u8]),
    /// A folder of these names, with a NUL after each.
    Folder(&'static [u8]),
    /// What was a file as it was looked at, and is gone as it is read.
    Gone,
    /// A folder that can't be listed.
    Shut,
    /// Neither a file nor a folder, or a link to a folder.
    Neither,
}

/// Paths, and what stands there.
#[derive(Clone, Copy)]
pub struct FakeTree<'a> {
    pub entries: &'a [(&'static str, Thing)],
    /// How many bytes a read of a file gives at most; one at least.
    pub width: usize,
}

/// A file that was opened.
#[derive(Clone, Copy)]
pub struct FakeFile {
    left: &'static [u8],
    width: usize,
}

impl Read for FakeFile {
    ghost use Rattle.std.specs.Prelude.{Some};

    ghost remaining = { λ file. Some file.left.now };

    fn read(&mut self, buf: &mut [u8]) -> io::Result<usize> {
        let most = self.width.max(1).min(buf.len());
        let mut left = self.left;
        let count = left.read(&mut buf[..most])?;
        self.left = left;
        Ok(count)
    }
}

/// A copy of bytes.
fn copy_of(alloc: Global, bytes: &[u8]) -> io::Result<Vec<u8>>
    ensures ok { IfOk result (λ copy. copy.items ≡ bytes.now) }
    ensures err { IfErr result (λ e. error_kind e ≡ ErrorKind.OutOfMemory) }
{
    match Vec::from_slice(alloc, bytes) {
        Ok(copy) => Ok(copy),
        Err(_) => Err(io::Error::from(ErrorKind::OutOfMemory)),
    }
}

/// How many bytes stand before the first line feed.
fn line_len(bytes: &[u8]) -> usize
    ensures value { result ≡ position_or_len (λ b. b == 10) bytes.now }
    ensures within { result ≤ length bytes.now }
{
    bytes.iter().take_while(|b| **b != b'\n').count()
}

/// The bytes up to and with the first line feed, or all of them.
fn first_of(bytes: &[u8]) -> &[u8]
    ensures { result.now ≡ take_through 10 bytes.now }
{
    let len = line_len(bytes);
    if len == bytes.len() {
        return bytes;
    }
    bytes.split_at(len + 1).0
}

/// What stands at a path.
#[tactic(auto, using(crate::proofs::FakeLaws::found_here, crate::proofs::FakeLaws::goes_on))]
fn thing_at(entries: &[(&'static str, Thing)], path: &str) -> Option<Thing>
    ensures { result ≡ thing_at path.now entries.now }
{
    for entry in entries {
        if entry.0 == path {
            return Some(entry.1);
        }
    }
    None
}

/// What is told of what stands somewhere.
fn kind_of(thing: Thing) -> Kind
    ensures { result ≡ kind_of thing }
{
    match thing {
        Thing::File(_) | Thing::Gone => Kind::File,
        Thing::Folder(_) | Thing::Shut => Kind::Folder,
        Thing::Neither => Kind::Other,
    }
}

impl<'a> Tree for FakeTree<'a> {
    type File = FakeFile;

    ghost use Rattle.syntect_test_trees.specs.Fakes.{Tells};

    ghost told = { λ tree answer. Tells tree answer };

    fn read_file(&self, alloc: Global, path: &str) -> io::Result<Vec<u8>> {
        match thing_at(self.entries, path) {
            Some(Thing::File(bytes)) => copy_of(alloc, bytes),
            _ => Err(io::Error::from(ErrorKind::NotFound)),
        }
    }

    fn read_first_line(&self, alloc: Global, path: &str) -> io::Result<Vec<u8>> {
        match thing_at(self.entries, path) {
            Some(Thing::File(bytes)) => copy_of(alloc, first_of(bytes)),
            _ => Err(io::Error::from(ErrorKind::NotFound)),
        }
    }

    fn open_reader(&self, path: &str) -> io::Result<FakeFile> {
        match thing_at(self.entries, path) {
            Some(Thing::File(bytes)) => Ok(FakeFile {
                left: bytes,
                width: self.width,
            }),
            _ => Err(io::Error::from(ErrorKind::NotFound)),
        }
    }

    fn read_line(
        &self,
        _path: &str,
        reader: &mut BufReader<FakeFile>,
        line: &mut Vec<u8>,
    ) -> io::Result<usize> {
        reader.read_until(b'\n', line)
    }

    fn fill(&self, _path: &str, reader: &mut BufReader<FakeFile>) -> io::Result<()> {
        match reader.fill_buf() {
            Ok(_) => Ok(()),
            Err(e) => Err(e),
        }
    }

    fn list_folder(&self, alloc: Global, path: &str) -> io::Result<Vec<u8>> {
        match thing_at(self.entries, path) {
            Some(Thing::Folder(names)) => copy_of(alloc, names),
            _ => Err(io::Error::from(ErrorKind::PermissionDenied)),
        }
    }

    fn kind_at(&self, path: &str) -> io::Result<Kind> {
        match thing_at(self.entries, path) {
            Some(thing) => Ok(kind_of(thing)),
            None => Err(io::Error::from(ErrorKind::NotFound)),
        }
    }

    fn write_file(&self, _path: &str, _bytes: &[u8]) -> io::Result<()> {
        Err(io::Error::from(ErrorKind::PermissionDenied))
    }
}
