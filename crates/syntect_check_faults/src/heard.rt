//! What calls show, heard and not printed.
use std::alloc::Allocator;
use std::cell::Cell;
use std::fmt::Display;
use std::fs::{Metadata, OpenOptions};
use std::io;
use std::rt::Files;

/// What answers say where there is no memory.
const WANTS: [&str; 2] = ["Memory", "AllocError"];

/// Another handle's memory and files, with an ear in place of its output: it counts the answers
/// that it hears, and those that say that memory ran out.
#[derive(Drop)]
pub struct Heard<'r, R> {
    rt: &'r R,
    answers: Cell<u32>,
    wants: Cell<u32>,
}

impl<'r, R> Heard<'r, R> {
    /// One that has heard nothing yet.
    pub fn new(rt: &'r R) -> Heard<'r, R> {
        Heard {
            rt,
            answers: Cell::new(0),
            wants: Cell::new(0),
        }
    }

    fn hear(&self, told: &str) {
        if !told.starts_with("answer ") {
            return;
        }
        self.answers.set(self.answers.get().saturating_add(1));
        if WANTS.iter().any(|want| told.contains(*want)) {
            self.wants.set(self.wants.get().saturating_add(1));
        }
    }

    /// Whether it heard answers, and none that memory ran out.
    pub fn has_answers(&self) -> bool {
        self.answers.get() > 0 && self.wants.get() == 0
    }
}

impl<R: AllocGlobal> Alloc for Heard<'_, R> {
    type A = R::A;

    fn alloc(&self) -> R::A {
        self.rt.alloc()
    }
}

impl<R: AllocGlobal> Print for Heard<'_, R> {
    fn print<D: Display + Drop>(&self, value: D) -> io::Result<()> {
        self.println(value)
    }

    fn println<D: Display + Drop>(&self, value: D) -> io::Result<()> {
        let told = format!(in self.rt.alloc(); "{value}")?;
        self.hear(told.as_str());
        Ok(())
    }

    fn write_all(&self, _bytes: &[u8]) -> io::Result<()> {
        Ok(())
    }
}

impl<R: Files> Files for Heard<'_, R> {
    type File = R::File;

    type Dir = R::Dir;

    fn open_file(&self, how: &OpenOptions, path: &str) -> io::Result<R::File> {
        self.rt.open_file(how, path)
    }

    fn open_dir(&self, path: &str) -> io::Result<R::Dir> {
        self.rt.open_dir(path)
    }

    fn metadata(&self, path: &str) -> io::Result<Metadata> {
        self.rt.metadata(path)
    }

    fn symlink_metadata(&self, path: &str) -> io::Result<Metadata> {
        self.rt.symlink_metadata(path)
    }

    fn copy(&self, from: &str, to: &str) -> io::Result<u64> {
        self.rt.copy(from, to)
    }

    fn rename(&self, from: &str, to: &str) -> io::Result<()> {
        self.rt.rename(from, to)
    }

    fn remove_file(&self, path: &str) -> io::Result<()> {
        self.rt.remove_file(path)
    }

    fn create_dir(&self, path: &str) -> io::Result<()> {
        self.rt.create_dir(path)
    }

    fn remove_dir(&self, path: &str) -> io::Result<()> {
        self.rt.remove_dir(path)
    }

    fn remove_dir_all<B: Allocator>(&self, alloc: B, path: &str) -> io::Result<()> {
        self.rt.remove_dir_all(alloc, path)
    }
}
