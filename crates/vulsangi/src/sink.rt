//! Where what is shown goes.
use std::alloc::Global;
use std::io;

/// Standard output, or a text that is kept for a document or a file.
#[derive(Drop)]
pub struct Sink {
    kept: Option<String>,
    is_new: bool,
}

impl Sink {
    /// Standard output, or a text that is kept.
    pub fn new(alloc: Global, keeps: bool) -> Sink {
        let kept = if keeps {
            Some(String::new(alloc))
        } else {
            None
        };
        Sink { kept, is_new: true }
    }

    /// Whether nothing was put here yet.
    pub fn is_new(&self) -> bool {
        self.is_new
    }

    /// Whether what is put here is kept.
    pub fn keeps(&self) -> bool {
        self.kept.is_some()
    }

    /// Writes bytes to standard output as they are.
    pub fn pass(&mut self, rt: &impl Print, bytes: &[u8]) -> io::Result<()> {
        self.is_new &= bytes.is_empty();
        rt.write_all(bytes)
    }

    /// Puts a text after what was put before.
    pub fn put(&mut self, rt: &impl Print, text: &str) -> io::Result<()> {
        if text.is_empty() {
            return Ok(());
        }
        self.is_new = false;
        match &mut self.kept {
            Some(kept) => Ok(kept.push_str(text)?),
            None => print!(rt; "{text}"),
        }
    }

    /// What was kept.
    pub fn into_text(self) -> Option<String> {
        self.kept
    }
}
