//! Lines that are read one by one.
ghost use Rattle.std.specs.Prelude.{◌≡◌, ◌+◌, ◌++◌, ℕ, List, IfOk, IfErr, IfSome, OnOk, vec_len, Option as AnOption};
ghost use Rattle.std.specs.Io.{StartsWith, StopsAt, appended_bytes};
ghost use Rattle.std.specs.Io.BufRead.{DropsThrough, take_through};
ghost use Rattle.std.specs.Io.KnownBytes.{IsAtEnd};
ghost use Rattle.std.specs.declared.io.Error.{Error as AnError};

use std::io;
use std::io::BufRead;

/// What gives lines. Code for any such reader knows nothing of `failed`, so that only a call can
/// show that reading failed with a fault.
pub trait ReadLines {
    // The bytes ahead, where they are known.
    ghost ahead: { Self → AnOption (List ℕ) };

    // A read answered this fault.
    ghost failed: { Self → AnError → Type 0 };

    /// Appends the next line, up to and with its line feed. It answers how many bytes that is: none
    /// where nothing is left.
    fn read_next(&mut self, line: &mut Vec<u8>) -> io::Result<usize>
        ensures count { IfOk result (λ n. vec_len line.new ≡ vec_len line.old + n) }
        ensures appends { StartsWith line.new.items line.old.items }
        ensures stops { StopsAt (appended_bytes line.old.items line.new.items) 10 }
        ensures bytes { OnOk result (IfSome (ahead self.old)
            (λ xs. line.new.items ≡ line.old.items ++ take_through 10 xs)) }
        ensures rest { OnOk result (DropsThrough (ahead self.old) (ahead self.new) 10) }
        ensures end { IfOk result (λ n. n ≡ 0 → IsAtEnd (ahead self.old)) }
        ensures err { IfErr result (failed self.old) }
        ensures same { (e : AnError) → failed self.new e → failed self.old e };
}

/// Any buffered reader, of which the standard library doesn't tell which read failed.
impl<R: BufRead> ReadLines for R {
    ghost ahead = { λ reader. R.Read.remaining reader };

    ghost failed = { λ reader e. Unit {0} };

    fn read_next(&mut self, line: &mut Vec<u8>) -> io::Result<usize> {
        self.read_until(b'\n', line)
    }
}
