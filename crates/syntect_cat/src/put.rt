//! Writing of whole texts.
ghost use Rattle.std.specs.Prelude.{OnOk, OnErr};
ghost use Rattle.std.specs.Io.KnownBytes.{Appends};
ghost use Rattle.syntect_cat.specs.Written.{Begins};

use std::io;
use std::io::{ErrorKind, Write};

/// Writes bytes, all of them. After a fault some of the first are written, perhaps none.
pub(crate) fn put<W: Write>(writer: &mut W, bytes: &[u8]) -> io::Result<()>
    ensures ok { OnOk result (Appends (W.contents writer.old) (W.contents writer.new) bytes.now) }
    ensures err { OnErr result (Begins (W.contents writer.old) (W.contents writer.new) bytes.now) }
{
    let mut from = 0;
    for _ in 0..u64::MAX {
        if from >= bytes.len() {
            return Ok(());
        }
        match writer.write(&bytes[from..]) {
            Ok(0) => return Err(io::Error::from(ErrorKind::WriteZero)),
            Ok(count) => from += count,
            Err(e) => {
                if e.kind() != ErrorKind::Interrupted {
                    return Err(e);
                }
            }
        }
    }
    Err(io::Error::from(ErrorKind::Other))
}
