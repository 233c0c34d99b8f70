//! Operations of a line for debugging.
ghost use Rattle.std.specs.Prelude.{◌++◌, ◌∷◌, [], replicate, OnOk};
ghost use Rattle.std.specs.Io.KnownBytes.{Appends};
ghost use Rattle.syntect_operations.specs.Print.{operation_text, operation_lines, operations_text};

use std::io;
use std::io::Write;
use syntect_scope::repository::ScopeRepository;
use syntect_scope::stack::{ClearAmount, ScopeStackOp};

/// Writes so many spaces.
fn write_spaces<W: Write>(count: usize, writer: &mut W) -> io::Result<()>
    ensures { OnOk result (Appends (W.contents writer.old) (W.contents writer.new)
        (replicate count 32)) }
{
    for _ in 0..count {
        writer.write_all(b" ")?;
    }
    Ok(())
}

/// Writes an operation.
fn write_operation<W: Write>(
    op: &ScopeStackOp,
    repository: &ScopeRepository,
    writer: &mut W,
) -> io::Result<()>
    ensures { OnOk result (Appends (W.contents writer.old) (W.contents writer.new)
        (operation_text repository.now op.now)) }
{
    match *op {
        ScopeStackOp::Push(scope) => {
            writer.write_all(b"^ +")?;
            scope.write_to(repository, writer)
        }
        ScopeStackOp::Pop(count) => write!(writer, "^ pop {count}"),
        ScopeStackOp::Clear(ClearAmount::TopN(count)) => write!(writer, "^ clear TopN({count})"),
        ScopeStackOp::Clear(ClearAmount::All) => writer.write_all(b"^ clear All"),
        ScopeStackOp::Restore => writer.write_all(b"^ restore"),
        ScopeStackOp::Noop => writer.write_all(b"noop"),
    }
}

/// Writes the line, and an operation below its place.
fn write_lines<W: Write>(
    line: &str,
    place: usize,
    op: &ScopeStackOp,
    repository: &ScopeRepository,
    writer: &mut W,
) -> io::Result<()>
    ensures { OnOk result (Appends (W.contents writer.old) (W.contents writer.new)
        (operation_lines repository.now line.now (place, op.now))) }
{
    writer.write_all(line.trim_end().as_bytes())?;
    writer.write_all(b"\n")?;
    write_spaces(place, writer)?;
    write_operation(op, repository, writer)?;
    writer.write_all(b"\n")
}

/// Writes operations of a line for debugging: for each the line without white space at its end, and
/// in the next line as many spaces as its place, a byte position, and what it does. Takes no
/// memory; an `Err` is the writer's.
pub fn debug_print_ops<W: Write>(
    line: &str,
    ops: &[(usize, ScopeStackOp)],
    repository: &ScopeRepository,
    writer: &mut W,
) -> io::Result<()>
    ensures { OnOk result (Appends (W.contents writer.old) (W.contents writer.new)
        (operations_text repository.now line.now ops.now)) }
{
    for (place, op) in ops {
        write_lines(line, *place, op, repository, writer)?;
    }
    Ok(())
}
