//! The whole program.
ghost use Rattle.std.specs.Prelude.{◌≡◌, ◌≢◌, ◌≤◌, ◌↔◌, ◌⊎◌, ℕ, List, Option as AnOption, None, Some, map, IfOk, IfErr, string_bytes};
ghost use Rattle.std.specs.Io.KnownBytes.{Appends};
ghost use Rattle.syntect_cat.specs.Faults.{fault_line, usage_line, without_limit};
ghost use Rattle.syntect_cat.specs.Notes.{Tells};
ghost use Rattle.syntect_cat.specs.declared.note.Note.{Note as ANote};
ghost use Rattle.syntect_cat.specs.Shown.{HasReason, HasReasonFor, IsAskedFor, IsShown};
ghost use Rattle.syntect_cat.specs.Words.{AreWords, words_of};
ghost use Rattle.syntect_cat.specs.Written.{Begins};
ghost use Rattle.syntect_cat.specs.declared.fault.Fault.{Fault as AFault};
ghost use Rattle.syntect_cat.specs.declared.fault.Fault.TheVariants.{Writing};

use crate::below::base::tree::Tree;
use crate::fault::{Fault, USAGE};
use crate::job::Job;
use crate::note::{Note, tell_note};
use crate::put::put;
use crate::show::text_for;
use std::alloc::Global;
use std::io::Write;

/// The status after wrong words.
const WRONG_WORDS: u8 = 2;

/// The status after any other fault.
const FAILED: u8 = 1;

/// Shows a file: the words are the folder of the grammars, the theme, `html` or `term`, and the
/// file. Its text is written to `out` once it is whole, and the status is 0.
///
/// The grammars are loaded, the syntax is looked for by the first line, and each line is
/// highlighted, within `Limits::default`. A text for whose syntax the limit is reached is shown as
/// plain text. A line that reaches a limit is shown plain, in the theme's own style, and the next
/// one is read as if it weren't there. `err` is given a line that tells of the syntax, or else of
/// the first such line, once the text is written.
///
/// Other words have the status 2, and any other fault has the status 1; `err` is given a line that
/// tells of it, and `out` nothing, but that a text may be begun where it can't be written. The line
/// of a grammar that would pass a limit names its file and the limit, and of a pattern the context
/// and the item. What can't be written to `err` changes nothing.
pub fn run<T: Tree, W: Write, E: Write>(
    tree: &T,
    alloc: Global,
    words: &[String],
    out: &mut W,
    err: &mut E,
) -> u8
    ensures status { result ≤ 2 }
    ensures asked { AreWords (map string_bytes words.now) ↔ (result ≢ 2) }

    // the text was written, whole; and a line tells of the foremost limit that was reached, if
    // there is one
    ensures shown { result ≡ 0
        → (text : List ℕ) × (note : AnOption ANote)
        × IsAskedFor (T.told tree.now) (map string_bytes words.now) text note
        × Appends (W.contents out.old) (W.contents out.new) text
        × (note ≡ None → err.new ≡ err.old)
        × ((n : ANote) → note ≡ Some n → Tells (E.contents err.old) (E.contents err.new) n) }

    // a line tells of the fault, and no text is begun but where it can't be written; what can't be
    // written is begun
    ensures usage { result ≡ 2
        → (out.new ≡ out.old) × Begins (E.contents err.old) (E.contents err.new) usage_line }
    ensures failed { result ≡ 1
        → (fault : AFault) × Begins (E.contents err.old) (E.contents err.new) (fault_line fault)
        × HasReasonFor (T.told tree.now) (map string_bytes words.now) fault
        × (fault ≢ Writing → out.new ≡ out.old)
        × (fault ≡ Writing → (text : List ℕ) × (note : AnOption ANote)
        × IsAskedFor (T.told tree.now) (map string_bytes words.now) text note
        × Begins (W.contents out.old) (W.contents out.new) text) }
{
    let Some(job) = Job::from_words(words) else {
        let _ = put(err, USAGE.as_bytes());
        return WRONG_WORDS;
    };
    match show(tree, alloc, job, out) {
        Ok(None) => 0,
        Ok(Some(note)) => {
            tell_note(alloc, note, err);
            0
        }
        Err(fault) => {
            tell(alloc, &fault, err);
            FAILED
        }
    }
}

/// Writes the line of a fault; without memory for it, that of the fault without what a limit says.
fn tell<E: Write>(alloc: Global, fault: &Fault, err: &mut E)
    ensures { (told : AFault) × Begins (E.contents err.old) (E.contents err.new) (fault_line told)
        × ((told ≡ fault.now) ⊎ (told ≡ without_limit fault.now)) }
{
    let _ = match fault.line(alloc) {
        Ok(line) => put(err, line.as_bytes()),
        Err(_) => put(err, fault.plain_line().as_bytes()),
    };
}

/// Writes the text that a job asks for, and answers what is reported of limits that were reached.
fn show<T: Tree, W: Write>(
    tree: &T,
    alloc: Global,
    job: Job<'_>,
    out: &mut W,
) -> Result<Option<Note>, Fault>
    ensures shown { IfOk result (λ note. (text : List ℕ)
        × IsShown (T.told tree.now) job.entry.folder.now job.entry.theme.now
        job.entry.format job.entry.file.now text note
        × Appends (W.contents out.old) (W.contents out.new) text) }
    ensures reason { IfErr result
        (HasReason (T.told tree.now) job.entry.folder.now job.entry.file.now) }
    ensures kept { IfErr result (λ fault. fault ≢ Writing → out.new ≡ out.old) }
    ensures begun { IfErr result (λ fault. fault ≡ Writing
        → (text : List ℕ) × (note : AnOption ANote)
        × IsShown (T.told tree.now) job.entry.folder.now job.entry.theme.now
        job.entry.format job.entry.file.now text note
        × Begins (W.contents out.old) (W.contents out.new) text) }
{
    let (text, note) = match text_for(tree, alloc, job) {
        Ok(shown) => shown,
        Err(fault) => return Err(fault),
    };
    match put(out, text.as_bytes()) {
        Ok(()) => {}
        Err(_) => return Err(Fault::Writing),
    }
    match out.flush() {
        Ok(()) => Ok(note),
        Err(_) => Err(Fault::Writing),
    }
}
