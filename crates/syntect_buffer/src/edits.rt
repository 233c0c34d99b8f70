//! Edits of what a buffer keeps.
ghost use Rattle.std.specs.Prelude.{◌≡◌, ◌+◌, ◌<◌, ◌≤◌, [], ◌∷◌, length, insert, string_bytes, IfOk, OnOk, OnErr};
ghost use Rattle.syntect_buffer.specs.Kept.{AreMarked, IsEdited};

use crate::below::parsing::syntax_set::SyntaxSet;
use crate::below::theme::theme::Theme;
use crate::reading::{Kept, Reading, read, read_again, renew, states_at};
use std::alloc::{AllocError, Global};

/// Puts a line and its reading before those at a place, or after the last.
/// Without memory nothing changes.
fn put_in(kept: &mut Kept, place: usize, line: String, reading: Reading) -> Result<(), AllocError>
    requires count { length kept.old.lines ≡ length kept.old.readings }
    requires within { place ≤ length kept.old.readings }
    ensures ok { OnOk result (kept.new ≡ record kept.old {
      lines = insert kept.old.lines place line;
      readings = insert kept.old.readings place reading;
    }) }
    ensures err { OnErr result (kept.new ≡ kept.old) }
{
    kept.lines.insert(place, line)?;
    match kept.readings.insert(place, reading) {
        Ok(()) => Ok(()),
        Err(e) => {
            let _ = kept.lines.remove(place);
            Err(e)
        }
    }
}

/// Puts a line before the one at a place, or after the last, and answers how many lines were read
/// again. Lack of memory changes nothing.
pub(crate) fn insert_at(
    kept: &mut Kept,
    alloc: Global,
    set: &SyntaxSet,
    theme: &Theme,
    place: usize,
    line: String,
) -> Result<usize, AllocError>
    requires count { length kept.old.lines ≡ length kept.old.readings }
    requires within { place ≤ length kept.old.readings }
    ensures ok { IfOk result (λ number. IsEdited set.now theme.now kept.old kept.new
        place place (string_bytes line ∷ []) number) }
    ensures err { OnErr result (kept.new ≡ kept.old) }
{
    let before = states_at(&kept.start, &kept.readings, place);
    let reading = read(alloc, set, theme, &kept.limits, before, line.as_str())?;
    let alike = reading.ends_alike;
    let again = read_again(alloc, set, theme, kept, place, &reading.after, alike)?;
    put_in(kept, place, line, reading)?;
    let number = 1 + again.len();
    let count = kept.lines.len();
    prove!(place < count);
    renew(&mut kept.readings, place + 1, again);
    Ok(number)
}

/// Puts a line in place of another one, and answers how many lines were read again. Lack of memory
/// changes nothing.
pub(crate) fn set_at(
    kept: &mut Kept,
    alloc: Global,
    set: &SyntaxSet,
    theme: &Theme,
    place: usize,
    line: String,
) -> Result<usize, AllocError>
    requires count { length kept.old.lines ≡ length kept.old.readings }
    requires within { place < length kept.old.readings }
    requires marked { AreMarked kept.old.start kept.old.readings }
    ensures ok { IfOk result (λ number. IsEdited set.now theme.now kept.old kept.new
        place (place + 1) (string_bytes line ∷ []) number) }
    ensures err { OnErr result (kept.new ≡ kept.old) }
{
    let count = kept.lines.len();
    prove!(place < count);
    let before = states_at(&kept.start, &kept.readings, place);
    let reading = read(alloc, set, theme, &kept.limits, before, line.as_str())?;
    let alike = reading.ends_alike && kept.readings.get(place).ends_alike;
    let again = read_again(alloc, set, theme, kept, place + 1, &reading.after, alike)?;
    let number = 1 + again.len();
    kept.lines.set(place, line);
    kept.readings.set(place, reading);
    renew(&mut kept.readings, place + 1, again);
    Ok(number)
}

/// Removes a line, and answers how many lines were read again. Lack of memory changes nothing.
pub(crate) fn remove_at(
    kept: &mut Kept,
    alloc: Global,
    set: &SyntaxSet,
    theme: &Theme,
    place: usize,
) -> Result<usize, AllocError>
    requires count { length kept.old.lines ≡ length kept.old.readings }
    requires within { place < length kept.old.readings }
    requires marked { AreMarked kept.old.start kept.old.readings }
    ensures ok { IfOk result (λ number. IsEdited set.now theme.now kept.old kept.new
        place (place + 1) [] number) }
    ensures err { OnErr result (kept.new ≡ kept.old) }
{
    let count = kept.lines.len();
    prove!(place < count);
    let before = states_at(&kept.start, &kept.readings, place);
    let alike = kept.readings.get(place).ends_alike;
    let again = read_again(alloc, set, theme, kept, place + 1, before, alike)?;
    let number = again.len();
    let _ = kept.lines.remove(place);
    let _ = kept.readings.remove(place);
    renew(&mut kept.readings, place, again);
    Ok(number)
}
