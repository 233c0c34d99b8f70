//! The calls on sets.
//!
//! Each call takes what is held out of its handle, and puts it back: so whatever a handle is, it
//! holds a whole set or nothing. A call answers 0, or the number of a `Kind`.
ghost use Rattle.std.specs.Prelude.{◌≡◌, ◌↔◌, ◌++◌, length, take, drop, None, Some, IfOk, IsSome, OnOk, box_value, pos};
ghost use Rattle.syntect_c.specs.Calls.{AddsGrammarHeld, AddsThemeHeld, ShowsAs, ShowsSet, fault_in, format_numbered, output_in};
ghost use Rattle.syntect_c.specs.Finds.{Finds, FindsHeld};
ghost use Rattle.syntect_c.specs.Sets.{AddsGrammarTo, AddsThemeTo, HasLoadedAlone, HoldsLoadedAlone};

use crate::handle::Slot;
use crate::kind::Kind;
use crate::refusal::Refusal;
use crate::set::SetContent;
use crate::texts::{copy_out, text_of};
use std::alloc::Global;
use std::mem;
use syntect_assets::error::AssetsError;
use syntect_assets::format::{Colors, Format};

/// The format of a number.
fn format_of(number: u32) -> Result<Format, Refusal>
    ensures { IfOk result (λ format. format_numbered number ≡ Some format) }
{
    match number {
        0 => Ok(Format::Html),
        1 => Ok(Format::Terminal),
        2 => Ok(Format::Screen(Colors::Bits24)),
        3 => Ok(Format::Screen(Colors::Palette256)),
        _ => Err(Refusal::of(Kind::Format)),
    }
}

/// Adds the grammar in bytes.
fn add_grammar(
    alloc: Global,
    content: &mut SetContent,
    file: &[u8],
    text: &[u8],
) -> Result<(), Refusal>
    ensures added { OnOk result
        (AddsGrammarTo file.now text.now content.old.stage content.new.stage) }
    ensures loaded { HoldsLoadedAlone content.old → HoldsLoadedAlone content.new }
{
    let (file, text) = (text_of(file)?, text_of(text)?);
    content.add_grammar(alloc, file, text)
}

/// Adds the theme in bytes.
fn add_theme(
    alloc: Global,
    content: &mut SetContent,
    name: &[u8],
    bytes: &[u8],
) -> Result<(), Refusal>
    ensures added { OnOk result
        (AddsThemeTo name.now bytes.now content.old.stage content.new.stage) }
    ensures loaded { HoldsLoadedAlone content.old → HoldsLoadedAlone content.new }
{
    let name = text_of(name)?;
    content.add_theme(alloc, name, bytes)
}

/// Shows a text.
#[tactic(auto, using(crate::proofs::CallLaws::shows_in))]
fn show(
    alloc: Global,
    content: &mut SetContent,
    text: &[u8],
    language: &[u8],
    theme: &[u8],
    format: u32,
) -> Result<(), Refusal>
    ensures loaded { HoldsLoadedAlone content.old → HoldsLoadedAlone content.new }
    ensures shown { HoldsLoadedAlone content.old
        → OnOk result (ShowsAs text.now language.now theme.now format content.new) }
{
    let format = format_of(format)?;
    let (text, language, theme) = (text_of(text)?, text_of(language)?, text_of(theme)?);
    content.show(alloc, text, language, theme, format)
}

/// Shows a text, and answers the number for C.
fn page(
    alloc: Global,
    content: &mut SetContent,
    text: &[u8],
    language: &[u8],
    theme: &[u8],
    format: u32,
) -> i32
    ensures loaded { HoldsLoadedAlone content.old → HoldsLoadedAlone content.new }
    ensures shown { HoldsLoadedAlone content.old → result ≡ pos 0
        → ShowsAs text.now language.now theme.now format content.new }
{
    match show(alloc, content, text, language, theme, format) {
        Ok(()) => 0,
        Err(refusal) => content.tell(alloc, refusal),
    }
}

/// Adds the grammar in bytes, and answers the number for C.
fn grammar(alloc: Global, content: &mut SetContent, file: &[u8], text: &[u8]) -> i32
    ensures added { result ≡ pos 0
        → AddsGrammarTo file.now text.now content.old.stage content.new.stage }
    ensures loaded { HoldsLoadedAlone content.old → HoldsLoadedAlone content.new }
{
    match add_grammar(alloc, content, file, text) {
        Ok(()) => 0,
        Err(refusal) => content.tell(alloc, refusal),
    }
}

/// Adds the theme in bytes, and answers the number for C.
fn theme(alloc: Global, content: &mut SetContent, name: &[u8], bytes: &[u8]) -> i32
    ensures added { result ≡ pos 0
        → AddsThemeTo name.now bytes.now content.old.stage content.new.stage }
    ensures loaded { HoldsLoadedAlone content.old → HoldsLoadedAlone content.new }
{
    match add_theme(alloc, content, name, bytes) {
        Ok(()) => 0,
        Err(refusal) => content.tell(alloc, refusal),
    }
}

/// Finds the language of a text.
fn find(alloc: Global, content: &mut SetContent, file: &[u8], line: &[u8]) -> Result<(), Refusal>
    ensures loaded { HoldsLoadedAlone content.old → HoldsLoadedAlone content.new }
    ensures found { OnOk result (Finds file.now line.now content.new) }
{
    let (file, line) = (text_of(file)?, text_of(line)?);
    content.find(alloc, file, line)
}

/// Finds the language of a text, and answers the number for C.
fn language(alloc: Global, content: &mut SetContent, file: &[u8], line: &[u8]) -> i32
    ensures loaded { HoldsLoadedAlone content.old → HoldsLoadedAlone content.new }
    ensures found { result ≡ pos 0 → Finds file.now line.now content.new }
{
    match find(alloc, content, file, line) {
        Ok(()) => 0,
        Err(refusal) => content.tell(alloc, refusal),
    }
}

/// A new set in a box.
fn new_set(alloc: Global) -> Result<Box<SetContent>, AssetsError>
    ensures { IfOk result (λ content. HoldsLoadedAlone (box_value content)) }
{
    let content = SetContent::new(alloc)?;
    Ok(Box::new(alloc, content)?)
}

/// Makes a set of plain text and no theme. What the handle held is freed.
#[unsafe(no_mangle)]
pub extern "C" fn vls_set_new(set: &mut Slot, alloc: Global) -> i32
    ensures loaded { HasLoadedAlone set.new.handle.held }
    ensures made { result ≡ pos 0 → IsSome set.new.handle.held }
{
    drop(mem::replace(set, Slot::empty(alloc)).take());
    match new_set(alloc) {
        Ok(content) => {
            *set = Slot::of(content);
            0
        }
        Err(_) => Kind::Memory.number(),
    }
}

/// Frees what the handle holds. An empty handle stays so.
#[unsafe(no_mangle)]
pub extern "C" fn vls_set_free(set: &mut Slot, alloc: Global)
    ensures { set.new.handle.held ≡ None }
{
    drop(mem::replace(set, Slot::empty(alloc)).take());
}

/// Adds the grammar in a text, under the name of its file.
#[unsafe(no_mangle)]
pub extern "C" fn vls_set_add_grammar(
    set: &mut Slot,
    alloc: Global,
    file: &[u8],
    text: &[u8],
) -> i32
    ensures added { result ≡ pos 0
        → AddsGrammarHeld file.now text.now set.old.handle.held set.new.handle.held }
    ensures loaded { HasLoadedAlone set.old.handle.held → HasLoadedAlone set.new.handle.held }
    ensures stays { IsSome set.new.handle.held ↔ IsSome set.old.handle.held }
{
    match mem::replace(set, Slot::empty(alloc)).take() {
        None => Kind::Empty.number(),
        Some(mut content) => {
            let number = grammar(alloc, &mut content, file, text);
            *set = Slot::of(content);
            number
        }
    }
}

/// Adds the theme in bytes under a name.
#[unsafe(no_mangle)]
pub extern "C" fn vls_set_add_theme(set: &mut Slot, alloc: Global, name: &[u8], bytes: &[u8]) -> i32
    ensures added { result ≡ pos 0
        → AddsThemeHeld name.now bytes.now set.old.handle.held set.new.handle.held }
    ensures loaded { HasLoadedAlone set.old.handle.held → HasLoadedAlone set.new.handle.held }
    ensures stays { IsSome set.new.handle.held ↔ IsSome set.old.handle.held }
{
    match mem::replace(set, Slot::empty(alloc)).take() {
        None => Kind::Empty.number(),
        Some(mut content) => {
            let number = theme(alloc, &mut content, name, bytes);
            *set = Slot::of(content);
            number
        }
    }
}

/// Links the grammars: from then on none is added.
#[unsafe(no_mangle)]
pub extern "C" fn vls_set_link(set: &mut Slot, alloc: Global) -> i32
    ensures loaded { HasLoadedAlone set.old.handle.held → HasLoadedAlone set.new.handle.held }
    ensures stays { IsSome set.new.handle.held ↔ IsSome set.old.handle.held }
{
    match mem::replace(set, Slot::empty(alloc)).take() {
        None => Kind::Empty.number(),
        Some(mut content) => {
            let answer = content.link(alloc);
            let number = content.told(alloc, answer);
            *set = Slot::of(content);
            number
        }
    }
}

/// Shows a text in the language of a name by the theme of a name: the output is what is shown.
#[tactic(auto, using(crate::proofs::CallLaws::shows_held))]
#[unsafe(no_mangle)]
pub extern "C" fn vls_set_page(
    set: &mut Slot,
    alloc: Global,
    text: &[u8],
    language: &[u8],
    theme: &[u8],
    format: u32,
) -> i32
    ensures loaded { HasLoadedAlone set.old.handle.held → HasLoadedAlone set.new.handle.held }
    ensures stays { IsSome set.new.handle.held ↔ IsSome set.old.handle.held }
    ensures shown { HasLoadedAlone set.old.handle.held → result ≡ pos 0
        → ShowsSet text.now language.now theme.now format set.new.handle.held }
{
    match mem::replace(set, Slot::empty(alloc)).take() {
        None => Kind::Empty.number(),
        Some(mut content) => {
            let number = page(alloc, &mut content, text, language, theme, format);
            *set = Slot::of(content);
            number
        }
    }
}

/// Lists the languages: the output has a line of each, with its name, a tab and its extensions.
#[unsafe(no_mangle)]
pub extern "C" fn vls_set_languages(set: &mut Slot, alloc: Global) -> i32
    ensures loaded { HasLoadedAlone set.old.handle.held → HasLoadedAlone set.new.handle.held }
    ensures stays { IsSome set.new.handle.held ↔ IsSome set.old.handle.held }
{
    match mem::replace(set, Slot::empty(alloc)).take() {
        None => Kind::Empty.number(),
        Some(mut content) => {
            let answer = content.list_languages(alloc);
            let number = content.told(alloc, answer);
            *set = Slot::of(content);
            number
        }
    }
}

/// Finds the language of a text, by the name of its file or else by its first line: the output is
/// the language's name.
#[tactic(auto, using(crate::proofs::CallLaws::finds_held))]
#[unsafe(no_mangle)]
pub extern "C" fn vls_set_find(set: &mut Slot, alloc: Global, file: &[u8], line: &[u8]) -> i32
    ensures loaded { HasLoadedAlone set.old.handle.held → HasLoadedAlone set.new.handle.held }
    ensures stays { IsSome set.new.handle.held ↔ IsSome set.old.handle.held }
    ensures found { result ≡ pos 0 → FindsHeld file.now line.now set.new.handle.held }
{
    match mem::replace(set, Slot::empty(alloc)).take() {
        None => Kind::Empty.number(),
        Some(mut content) => {
            let number = language(alloc, &mut content, file, line);
            *set = Slot::of(content);
            number
        }
    }
}

/// Copies the output, as much as there is room for, and answers how many bytes it has.
#[tactic(auto, using(crate::proofs::TextLaws::nothing_copied))]
#[unsafe(no_mangle)]
pub extern "C" fn vls_set_output(set: &mut Slot, alloc: Global, room: &mut [u8]) -> usize
    ensures held { set.new.handle.held ≡ set.old.handle.held }
    ensures count { result ≡ length (output_in set.old.handle.held) }
    ensures copied { room.new ≡ take (length room.old) (output_in set.old.handle.held)
        ++ drop (length (output_in set.old.handle.held)) room.old }
{
    match mem::replace(set, Slot::empty(alloc)).take() {
        None => 0,
        Some(content) => {
            let count = copy_out(content.output.as_bytes(), room);
            *set = Slot::of(content);
            count
        }
    }
}

/// Copies the text that tells why the last call was refused that was, as much as there is room for,
/// and answers how many bytes it has.
#[tactic(auto, using(crate::proofs::TextLaws::nothing_copied))]
#[unsafe(no_mangle)]
pub extern "C" fn vls_set_fault(set: &mut Slot, alloc: Global, room: &mut [u8]) -> usize
    ensures held { set.new.handle.held ≡ set.old.handle.held }
    ensures count { result ≡ length (fault_in set.old.handle.held) }
    ensures copied { room.new ≡ take (length room.old) (fault_in set.old.handle.held)
        ++ drop (length (fault_in set.old.handle.held)) room.old }
{
    match mem::replace(set, Slot::empty(alloc)).take() {
        None => 0,
        Some(content) => {
            let count = copy_out(content.fault.as_bytes(), room);
            *set = Slot::of(content);
            count
        }
    }
}
