//! The calls on documents.
//!
//! A document is read with a set whose grammars are linked, which each call is given: so no handle
//! holds another one. As those on sets, each call takes what is held out of its handles, and puts
//! it back.
ghost use Rattle.std.specs.Prelude.{◌≡◌, ◌≢◌, ◌↔◌, ◌++◌, IfErr, IfOk, IsSome, None, OnOk, Some, box_value, drop, length, pos, take};
ghost use Rattle.syntect_assets.specs.declared.assets.Assets.{Assets as AnAssets};
ghost use Rattle.syntect_c.specs.DocCalls.{BeginsHeld, BeginsNew, BeginsOf, BeginsWith, NamesStay, ReadsHeld, StandsHeld, doc_fault_in, spans_in};
ghost use Rattle.syntect_c.specs.Documents.{BeginsIn, ReadsLine, SameNames, StandsAfter};
ghost use Rattle.syntect_c.specs.Sets.{HasLoadedAlone, HoldsLoadedAlone};
ghost use Rattle.syntect_c.specs.declared.set.SetContent.{SetContent as ASet};
ghost use Rattle.syntect_c.specs.declared.set.Stage.TheVariants.{Linked};
ghost use Rattle.syntect_easy.specs.Leads.{Past};

use crate::doc_handle::DocSlot;
use crate::document::DocContent;
use crate::handle::Slot;
use crate::kind::Kind;
use crate::refusal::Refusal;
use crate::set::SetContent;
use crate::span::Span;
use crate::texts::{copy_out, text_of};
use std::alloc::Global;
use std::mem;

/// A new document in a box, of a set that is linked first.
fn new_document(
    alloc: Global,
    set: &mut SetContent,
    language: &[u8],
    theme: &[u8],
) -> Result<Box<DocContent>, Refusal>
    ensures loaded { HoldsLoadedAlone set.old → HoldsLoadedAlone set.new }
    ensures begins { IfOk result
        (λ document. BeginsIn set.new language.now theme.now (box_value document)) }
{
    set.link(alloc)?;
    let (language, theme) = (text_of(language)?, text_of(theme)?);
    let document = DocContent::new(alloc, set, language, theme)?;
    Ok(Box::new(alloc, document)?)
}

/// Reads the next line of a document.
fn line(
    alloc: Global,
    document: &mut DocContent,
    set: &SetContent,
    line: &[u8],
) -> Result<(), Refusal>
    ensures names { SameNames document.old document.new }
    ensures read { (past : Past) (assets : AnAssets) → set.now.stage ≡ Linked assets
        → StandsAfter past assets document.old
        → OnOk result (ReadsLine past assets line.now document.new) }
{
    let line = text_of(line)?;
    document.read_line(alloc, set, line)
}

/// Reads the next line of a document, and answers the number for C.
fn line_number(alloc: Global, document: &mut DocContent, set: &SetContent, bytes: &[u8]) -> i32
    ensures names { SameNames document.old document.new }
    ensures read { (past : Past) (assets : AnAssets) → set.now.stage ≡ Linked assets
        → StandsAfter past assets document.old → result ≡ pos 0
        → ReadsLine past assets bytes.now document.new }
{
    match line(alloc, document, set, bytes) {
        Ok(()) => 0,
        Err(refusal) => document.tell(alloc, refusal),
    }
}

/// Puts a document before its first line, and answers the number for C.
fn reset_number(alloc: Global, document: &mut DocContent, set: &SetContent) -> i32
    ensures names { SameNames document.old document.new }
    ensures begins { result ≡ pos 0
        → BeginsIn set.now document.old.language document.old.theme document.new }
{
    match document.reset(alloc, set) {
        Ok(()) => 0,
        Err(refusal) => document.tell(alloc, refusal),
    }
}

/// Reads the next line of a document with what the handle of a set holds.
fn read_with(set: &mut Slot, alloc: Global, document: &mut DocContent, bytes: &[u8]) -> i32
    ensures set { set.new.handle.held ≡ set.old.handle.held }
    ensures names { SameNames document.old document.new }
    ensures read { (past : Past) (content : ASet) (assets : AnAssets)
        → set.old.handle.held ≡ Some content → content.stage ≡ Linked assets
        → StandsAfter past assets document.old → result ≡ pos 0
        → ReadsLine past assets bytes.now document.new }
{
    match mem::replace(set, Slot::empty(alloc)).take() {
        None => Kind::Empty.number(),
        Some(content) => {
            let number = line_number(alloc, document, &content, bytes);
            *set = Slot::of(content);
            number
        }
    }
}

/// Puts a document before its first line, with what the handle of a set holds.
fn reset_with(set: &mut Slot, alloc: Global, document: &mut DocContent) -> i32
    ensures set { set.new.handle.held ≡ set.old.handle.held }
    ensures names { SameNames document.old document.new }
    ensures begins { result ≡ pos 0 → BeginsWith set.old.handle.held document.old document.new }
{
    match mem::replace(set, Slot::empty(alloc)).take() {
        None => Kind::Empty.number(),
        Some(content) => {
            let number = reset_number(alloc, document, &content);
            *set = Slot::of(content);
            number
        }
    }
}

/// Copies spans to the front of a room, as many as there is room for, and answers how many there
/// are.
fn copy_spans(spans: &[Span], room: &mut [Span]) -> usize
    ensures count { result ≡ length spans.now }
    ensures copied { room.new ≡ take (length room.old) spans.now
        ++ drop (length spans.now) room.old }
{
    if spans.len() <= room.len() {
        room.split_at_mut(spans.len()).0.copy_from_slice(spans);
    } else {
        room.copy_from_slice(spans.split_at(room.len()).0);
    }
    spans.len()
}

/// A new document in a box, or the number for C of a refusal.
fn new_number(
    alloc: Global,
    set: &mut SetContent,
    language: &[u8],
    theme: &[u8],
) -> Result<Box<DocContent>, i32>
    ensures loaded { HoldsLoadedAlone set.old → HoldsLoadedAlone set.new }
    ensures begins { IfOk result
        (λ document. BeginsIn set.new language.now theme.now (box_value document)) }
    ensures refused { IfErr result (λ number. number ≢ pos 0) }
{
    match new_document(alloc, set, language, theme) {
        Ok(document) => Ok(document),
        Err(refusal) => Err(set.tell(alloc, refusal)),
    }
}

/// A new document in a box, of what the handle of a set holds, or the number for C of a refusal.
fn new_with(
    set: &mut Slot,
    alloc: Global,
    language: &[u8],
    theme: &[u8],
) -> Result<Box<DocContent>, i32>
    ensures loaded { HasLoadedAlone set.old.handle.held → HasLoadedAlone set.new.handle.held }
    ensures stays { IsSome set.new.handle.held ↔ IsSome set.old.handle.held }
    ensures begins { IfOk result (λ document.
        BeginsOf language.now theme.now set.new.handle.held (box_value document)) }
    ensures refused { IfErr result (λ number. number ≢ pos 0) }
{
    match mem::replace(set, Slot::empty(alloc)).take() {
        None => Err(Kind::Empty.number()),
        Some(mut content) => {
            let made = new_number(alloc, &mut content, language, theme);
            *set = Slot::of(content);
            made
        }
    }
}

/// Makes a document in the language of a name, by the theme of a name, before its first line. The
/// grammars of the set are linked, unless they are. What the handle held is freed; where no document
/// is made, the handle is empty.
#[unsafe(no_mangle)]
pub extern "C" fn vls_doc_new(
    doc: &mut DocSlot,
    set: &mut Slot,
    alloc: Global,
    language: &[u8],
    theme: &[u8],
) -> i32
    ensures loaded { HasLoadedAlone set.old.handle.held → HasLoadedAlone set.new.handle.held }
    ensures stays { IsSome set.new.handle.held ↔ IsSome set.old.handle.held }
    ensures begins { result ≡ pos 0
        → BeginsNew language.now theme.now set.new.handle.held doc.new.handle.held }
    ensures empty { result ≢ pos 0 → doc.new.handle.held ≡ None }
{
    drop(mem::replace(doc, DocSlot::empty(alloc)).take());
    match new_with(set, alloc, language, theme) {
        Ok(document) => {
            *doc = DocSlot::of(document);
            0
        }
        Err(number) => number,
    }
}

/// Frees what the handle holds. An empty handle stays so.
#[unsafe(no_mangle)]
pub extern "C" fn vls_doc_free(doc: &mut DocSlot, alloc: Global)
    ensures { doc.new.handle.held ≡ None }
{
    drop(mem::replace(doc, DocSlot::empty(alloc)).take());
}

/// Reads the next line, with the set that the lines before were read with. Its spans are kept.
#[unsafe(no_mangle)]
pub extern "C" fn vls_doc_line(
    doc: &mut DocSlot,
    set: &mut Slot,
    alloc: Global,
    line_bytes: &[u8],
) -> i32
    ensures set { set.new.handle.held ≡ set.old.handle.held }
    ensures names { NamesStay doc.old.handle.held doc.new.handle.held }
    ensures read { (past : Past) → StandsHeld past set.old.handle.held doc.old.handle.held
        → result ≡ pos 0
        → ReadsHeld past set.old.handle.held line_bytes.now doc.new.handle.held }
{
    match mem::replace(doc, DocSlot::empty(alloc)).take() {
        None => Kind::Empty.number(),
        Some(mut document) => {
            let number = read_with(set, alloc, &mut document, line_bytes);
            *doc = DocSlot::of(document);
            number
        }
    }
}

/// Puts the document before its first line: what was read is forgotten.
#[unsafe(no_mangle)]
pub extern "C" fn vls_doc_reset(doc: &mut DocSlot, set: &mut Slot, alloc: Global) -> i32
    ensures set { set.new.handle.held ≡ set.old.handle.held }
    ensures names { NamesStay doc.old.handle.held doc.new.handle.held }
    ensures begins { result ≡ pos 0
        → BeginsHeld set.old.handle.held doc.old.handle.held doc.new.handle.held }
{
    match mem::replace(doc, DocSlot::empty(alloc)).take() {
        None => Kind::Empty.number(),
        Some(mut document) => {
            let number = reset_with(set, alloc, &mut document);
            *doc = DocSlot::of(document);
            number
        }
    }
}

/// Copies the spans of the last line that was read, as many as there is room for, and answers how
/// many it has.
#[unsafe(no_mangle)]
pub extern "C" fn vls_doc_spans(doc: &mut DocSlot, alloc: Global, room: &mut [Span]) -> usize
    ensures held { doc.new.handle.held ≡ doc.old.handle.held }
    ensures count { result ≡ length (spans_in doc.old.handle.held) }
    ensures copied { room.new ≡ take (length room.old) (spans_in doc.old.handle.held)
        ++ drop (length (spans_in doc.old.handle.held)) room.old }
{
    match mem::replace(doc, DocSlot::empty(alloc)).take() {
        None => 0,
        Some(document) => {
            let count = copy_spans(document.spans.as_slice(), room);
            *doc = DocSlot::of(document);
            count
        }
    }
}

/// Copies the text that tells why the last call on the document was refused that was, as much as
/// there is room for, and answers how many bytes it has.
#[unsafe(no_mangle)]
pub extern "C" fn vls_doc_fault(doc: &mut DocSlot, alloc: Global, room: &mut [u8]) -> usize
    ensures held { doc.new.handle.held ≡ doc.old.handle.held }
    ensures count { result ≡ length (doc_fault_in doc.old.handle.held) }
    ensures copied { room.new ≡ take (length room.old) (doc_fault_in doc.old.handle.held)
        ++ drop (length (doc_fault_in doc.old.handle.held)) room.old }
{
    match mem::replace(doc, DocSlot::empty(alloc)).take() {
        None => 0,
        Some(document) => {
            let count = copy_out(document.fault.as_bytes(), room);
            *doc = DocSlot::of(document);
            count
        }
    }
}
