//! From the text of a pattern to its program.
ghost use Rattle.std.specs.Prelude.{◌≡◌, ◌<◌, false, Option, IfOk, IfSome, length, chars};
ghost use Rattle.syntect_pattern_table.specs.Builder.{tree_in};
ghost use Rattle.syntect_pattern_table.specs.Program.{IsProgramOf};
ghost use Rattle.syntect_pattern.specs.Grammar.{tree_of, whole};
ghost use Rattle.syntect_pattern.specs.Grammar as grammar;
ghost use Rattle.syntect_pattern_compile.specs.Compiled.{Compiles, CountsGroups, whole_as, tree_read};

use crate::needs::needs_of;
use crate::reader::Reader;
use std::alloc::{AllocError, Global};
use syntect_pattern_table::node::Node;
use syntect_pattern_table::program::Program;
use syntect_pattern_table::starts::places_of;
use syntect_pattern_words::openings::{Flags, Names, Place};
use syntect_pattern_words::text::is_empty;

/// For how many bytes of a text there is room for a node each from the start.
/// Most texts make fewer.
const SHORT: usize = 1024;

/// The program of a pattern's text. None if the text is no pattern.
pub fn compile(alloc: Global, pattern: &str) -> Result<Option<Program>, AllocError>
    ensures { IfOk result (λ found. Compiles pattern.now found) }
{
    let Some((reader, body)) = read_text(alloc, pattern)? else {
        return Ok(None);
    };
    let program = program_of(alloc, reader, body)?;
    Ok(Some(program))
}

/// What the text reads as. Only where a back reference was met is it read again,
/// now with its groups.
fn read_text(alloc: Global, text: &str) -> Result<Option<(Reader, usize)>, AllocError>
    ensures inside { IfOk result (λ f. IfSome f (λ x. x.1 < length x.0.builder.nodes)) }
    ensures reads { IfOk result (λ f. tree_of (chars text.now) ≡ tree_read f) }
    ensures groups { IfOk result (λ f. IfSome f CountsGroups) }
{
    let Some((first, body)) = read_whole(alloc, &None, text)? else {
        return Ok(None);
    };
    if !first.refers {
        return Ok(Some((first, body)));
    }
    let known = Some(first.names);
    let again = read_whole(alloc, &known, text)?;
    Ok(again)
}

/// A whole text, read with the groups that are known, and the place of its tree.
fn read_whole(
    alloc: Global,
    known: &Option<Names>,
    text: &str,
) -> Result<Option<(Reader, usize)>, AllocError>
    ensures inside { IfOk result (λ f. IfSome f (λ x. x.1 < length x.0.builder.nodes)) }
    ensures reads { IfOk result (λ f. whole known.now (chars text.now) ≡ whole_as f) }
    ensures alone { IfOk result (λ f. IfSome f (λ x. x.0.refers ≡ false
        → (other : Option grammar.Names) → whole other (chars text.now) ≡ whole_as f)) }
{
    let room = text.len().min(SHORT) + 16;
    let mut reader = Reader::new(alloc, room)?;
    let flags = Flags {
        fold: false,
        any: false,
        spaced: false,
    };
    let Some((body, last)) = reader.body(known, 0, Place { flags, text })? else {
        return Ok(None);
    };
    if !is_empty(last.text) {
        return Ok(None);
    }
    Ok(Some((reader, body)))
}

/// The program of a pattern that is read.
fn program_of(alloc: Global, reader: Reader, body: usize) -> Result<Program, AllocError>
    requires { body < length reader.builder.nodes }
    ensures { IfOk result (λ p. CountsGroups (reader, body)
        → IsProgramOf p (tree_in reader.builder.nodes body)) }
{
    let Reader {
        mut builder,
        names,
        looks_back,
        ..
    } = reader;
    let root = builder.push(Node::Group { number: 0, body })?;
    let groups = names.len() + 1;
    let mut nodes = builder.nodes;
    nodes.shrink_to_fit();
    let firsts = places_of(alloc, nodes.as_slice())?;
    let needs = needs_of(nodes.as_slice(), &firsts, body);
    Program::new(alloc, nodes, root, groups, firsts, needs, looks_back)
}
