//! Texts as HTML with classes, each line in a span of its own.
ghost use Rattle.std.specs.Prelude.{◌≡◌, ◌++◌, List, ℕ, length, IfOk, IfErr, OnOk, string_bytes};
ghost use Rattle.std.specs.List.{flat_map};
ghost use Rattle.syntect_documents.specs.syntect_assets.Assets.{RefusesLine, RefusesText, language_named};
ghost use Rattle.syntect_documents.specs.syntect_easy.Classed.{closing_tags};
ghost use Rattle.syntect_documents.specs.syntect_parsing.States.{standing};
ghost use Rattle.syntect_documents.specs.syntect_scope.Replay.{InOrder};
ghost use Rattle.syntect_documents.specs.syntect_writers.Classes.{opening_tag, prefix_of};
ghost use Rattle.syntect_documents.specs.syntect_writers.Marks.{stack_after};
ghost use Rattle.syntect_documents.specs.Classed.{IsClassed, IsReadWithin, ShowsClassedIn, ShowsClassedText, classed_line, classed_opening};

use crate::below::assets::assets::{Assets, Shown};
use crate::below::assets::error::AssetsError;
use crate::below::assets::lines::{PlainLine, first_of};
use crate::below::base::limits::Limits;
use crate::below::easy::Error;
use crate::below::easy::escape::Escape;
use crate::below::easy::html::{ClassStyle, line_tokens_to_classed_spans};
use crate::below::easy::util::LinesWithEndings;
use crate::below::parsing::parser::ParseState;
use crate::below::parsing::syntax_set::{SyntaxReference, SyntaxSet};
use crate::below::parsing::within::{LineLimit, ReadWithinError};
use crate::below::scope::repository::ScopeRepository;
use crate::below::scope::scope::Scope;
use crate::below::scope::stack::{ScopeStack, ScopeStackOp};
use crate::lines::{LineForm, push_line_tag};
use std::alloc::{AllocError, Global};
use std::io::{Error as IoError, ErrorKind};

/// What closes a span.
const SPAN_END: &str = "</span>";

/// What ends a text.
const CLOSING: &str = "</pre>\n";

/// The classes of scopes: how they are named, and the texts that they are named by.
#[derive(Clone, Copy)]
struct Classes<'a> {
    style: ClassStyle,
    repository: &'a ScopeRepository,
}

/// The next line's operations; or none, and the limit that the line reached, and the state stays.
fn read_line(
    alloc: Global,
    state: &mut ParseState,
    line: &str,
    set: &SyntaxSet,
    limits: &Limits,
) -> Result<(Vec<(usize, ScopeStackOp)>, Option<LineLimit>), Error>
    ensures read { IfOk result (λ r. IsReadWithin limits.now set.now line.now r.0.items
        (standing state.old) (standing state.new) r.1) }
    ensures order { IfOk result (λ r. InOrder line.now 0 r.0.items (length line.now)) }
{
    match state.parse_line_within(alloc, line, set, limits) {
        Ok(ops) => Ok((ops, None)),
        Err(ReadWithinError::LimitReached(limit)) => Ok((Vec::new(alloc), Some(limit))),
        Err(ReadWithinError::Refused(e)) => Err(Error::from(e)),
    }
}

/// Appends the tag that opens the span of a scope: what a line without bytes writes that pushes it.
fn push_opening_tag(out: &mut String, classes: Classes<'_>, scope: Scope) -> Result<(), Error>
    ensures { OnOk result (string_bytes out.new ≡ string_bytes out.old
        ++ opening_tag (prefix_of classes.entry.style) classes.entry.repository.now scope) }
{
    let alloc = *out.allocator();
    let push = [(0usize, ScopeStackOp::Push(scope))];
    let mut stack = ScopeStack::new(alloc);
    let (tag, _) = line_tokens_to_classed_spans(
        alloc,
        "",
        &push,
        classes.style,
        &mut stack,
        classes.repository,
    )?;
    out.push_str(tag.as_str())?;
    Ok(())
}

/// Appends the tags that open the spans of scopes.
fn push_opening_tags(out: &mut String, classes: Classes<'_>, scopes: &[Scope]) -> Result<(), Error>
    ensures { OnOk result (string_bytes out.new ≡ string_bytes out.old
        ++ flat_map (opening_tag (prefix_of classes.entry.style) classes.entry.repository.now)
        scopes.now) }
{
    for scope in scopes {
        push_opening_tag(out, classes, *scope)?;
    }
    Ok(())
}

/// Appends what closes so many spans.
fn push_closing_tags(out: &mut String, count: usize) -> Result<(), AllocError>
    ensures { OnOk result (string_bytes out.new ≡ string_bytes out.old ++ closing_tags count) }
{
    for _ in 0..count {
        out.push_str(SPAN_END)?;
    }
    Ok(())
}

/// Appends a line, as its operations open and close spans on a stack, as the one of a number. The
/// spans of the stack are opened before it, and those that are open after it are closed.
fn push_classed(
    out: &mut String,
    stack: &mut ScopeStack,
    classes: Classes<'_>,
    form: LineForm<'_>,
    number: u64,
    line: &str,
    ops: &[(usize, ScopeStackOp)],
) -> Result<(), Error>
    requires { InOrder line.now 0 ops.now (length line.now) }
    ensures text { OnOk result (string_bytes out.new ≡ string_bytes out.old
        ++ classed_line form.entry (prefix_of classes.entry.style) classes.entry.repository.now
        number stack.old line.now ops.now) }
    ensures stack { OnOk result (stack.new ≡ stack_after stack.old ops.now) }
{
    let alloc = *out.allocator();
    push_line_tag(out, form, number)?;
    push_opening_tags(out, classes, stack.as_slice())?;
    let (spans, _) = line_tokens_to_classed_spans(
        alloc,
        line,
        ops,
        classes.style,
        stack,
        classes.repository,
    )?;
    out.push_str(spans.as_str())?;
    push_closing_tags(out, stack.len())?;
    out.push_str(SPAN_END)?;
    Ok(())
}

/// What stands before the lines.
fn start(alloc: Global, style: ClassStyle) -> Result<String, AllocError>
    ensures { IfOk result (λ t. string_bytes t ≡ classed_opening (prefix_of style)) }
{
    format!(in alloc; "<pre class=\"{}code\">", Escape(style.prefix()))
}

/// The lines of a text, read within limits, and the first one that is shown plain because it
/// reached one.
fn classed_lines(
    alloc: Global,
    text: &str,
    syntax: &SyntaxReference,
    set: &SyntaxSet,
    limits: &Limits,
    classes: Classes<'_>,
    form: LineForm<'_>,
) -> Result<(String, Option<PlainLine>), Error>
    ensures { IfOk result (λ r. IsClassed limits.now form.entry set.now syntax.now
        classes.entry.repository.now (prefix_of classes.entry.style) text.now
        (string_bytes r.0) r.1) }
{
    let mut state = ParseState::new(alloc, syntax)?;
    let mut stack = ScopeStack::new(alloc);
    let mut page = start(alloc, classes.style)?;
    let mut lines = LinesWithEndings::from(text);
    let mut first = None;
    for number in form.first..u64::MAX {
        let Some(line) = lines.next() else {
            page.push_str(CLOSING)?;
            return Ok((page, first));
        };
        let (ops, limit) = read_line(alloc, &mut state, line, set, limits)?;
        push_classed(
            &mut page,
            &mut stack,
            classes,
            form,
            number,
            line,
            ops.as_slice(),
        )?;
        first = first_of(first, number - form.first, limit);
    }
    Err(Error::Io(IoError::new(ErrorKind::Other, "too many lines")))
}

/// A text in a syntax of the set as HTML with classes, for a sheet of `css_for_theme_with_class_style`
/// or `sheet_for_light_and_dark`: in a `pre` of the class `code`, with the prefix of the style, and
/// each line in a span of its own, in which the spans of its scopes stand that are open at its start
/// or opened in it. A line that reaches a limit is shown plain in the spans that are open at its
/// start, and the lines after it are read as if it weren't there; the first one is told by its
/// number from 1, whatever the number of the first line is.
///
/// `NotShown` with the line's refusal, with `MissingMainContext` where the syntax has no context
/// `__start`, and where the numbers of lines come to 2^64 - 1.
pub fn classed_in(
    assets: &Assets,
    alloc: Global,
    text: &str,
    syntax: &SyntaxReference,
    style: ClassStyle,
    form: LineForm<'_>,
) -> Result<Shown, AssetsError>
    ensures shown { IfOk result (ShowsClassedIn assets.now text.now syntax.now style form.entry) }
    ensures refused { IfErr result RefusesLine }
{
    let classes = Classes {
        style,
        repository: &assets.repository,
    };
    let (text, plain) = classed_lines(
        alloc,
        text,
        syntax,
        &assets.set,
        &assets.limits,
        classes,
        form,
    )?;
    Ok(Shown {
        text,
        plain,
        first_line: None,
    })
}

/// A text in the language of a name, as by `classed_in`. `UnknownLanguage` where there is none.
pub fn classed_text(
    assets: &Assets,
    alloc: Global,
    text: &str,
    language: &str,
    style: ClassStyle,
    form: LineForm<'_>,
) -> Result<Shown, AssetsError>
    ensures shown { IfOk result
        (ShowsClassedText assets.now text.now language.now style form.entry) }
    ensures refused { IfErr result
        (RefusesText (language_named assets.now language.now) language.now) }
{
    let syntax = assets.language(alloc, language)?;
    classed_in(assets, alloc, text, syntax, style, form)
}
