//! The scopes of a text, stretch by stretch, and the rules of a theme that fit them.
use crate::origins::Marks;
use std::alloc::{AllocError, Global};
use syntect::Error;
use syntect::highlighting::{Color, FontStyle, Highlighter, Style, Theme, ThemeItem};
use syntect::parsing::{
    Limits, ParseState, ReadWithinError, ScopeRepository, ScopeStack, ScopeStackOp,
    SyntaxReference, SyntaxSet,
};
use syntect::values::Seq;

/// A stretch of a line, from one byte to before another, and the scopes over it.
#[derive(Drop)]
pub struct Run {
    pub from: usize,
    pub to: usize,
    pub scopes: ScopeStack,
}

/// The stretches of a line between its operations, on a stack that they change.
fn runs_of(
    alloc: Global,
    line: &str,
    operations: &[(usize, ScopeStackOp)],
    stack: &mut ScopeStack,
) -> Result<Vec<Run>, Error> {
    let mut runs = Vec::new(alloc);
    let mut from = 0;
    for (at, operation) in operations {
        if from < *at {
            let scopes = stack.clone()?;
            runs.push(Run {
                from,
                to: *at,
                scopes,
            })?;
            from = *at;
        }
        stack.apply(operation)?;
    }
    if from < line.len() {
        let (to, scopes) = (line.len(), stack.clone()?);
        runs.push(Run { from, to, scopes })?;
    }
    Ok(runs)
}

/// What a text is read by: the grammars, and what a line may take.
pub type By<'a> = (&'a SyntaxSet, &'a Limits);

/// A text that is read for its scopes, line after line.
#[derive(Drop)]
pub struct Reading {
    state: ParseState,
    stack: ScopeStack,
}

impl Reading {
    /// Before the first line of a text in a syntax.
    pub fn new(alloc: Global, syntax: &SyntaxReference) -> Result<Reading, Error> {
        Ok(Reading {
            state: ParseState::new(alloc, syntax)?,
            stack: ScopeStack::new(alloc),
        })
    }

    /// Reads over the next line. One that reaches a limit is passed over, as if it weren't there.
    pub fn pass(&mut self, alloc: Global, by: By<'_>, line: &str) -> Result<(), Error> {
        let (set, limits) = by;
        match self.state.parse_line_within(alloc, line, set, limits) {
            Ok(operations) => {
                for (_, operation) in operations.as_slice() {
                    self.stack.apply(operation)?;
                }
                Ok(())
            }
            Err(ReadWithinError::LimitReached(_)) => Ok(()),
            Err(ReadWithinError::Refused(e)) => Err(Error::from(e)),
        }
    }

    /// The stretches of the next line. One that reaches a limit has none, and the lines after it
    /// are read as if it weren't there.
    pub fn line(&mut self, alloc: Global, by: By<'_>, line: &str) -> Result<Vec<Run>, Error> {
        let (set, limits) = by;
        match self.state.parse_line_within(alloc, line, set, limits) {
            Ok(operations) => runs_of(alloc, line, operations.as_slice(), &mut self.stack),
            Err(ReadWithinError::LimitReached(_)) => Ok(Vec::new(alloc)),
            Err(ReadWithinError::Refused(e)) => Err(Error::from(e)),
        }
    }
}

/// The scopes of a stack, with spaces between them.
pub fn told(
    alloc: Global,
    stack: &ScopeStack,
    repository: &ScopeRepository,
) -> Result<String, Error> {
    let text = stack.build_string(repository)?;
    Ok(String::from_str(alloc, text.as_str().trim_end())?)
}

/// The selectors of a rule, as text.
fn selectors_of(
    alloc: Global,
    rule: &ThemeItem,
    repository: &ScopeRepository,
) -> Result<String, Error> {
    let mut text = String::new(alloc);
    for selector in rule.scope.selectors.as_slice() {
        if !text.as_str().is_empty() {
            text.push_str(", ")?;
        }
        text.push_str(told(alloc, &selector.path, repository)?.as_str())?;
        for excluded in selector.excludes.as_slice() {
            text.push_str(" - ")?;
            text.push_str(told(alloc, excluded, repository)?.as_str())?;
        }
    }
    Ok(text)
}

/// What a rule may set.
#[derive(Clone, Copy)]
enum Attribute {
    Colour,
    Font,
}

/// Whether a rule sets an attribute.
fn sets(rule: &ThemeItem, attribute: Attribute) -> bool {
    match attribute {
        Attribute::Colour => rule.style.foreground.is_some(),
        Attribute::Font => rule.style.font_style.is_some(),
    }
}

/// A copy of a rule that sets an attribute otherwise than a style has it.
fn altered(rule: &ThemeItem, style: Style, attribute: Attribute) -> Result<ThemeItem, AllocError> {
    let mut changed = rule.clone()?;
    match attribute {
        Attribute::Colour => {
            let Color { r, g, b, a } = style.foreground;
            let r = r ^ 1;
            changed.style.foreground = Some(Color { r, g, b, a });
        }
        Attribute::Font => {
            let bold = FontStyle::BOLD.bits();
            let bits = style.font_style.bits() ^ bold;
            changed.style.font_style = Some(FontStyle::from_bits_truncate(bits));
        }
    }
    Ok(changed)
}

/// The rules of a theme, with one of them in place of that with a number.
fn with_rule(
    alloc: Global,
    rules: &[ThemeItem],
    number: usize,
    rule: ThemeItem,
) -> Result<Seq<ThemeItem>, AllocError> {
    let mut all = Vec::with_capacity(alloc, rules.len())?;
    for before in rules.get(..number).unwrap_or(&[]) {
        all.push(before.clone()?)?;
    }
    all.push(rule)?;
    for after in rules.get(number.saturating_add(1)..).unwrap_or(&[]) {
        all.push(after.clone()?)?;
    }
    Ok(Seq::from_vec(all))
}

/// Whether two styles are the same in an attribute.
fn agree(a: &Style, b: &Style, attribute: Attribute) -> bool {
    match attribute {
        Attribute::Colour => a.foreground == b.foreground,
        Attribute::Font => a.font_style == b.font_style,
    }
}

/// The rule that gives a stack an attribute: the one that can't be altered in it without a change of
/// the stack's style. So it is asked of the highlighter itself which rule is the best.
fn winner<'t>(
    alloc: Global,
    theme: &'t Theme,
    stack: &ScopeStack,
    style: Style,
    attribute: Attribute,
) -> Result<Option<&'t ThemeItem>, Error> {
    let rules = theme.scopes.as_slice();
    for (number, rule) in rules.iter().enumerate() {
        if !sets(rule, attribute) || rule.scope.does_match(stack.as_slice())?.is_none() {
            continue;
        }
        let changed = altered(rule, style, attribute)?;
        let mut other = theme.clone()?;
        other.scopes = with_rule(alloc, rules, number, changed)?;
        let asked = Highlighter::new(alloc, &other)?.style_for_stack(stack.as_slice())?;
        if !agree(&asked, &style, attribute) {
            return Ok(Some(rule));
        }
    }
    Ok(None)
}

/// Adds a line on what a rule sets, with the rule, or that none does.
fn add_rule(
    alloc: Global,
    what: &str,
    found: Option<&ThemeItem>,
    repository: &ScopeRepository,
    out: &mut String,
) -> Result<(), Error> {
    match found {
        Some(rule) => {
            let selectors = selectors_of(alloc, rule, repository)?;
            out.push_str(what)?;
            out.push_str(selectors.as_str())?;
        }
        None => {
            out.push_str(what)?;
            out.push_str("no rule: the theme's own")?;
        }
    }
    out.push_str("\n")?;
    Ok(())
}

/// Adds the scopes of a stack, the innermost last, each with the entry of a grammar that gave it, as
/// a stack of marks in their places tells.
pub fn add_scopes(
    stack: &ScopeStack,
    marked: &ScopeStack,
    marks: &Marks,
    repository: &ScopeRepository,
    out: &mut String,
) -> Result<(), Error> {
    for (place, scope) in stack.as_slice().iter().enumerate() {
        out.push_str("scope   ")?;
        out.push_str(scope.build_string(repository)?.as_str())?;
        out.push_str("\n")?;
        if let Some(entry) = marks.entry_at(marked.as_slice(), place) {
            out.push_str("        ")?;
            out.push_str(entry)?;
            out.push_str("\n")?;
        }
    }
    Ok(())
}

/// Adds the style of a stack, and the rules of the theme that gave its colour and its font.
pub fn explain(
    alloc: Global,
    stack: &ScopeStack,
    theme: &Theme,
    repository: &ScopeRepository,
    out: &mut String,
) -> Result<(), Error> {
    let style = Highlighter::new(alloc, theme)?.style_for_stack(stack.as_slice())?;
    let (r, g, b) = (style.foreground.r, style.foreground.g, style.foreground.b);
    let colour = format!(in alloc; "colour  #{r:02x}{g:02x}{b:02x}\n")?;
    out.push_str(colour.as_str())?;
    let colour = winner(alloc, theme, stack, style, Attribute::Colour)?;
    add_rule(alloc, "by      ", colour, repository, out)?;
    let font = winner(alloc, theme, stack, style, Attribute::Font)?;
    add_rule(alloc, "font by ", font, repository, out)
}
