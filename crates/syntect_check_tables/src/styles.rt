//! Styles as texts, and those of stacks of scopes.
use crate::below::scope::repository::ScopeRepository;
use crate::below::scope::stack::ScopeStack;
use crate::below::theme::style::{Color, Style, StyleModifier};
use crate::below::theme::theme::Theme;
use std::alloc::Global;
use syntect_style::highlighter::Highlighter;

/// Adds a colour by two hexadecimal digits a part, and a space; how opaque it is only where it
/// isn't wholly so.
fn write_color(color: Color, out: &mut String) -> Option<()> {
    let Color { r, g, b, a } = color;
    write!(out, "#{r:02x}{g:02x}{b:02x}").ok()?;
    if a != 255 {
        write!(out, "{a:02x}").ok()?;
    }
    out.push(' ').ok()
}

/// Adds the colours and the number of the flags.
pub fn write_style(style: Style, out: &mut String) -> Option<()> {
    write_color(style.foreground, out)?;
    write_color(style.background, out)?;
    write!(out, "{}", style.font_style.bits()).ok()
}

/// Adds a colour, or a dash for none.
fn write_change(color: Option<Color>, out: &mut String) -> Option<()> {
    match color {
        Some(color) => write_color(color, out),
        None => out.push_str("- ").ok(),
    }
}

/// Adds what is changed, a dash for what is not.
pub fn write_modifier(style: StyleModifier, out: &mut String) -> Option<()> {
    write_change(style.foreground, out)?;
    write_change(style.background, out)?;
    match style.font_style {
        Some(flags) => write!(out, "{}", flags.bits()).ok(),
        None => out.push('-').ok(),
    }
}

/// Adds the style of a stack of scopes by the row's theme.
pub fn write_style_of(
    alloc: Global,
    theme: &Theme,
    question: &str,
    repository: &mut ScopeRepository,
    out: &mut String,
) -> Option<()> {
    let stack = ScopeStack::from_text(alloc, question, repository).ok()?;
    let highlighter = Highlighter::new(alloc, theme).ok()?;
    write_style(highlighter.style_for_stack(stack.as_slice()).ok()?, out)
}

/// Adds the change of style of a stack of scopes by the row's theme.
pub fn write_change_of(
    alloc: Global,
    theme: &Theme,
    question: &str,
    repository: &mut ScopeRepository,
    out: &mut String,
) -> Option<()> {
    let stack = ScopeStack::from_text(alloc, question, repository).ok()?;
    let highlighter = Highlighter::new(alloc, theme).ok()?;
    write_modifier(highlighter.style_mod_for_stack(stack.as_slice()).ok()?, out)
}
