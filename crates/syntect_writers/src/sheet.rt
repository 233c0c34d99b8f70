//! The style sheet of a theme.
ghost use Rattle.std.specs.List.{list_all};
ghost use Rattle.std.specs.Prelude.{◌≡◌, ◌++◌, List, ℕ, true, codes, string_bytes, IfOk, OnOk};
ghost use Rattle.syntect_writers.specs.Classes.{prefix_of};
ghost use Rattle.syntect_writers.specs.Comment.{after_comment, stays_inside};
ghost use Rattle.syntect_writers.specs.Left.{rule_left, rule_from};
ghost use Rattle.syntect_writers.specs.Sheet.{class_selector, scope_selector, path_selector, color_line, font_lines, flag_lines, declarations, block, rule_text, theme_name, heading, sheet_start, sheet_rules, sheet_text};
ghost use Rattle.syntect_theme.specs.declared.style.StyleModifier.{StyleModifier as Change};
ghost use Rattle.syntect_writers.specs.Spans.{asked_for};

use crate::class_style::ClassStyle;
use crate::comment::push_name;
use crate::html::push_rgb;
use crate::identifier::push_identifier;
use crate::syntect_scope::repository::ScopeRepository;
use crate::syntect_scope::scope::Scope;
use crate::syntect_scope::selector::ScopeSelector;
use std::alloc::{AllocError, Global};
use syntect_theme::style::{Color, FontStyle};
use syntect_theme::theme::{Theme, ThemeItem};

/// Appends the selector of a class.
fn push_class(alloc: Global, out: &mut String, prefix: &str, name: &str) -> Result<(), AllocError>
    ensures { OnOk result (string_bytes out.new ≡ string_bytes out.old
        ++ class_selector prefix.now name.now) }
{
    let class = format!(in alloc; "{prefix}{name}")?;
    out.push('.')?;
    push_identifier(out, class.as_str())
}

/// Appends the selector of a scope.
fn push_scope(
    alloc: Global,
    out: &mut String,
    prefix: &str,
    repository: &ScopeRepository,
    scope: Scope,
) -> Result<(), AllocError>
    ensures { OnOk result (string_bytes out.new ≡ string_bytes out.old
        ++ scope_selector prefix.now repository.now scope) }
{
    for place in 0..scope.len() as usize {
        let name = repository.atom_or_mark(scope.atom_at(place));
        push_class(alloc, out, prefix, name)?;
    }
    Ok(())
}

/// Appends the selector of a path.
fn push_path(
    alloc: Global,
    out: &mut String,
    prefix: &str,
    repository: &ScopeRepository,
    scopes: &[Scope],
) -> Result<(), AllocError>
    ensures { OnOk result (string_bytes out.new ≡ string_bytes out.old
        ++ path_selector prefix.now repository.now scopes.now) }
{
    let Some((first, others)) = scopes.split_first() else {
        return Ok(());
    };
    push_scope(alloc, out, prefix, repository, *first)?;
    for scope in others {
        out.push(' ')?;
        push_scope(alloc, out, prefix, repository, *scope)?;
    }
    Ok(())
}

/// Appends a line with a colour, if there is one.
fn push_color_line(out: &mut String, name: &str, color: Option<Color>) -> Result<(), AllocError>
    ensures { OnOk result (string_bytes out.new ≡ string_bytes out.old
        ++ color_line name.now color) }
{
    let Some(color) = color else {
        return Ok(());
    };
    out.push_str(name)?;
    push_rgb(out, color)?;
    out.push_str(";\n")
}

/// Appends a text, if it is asked for.
#[tactic(auto, unfolding(crate::specs::Spans::asked_for))]
fn push_if(out: &mut String, asked: bool, text: &str) -> Result<(), AllocError>
    ensures { OnOk result (string_bytes out.new ≡ string_bytes out.old
        ++ asked_for asked text.now) }
{
    if asked {
        out.push_str(text)?;
    }
    Ok(())
}

/// Appends the lines of a font's flags.
fn push_font_lines(out: &mut String, font: FontStyle) -> Result<(), AllocError>
    ensures { OnOk result (string_bytes out.new ≡ string_bytes out.old ++ font_lines font) }
{
    let bits = font.bits();
    push_if(out, bits & 2 == 2, "text-decoration: underline;\n")?;
    push_if(out, bits & 1 == 1, "font-weight: bold;\n")?;
    push_if(out, bits & 4 == 4, "font-style: italic;\n")?;
    Ok(())
}

/// Appends the lines of a font's flags, if there is a font.
fn push_flag_lines(out: &mut String, font: Option<FontStyle>) -> Result<(), AllocError>
    ensures { OnOk result (string_bytes out.new ≡ string_bytes out.old ++ flag_lines font) }
{
    match font {
        None => Ok(()),
        Some(font) => push_font_lines(out, font),
    }
}

/// Puts declarations last.
fn push_declarations(
    out: &mut String,
    foreground: Option<Color>,
    background: Option<Color>,
    font: Option<FontStyle>,
) -> Result<(), AllocError>
    ensures { OnOk result (string_bytes out.new ≡ string_bytes out.old
        ++ declarations foreground background font) }
{
    push_color_line(out, " color: ", foreground)?;
    push_color_line(out, " background-color: ", background)?;
    push_flag_lines(out, font)
}

/// Appends a selector, if its path has a scope. Answers whether none has been put yet.
fn push_selector(
    alloc: Global,
    out: &mut String,
    prefix: &str,
    repository: &ScopeRepository,
    first: bool,
    selector: &ScopeSelector,
) -> Result<bool, AllocError>
    ensures { (left : List (List ℕ)) (style : Change) → IfOk result (λ f. string_bytes out.new
        ++ rule_left f left style
        ≡ string_bytes out.old
        ++ rule_from first prefix.now repository.now selector.now left style) }
{
    if selector.path.is_empty() {
        return Ok(first);
    }
    if !first {
        out.push_str(", ")?;
    }
    push_path(alloc, out, prefix, repository, selector.path.as_slice())?;
    Ok(false)
}

/// Puts declarations last, in braces.
fn push_block(
    out: &mut String,
    foreground: Option<Color>,
    background: Option<Color>,
    font: Option<FontStyle>,
) -> Result<(), AllocError>
    ensures { OnOk result (string_bytes out.new ≡ string_bytes out.old
        ++ block foreground background font) }
{
    out.push_str(" {\n")?;
    push_declarations(out, foreground, background, font)?;
    out.push_str("}\n")
}

/// Appends a rule, if one of its selectors has a path.
fn push_rule(
    alloc: Global,
    out: &mut String,
    prefix: &str,
    repository: &ScopeRepository,
    item: &ThemeItem,
) -> Result<(), AllocError>
    ensures { OnOk result (string_bytes out.new ≡ string_bytes out.old
        ++ rule_text prefix.now repository.now item.now) }
{
    let mut first = true;
    for selector in item.scope.selectors.as_slice() {
        first = push_selector(alloc, out, prefix, repository, first, selector)?;
    }
    if !first {
        let style = item.style;
        push_block(out, style.foreground, style.background, style.font_style)?;
    }
    Ok(())
}

/// Appends the name of a theme.
fn push_theme_name(alloc: Global, out: &mut String, theme: &Theme) -> Result<(), AllocError>
    ensures { OnOk result (string_bytes out.new ≡ string_bytes out.old ++ theme_name theme.now) }
{
    match &theme.name {
        Some(name) => push_name(alloc, out, name.as_str()),
        None => out.push_str("unknown theme"),
    }
}

/// Appends the comment that names the theme.
#[tactic(auto, using(crate::proofs::SpanLaws::three_joined))]
fn push_heading(alloc: Global, out: &mut String, theme: &Theme) -> Result<(), AllocError>
    ensures { OnOk result (string_bytes out.new ≡ string_bytes out.old ++ heading theme.now) }
{
    out.push_str("/*\n * theme \"")?;
    push_theme_name(alloc, out, theme)?;
    out.push_str("\" generated by syntect\n */\n\n")?;
    Ok(())
}

/// Puts last what stands before the rules.
fn push_start(
    alloc: Global,
    out: &mut String,
    prefix: &str,
    theme: &Theme,
) -> Result<(), AllocError>
    ensures { OnOk result (string_bytes out.new ≡ string_bytes out.old
        ++ sheet_start prefix.now theme.now) }
{
    push_heading(alloc, out, theme)?;
    push_class(alloc, out, prefix, "code")?;
    push_block(
        out,
        theme.settings.foreground,
        theme.settings.background,
        None,
    )?;
    out.push_str("\n")?;
    Ok(())
}

/// The style sheet of a theme.
fn sheet_of(
    alloc: Global,
    theme: &Theme,
    repository: &ScopeRepository,
    prefix: &str,
) -> Result<String, AllocError>
    ensures { IfOk result (λ t. string_bytes t
        ≡ sheet_text prefix.now repository.now theme.now) }
{
    let mut out = String::new(alloc);
    push_start(alloc, &mut out, prefix, theme)?;
    for item in theme.scopes.as_slice() {
        push_rule(alloc, &mut out, prefix, repository, item)?;
    }
    Ok(out)
}

/// A style sheet for HTML with classes of this style, in which spans of code stand in an element of
/// the class `code`. A rule of the theme is one of the sheet; its selectors without a path are left
/// out, and so is a rule that has no other ones. Exclusions of selectors have no counterpart and
/// aren't told.
///
/// The sheet begins with a comment that names the theme, without what could end the comment or the
/// element that holds the sheet: of the name each `<`, each control character and each `*/` is left
/// out. So a sheet of a stranger's theme can stand in a page as it is.
pub fn css_for_theme_with_class_style(
    alloc: Global,
    theme: &Theme,
    repository: &ScopeRepository,
    style: ClassStyle,
) -> Result<String, AllocError>
    ensures text { IfOk result (λ t. string_bytes t
        ≡ sheet_text (prefix_of style) repository.now theme.now) }
    // whatever the theme's name is, the comment that tells it ends before the rules
    ensures comment { IfOk result (λ t. after_comment (string_bytes t)
        ≡ codes "\n\n" ++ sheet_rules (prefix_of style) repository.now theme.now) }
    // no `<` ends the element that holds the sheet
    ensures inside { IfOk result (λ t. list_all stays_inside (string_bytes t) ≡ true) }
{
    let sheet = sheet_of(alloc, theme, repository, style.prefix())?;
    Ok(sheet)
}
