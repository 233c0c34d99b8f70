//! Lines as spans with inline styles.
ghost use Rattle.std.specs.Prelude.{◌≡◌, ◌++◌, ◌∷◌, List, ℕ, string_bytes, IfOk, OnOk, OnErr, IfSome};
ghost use Rattle.syntect_theme.specs.declared.style.Style.{Style as Plain};
ghost use Rattle.syntect_writers.specs.Opened.{behind_open, line_behind, close_of, continued};
ghost use Rattle.syntect_writers.specs.Spans.{open_tag, line_text};

use crate::html::{IncludeBackground, joins_span, push_tag, same_style};
use crate::tail::Tail;
use std::alloc::{AllocError, Global};
use std::marker::Model;
use std::mem::replace;
use syntect_theme::style::Style;

/// Of so many styles the tags are kept: few themes have more in one text.
const MOST_KEPT: usize = 16;

/// The tag that opens a span of a style.
#[derive(Drop)]
struct Tag {
    style: Style,
    text: String,
}

/// Writes the lines of a page as spans. It keeps the tags of the first styles that it meets, so
/// that each of these is put together once and not at each span.
#[derive(Drop)]
pub struct SpanWriter {
    ground: IncludeBackground,
    /// How many tags are kept at most.
    most: usize,
    kept: Vec<Tag>,
}

impl Model for SpanWriter {
    ghost use Rattle.syntect_writers.specs.declared.html.IncludeBackground.{IncludeBackground};
    ghost use Rattle.syntect_writers.specs.Tags.{AreTags};

    ghost Value = { IncludeBackground };

    ghost view = { λ a. a.ground };

    ghost invariant = { λ a. AreTags a.ground a.kept.items };
}

/// Ends the span that is open, if one is.
fn close_span(out: &mut Tail, last: Option<Style>) -> Result<(), AllocError>
    ensures front { out.new.front ≡ out.old.front }
    ensures back { OnOk result (out.new.back ≡ out.old.back ++ close_of last) }
{
    if last.is_some() {
        out.push_str("</span>")?;
    }
    Ok(())
}

/// The style of the open span, if the piece goes into it.
fn continued(last: Option<Style>, style: Style, text: &str) -> Option<Style>
    ensures { result ≡ continued last (style, text.now) }
{
    match last {
        Some(before) if joins_span(before, style, text) => Some(before),
        _ => None,
    }
}

/// The tag that opens a span of a style.
fn tag_of(alloc: Global, ground: IncludeBackground, style: Style) -> Result<String, AllocError>
    ensures { IfOk result (λ text. string_bytes text ≡ open_tag ground style) }
{
    let mut out = Tail::behind(String::new(alloc));
    push_tag(&mut out, ground, style)?;
    Ok(out.into_text())
}

impl SpanWriter {
    /// A writer of spans that give the colour behind their text so. Takes no memory.
    pub fn new(alloc: Global, bg: IncludeBackground) -> SpanWriter
        ensures { result ≡ bg }
    {
        SpanWriter {
            ground: bg,
            most: MOST_KEPT,
            kept: Vec::new(alloc),
        }
    }

    /// A writer of spans that give the colour behind their text so, where no tag is worth keeping.
    /// It never takes memory of its own.
    pub(crate) fn of_one_line(alloc: Global, bg: IncludeBackground) -> SpanWriter
        ensures { result ≡ bg }
    {
        SpanWriter {
            ground: bg,
            most: 0,
            kept: Vec::new(alloc),
        }
    }

    /// The tag of a style, if it is kept.
    fn kept_tag(&self, style: Style) -> Option<&str>
        ensures { IfSome result (λ text. text.now ≡ open_tag self.now style) }
    {
        for tag in self.kept.iter() {
            if same_style(tag.style, style) {
                return Some(tag.text.as_str());
            }
        }
        None
    }

    /// Keeps the tag of a style, where one more is kept.
    fn keep(&mut self, style: Style) -> Result<(), AllocError>
        ensures { self.new ≡ self.old }
    {
        if self.kept.len() < self.most {
            let text = tag_of(*self.kept.allocator(), self.ground, style)?;
            self.kept.push(Tag { style, text })?;
        }
        Ok(())
    }

    /// Appends the tag that opens a span of a style.
    fn open_span(&mut self, out: &mut Tail, style: Style) -> Result<(), AllocError>
        ensures kept { self.new ≡ self.old }
        ensures front { out.new.front ≡ out.old.front }
        ensures back { OnOk result (out.new.back ≡ out.old.back ++ open_tag self.old style) }
    {
        if let Some(text) = self.kept_tag(style) {
            return out.push_str(text);
        }
        self.keep(style)?;
        push_tag(out, self.ground, style)
    }

    /// Appends a piece, after those whose span is open. Answers the style of the span
    /// that is then open.
    fn push_piece(
        &mut self,
        out: &mut Tail,
        last: Option<Style>,
        style: Style,
        text: &str,
    ) -> Result<Style, AllocError>
        ensures kept { self.new ≡ self.old }
        ensures front { out.new.front ≡ out.old.front }
        ensures back { (ps : List (Plain × List ℕ)) → IfOk result (λ s.
            out.new.back ++ behind_open self.old s ps
            ≡ out.old.back ++ line_behind self.old last ((style, text.now) ∷ ps)) }
    {
        match continued(last, style, text) {
            Some(before) => {
                out.push_escaped(text)?;
                Ok(before)
            }
            None => {
                close_span(out, last)?;
                self.open_span(out, style)?;
                out.push_escaped(text)?;
                Ok(style)
            }
        }
    }

    /// Appends a line of pieces, as spans.
    fn push_line(&mut self, out: &mut Tail, v: &[(Style, &str)]) -> Result<(), AllocError>
        ensures kept { self.new ≡ self.old }
        ensures front { out.new.front ≡ out.old.front }
        ensures back { OnOk result (out.new.back ≡ out.old.back ++ line_text self.old v.now) }
    {
        let mut last = None;
        for piece in v {
            let (style, text) = *piece;
            match self.push_piece(out, last, style, text) {
                Ok(open) => last = Some(open),
                Err(e) => return Err(e),
            }
        }
        close_span(out, last)?;
        Ok(())
    }

    /// Appends a line of styled pieces, as `append_highlighted_html_for_styled_line` does. Without
    /// memory the text is as it was.
    pub fn append(&mut self, v: &[(Style, &str)], s: &mut String) -> Result<(), AllocError>
        ensures kept { self.new ≡ self.old }
        ensures ok { OnOk result
            (string_bytes s.new ≡ string_bytes s.old ++ line_text self.old v.now) }
        ensures err { OnErr result (string_bytes s.new ≡ string_bytes s.old) }
    {
        let mut tail = Tail::behind(replace(s, String::new(*s.allocator())));
        match self.push_line(&mut tail, v) {
            Ok(()) => {
                *s = tail.into_text();
                Ok(())
            }
            Err(e) => {
                *s = tail.into_front();
                Err(e)
            }
        }
    }
}
