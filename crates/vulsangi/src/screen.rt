//! Texts for a terminal: control characters made visible, numbers, marked lines, headings.
use std::alloc::{AllocError, Global};
use syntect::assets::Colors;
use syntect::highlighting::{Color, Theme};
use syntect::util::LinesWithEndings;
use vulsangi_words::form::Form;
use vulsangi_words::words::Asked;

/// What puts the terminal's own colours back.
const RESET: &str = "\x1b[0m";

/// What each piece of a shown text begins with.
const PIECE: &str = "\x1b[0";

/// How the lines of a text are written for a terminal.
#[derive(Drop)]
pub struct Lineation {
    /// How many columns numbers take, where there are numbers.
    pub width: Option<usize>,
    /// Whether there are colours.
    pub in_colour: bool,
    /// What stands in place of `PIECE` in a marked line: it sets the colour behind the text.
    pub mark: String,
}

/// Whether a terminal does something at a character other than to show it.
fn acts(c: char) -> bool {
    c.is_control() && c != '\n' && c != '\t'
}

/// A sign that stands for a control character.
fn sign_of(c: char) -> char {
    match c {
        '\u{7f}' => '\u{2421}',
        '\0'..='\u{1f}' => char::from_u32(0x2400 + u32::from(c)).unwrap_or('\u{fffd}'),
        _ => '\u{fffd}',
    }
}

/// Appends a line in which control characters are shown as signs.
fn push_tame(out: &mut String, line: &str) -> Result<(), AllocError> {
    for c in line.chars() {
        out.push(if acts(c) { sign_of(c) } else { c })?;
    }
    Ok(())
}

/// A text in which control characters are shown as signs, so that a terminal does nothing that the
/// text says. Lines may end as on Windows.
pub fn tamed(alloc: Global, text: String) -> Result<String, AllocError> {
    if !text.as_str().chars().any(acts) {
        return Ok(text);
    }
    let mut out = String::new(alloc);
    for line in LinesWithEndings::from(text.as_str()) {
        match line.strip_suffix("\r\n") {
            Some(line) => {
                push_tame(&mut out, line)?;
                out.push('\n')?;
            }
            None => push_tame(&mut out, line)?,
        }
    }
    Ok(out)
}

/// What the numbers of a sequence for colours are made of.
const NUMBERS: [char; 11] = ['0', '1', '2', '3', '4', '5', '6', '7', '8', '9', ';'];

/// A text without the sequences by which a terminal's colours are set.
pub fn without_colours(alloc: Global, text: &str) -> Result<String, AllocError> {
    let mut parts = text.split("\x1b[");
    let mut out = String::from_str(alloc, parts.next().unwrap_or(""))?;
    for part in parts {
        let rest = part.trim_start_matches(NUMBERS);
        match rest.strip_prefix(['m', 'K']) {
            Some(rest) => out.push_str(rest)?,
            None => {
                out.push_str("\x1b[")?;
                out.push_str(part)?;
            }
        }
    }
    Ok(out)
}

/// The text up to the last line that is asked for.
pub fn front_of(alloc: Global, asked: &Asked<'_, '_>, text: String) -> Result<String, AllocError> {
    if asked.lines.is_empty() {
        return Ok(text);
    }
    let mut out = String::new(alloc);
    for (_, line) in (0..asked.lines.last()).zip(LinesWithEndings::from(text.as_str())) {
        out.push_str(line)?;
    }
    Ok(out)
}

/// How many digits a number has.
fn digits_of(alloc: Global, number: usize) -> Result<usize, AllocError> {
    Ok(format!(in alloc; "{number}")?.len())
}

/// Whether the colour behind the text is nearer to white than to black.
fn is_light(theme: &Theme) -> bool {
    let ground = theme.settings.background.unwrap_or(Color::WHITE);
    u32::from(ground.r) * 3 + u32::from(ground.g) * 6 + u32::from(ground.b) > 1275
}

/// What sets the colour behind a marked line: that of the theme for the line of the caret, where
/// the terminal has such colours, or else a gray.
fn mark_of(alloc: Global, colors: Colors, theme: &Theme) -> Result<String, AllocError> {
    match (colors, theme.settings.line_highlight) {
        (Colors::Bits24, Some(Color { r, g, b, a: 255 })) => {
            format!(in alloc; "{PIECE};48;2;{r};{g};{b}")
        }
        _ if is_light(theme) => format!(in alloc; "{PIECE};48;5;254"),
        _ => format!(in alloc; "{PIECE};48;5;237"),
    }
}

impl Lineation {
    /// How the lines of this text are written.
    pub fn new(
        alloc: Global,
        asked: &Asked<'_, '_>,
        form: Form,
        theme: &Theme,
        text: &str,
    ) -> Result<Lineation, AllocError> {
        let width = if asked.number {
            Some(digits_of(alloc, text.lines().count())?.max(4))
        } else {
            None
        };
        match form {
            Form::Screen(colors) => Ok(Lineation {
                width,
                in_colour: true,
                mark: mark_of(alloc, colors, theme)?,
            }),
            _ => Ok(Lineation {
                width,
                in_colour: false,
                mark: String::new(alloc),
            }),
        }
    }

    /// Appends the number of a line, where there are numbers.
    fn push_number(&self, out: &mut String, number: u64) -> Result<(), AllocError> {
        let Some(width) = self.width else {
            return Ok(());
        };
        let digits = format!(in *out.allocator(); "{number}")?;
        if self.in_colour {
            out.push_str("\x1b[0;2m")?;
        }
        for _ in digits.len()..width {
            out.push(' ')?;
        }
        out.push_str(digits.as_str())?;
        out.push_str(if self.in_colour { "\x1b[0m " } else { " " })
    }

    /// Appends a marked line, with a colour behind it up to the edge of the terminal.
    fn push_marked(&self, out: &mut String, line: &str) -> Result<(), AllocError> {
        let (line, end) = match line.strip_suffix('\n') {
            Some(line) => (line, "\n"),
            None => (line, ""),
        };
        let mark = self.mark.as_str();
        let line = line.replace(*out.allocator(), PIECE, mark)?;
        out.push_str(line.as_str())?;
        out.push_str(mark)?;
        out.push_str("m\x1b[K\x1b[0m")?;
        out.push_str(end)
    }

    /// Appends the lines of a shown text that are asked for.
    pub fn push_lines(
        &self,
        out: &mut String,
        asked: &Asked<'_, '_>,
        shown: &str,
    ) -> Result<(), AllocError> {
        let lines = shown.strip_suffix(RESET).unwrap_or(shown);
        for (number, line) in (1..u64::MAX).zip(LinesWithEndings::from(lines)) {
            if !asked.shows(number) {
                continue;
            }
            self.push_number(out, number)?;
            if self.in_colour && asked.marked.contains(number) {
                self.push_marked(out, line)?;
            } else {
                out.push_str(line)?;
            }
        }
        if self.in_colour {
            out.push_str(RESET)?;
        }
        Ok(())
    }
}

/// The heading of a file, which is not the first one where there is a text before it.
pub fn heading(
    alloc: Global,
    in_colour: bool,
    is_first: bool,
    name: &str,
) -> Result<String, AllocError> {
    let before = if is_first { "" } else { "\n" };
    if in_colour {
        format!(in alloc; "{before}\x1b[0;1m{name}\x1b[0m\n")
    } else {
        format!(in alloc; "{before}==> {name} <==\n")
    }
}
