//! Files as they are asked for.
use crate::choose::{bytes_of, language_of, name_of, text_of};
use crate::screen::{Lineation, front_of, heading, tamed, without_colours};
use crate::sink::Sink;
use crate::{pages, tex};
use std::alloc::Global;
use std::io;
use std::io::ErrorKind;
use std::rt::Files;
use syntect::Error;
use syntect::assets::{Assets, AssetsError, Format, PlainLine};
use syntect::highlighting::Theme;
use syntect::parsing::SyntaxReference;
use vulsangi_check::vulsangi_grammar::nearest::{COMMANDS, nearest};
use vulsangi_words::form::Form;
use vulsangi_words::words::Asked;

/// What is to be done with each file.
#[derive(Clone, Copy)]
pub struct Job<'j, 'm, 'a> {
    /// What the words ask for.
    pub asked: &'j Asked<'m, 'a>,
    /// The grammars.
    pub assets: &'j Assets,
    /// The theme.
    pub theme: &'j Theme,
    /// What texts are shown as.
    pub form: Form,
    /// Whether a terminal shows what is written.
    pub to_terminal: bool,
    /// Whether there are several files.
    pub several: bool,
}

/// What is shown of a text, and the first line of it that is shown plain since it costs too much.
type Part = (String, Option<PlainLine>);

/// A text, or why there is none.
type Made = Result<String, AssetsError>;

/// A text for a terminal.
fn screen_part(
    rt: &impl AllocGlobal,
    job: &Job<'_, '_, '_>,
    syntax: Option<&SyntaxReference>,
    text: String,
) -> Result<Part, AssetsError> {
    let alloc = rt.alloc();
    let text = if job.to_terminal || job.form != Form::Plain {
        tamed(alloc, text)?
    } else {
        text
    };
    let lines = Lineation::new(alloc, job.asked, job.form, job.theme, text.as_str())?;
    let (shown, plain) = colored(rt, job, syntax, text)?;
    if !job.asked.chooses_lines() {
        return Ok((shown, plain));
    }
    let mut out = String::new(alloc);
    lines.push_lines(&mut out, job.asked, shown.as_str())?;
    Ok((out, plain))
}

/// A text in the colours of a terminal, or as it is where there are none.
fn colored(
    rt: &impl AllocGlobal,
    job: &Job<'_, '_, '_>,
    syntax: Option<&SyntaxReference>,
    text: String,
) -> Result<Part, AssetsError> {
    let (Form::Screen(colors), Some(syntax)) = (job.form, syntax) else {
        return Ok((text, None));
    };
    let format = Format::Screen(colors);
    let shown = job
        .assets
        .show_in(rt.alloc(), text.as_str(), syntax, job.theme, format)?;
    Ok((shown.text, shown.plain))
}

/// A text as a part of a document.
fn document_part(
    rt: &impl AllocGlobal,
    job: &Job<'_, '_, '_>,
    syntax: &SyntaxReference,
    text: &str,
) -> Result<Part, AssetsError> {
    let alloc = rt.alloc();
    let mut out = String::new(alloc);
    let plain = if job.form == Form::Latex {
        tex::push_text(alloc, &mut out, job, syntax, text)?
    } else {
        pages::push_text(alloc, &mut out, job, syntax, text)?
    };
    Ok((out, plain))
}

/// The heading of a file, where files have headings: in each form but that of a pipe, which gets
/// the texts alone, and in parts for another's document.
fn heading_of(
    alloc: Global,
    job: &Job<'_, '_, '_>,
    is_first: bool,
    name: &str,
) -> Result<String, AssetsError> {
    let mut out = String::new(alloc);
    if !job.several || job.asked.fragment {
        return Ok(out);
    }
    match job.form {
        Form::Plain if !job.to_terminal => {}
        Form::Plain => return Ok(heading(alloc, false, is_first, name)?),
        Form::Screen(_) => return Ok(heading(alloc, true, is_first, name)?),
        Form::Latex => tex::push_heading(&mut out, name)?,
        _ => pages::push_heading(&mut out, name)?,
    }
    Ok(out)
}

/// The parts of a text in a language, for a terminal or for a document.
fn part_of(
    rt: &impl AllocGlobal,
    job: &Job<'_, '_, '_>,
    syntax: Option<&SyntaxReference>,
    text: &str,
) -> Result<Part, AssetsError> {
    match syntax {
        Some(syntax) if job.form.has_document() => document_part(rt, job, syntax, text),
        syntax => screen_part(rt, job, syntax, String::from_str(rt.alloc(), text)?),
    }
}

/// Tells that a text is shown plain, since a line of it is refused.
fn tell_plain(rt: &impl Eprint, name: &str, e: &AssetsError) -> io::Result<()> {
    tell(rt, name, e)?;
    eprintln!(rt; "vulsangi: {name}: shown plain; vulsangi check tells what its grammar lacks")
}

/// What is shown of a text, and whether it is shown in its language. One of which a line is refused,
/// since its grammar leads nowhere there, is told, and shown as plain text.
fn part_or_plain(
    rt: &(impl AllocGlobal + Eprint),
    job: &Job<'_, '_, '_>,
    name: &str,
    syntax: Option<&SyntaxReference>,
    text: &str,
) -> Result<(Part, bool), AssetsError> {
    let e = match part_of(rt, job, syntax, text) {
        Ok(part) => return Ok((part, true)),
        Err(e) => e,
    };
    if !matches!(e, AssetsError::NotShown(_)) || is_closed(&e) {
        return Err(e);
    }
    tell_plain(rt, name, &e)?;
    let plain = job.assets.set.find_syntax_plain_text();
    Ok((part_of(rt, job, plain, text)?, false))
}

/// A text as it is to be shown: what comes in by a pipe as a diff has no colours of its own.
fn given(rt: &impl AllocGlobal, job: &Job<'_, '_, '_>, file: &str, text: String) -> Made {
    let alloc = rt.alloc();
    if file != "-" || job.form == Form::Plain || !text.as_str().contains('\x1b') {
        return Ok(text);
    }
    let bare = without_colours(alloc, text.as_str())?;
    let syntax = language_of(rt, job.assets, job.asked, file, bare.as_str())?;
    match syntax.name.as_str() {
        "Diff" | "Git Commit" => Ok(bare),
        _ => Ok(text),
    }
}

/// A text, unless it is a binary file's and is to be shown in colour.
fn no_binary(rt: &impl AllocGlobal, job: &Job<'_, '_, '_>, name: &str, text: String) -> Made {
    if text.as_str().contains('\0') && (job.to_terminal || job.form != Form::Plain) {
        let told = format!(in rt.alloc(); "{name}: a binary file, which isn't shown")?;
        return Err(AssetsError::NotRead(told));
    }
    Ok(text)
}

/// The text of a file as it is to be shown.
fn readable<'a>(
    rt: &(impl AllocGlobal + Input + Files),
    job: &Job<'_, '_, 'a>,
    file: &'a str,
) -> Made {
    let text = text_of(rt, job.asked, file)?;
    let text = no_binary(rt, job, name_of(job.asked, file), text)?;
    let text = given(rt, job, file, text)?;
    Ok(front_of(rt.alloc(), job.asked, text)?)
}

/// What is shown of the text of a file, and whether it is shown in its language.
fn made_of<'a>(
    rt: &(impl AllocGlobal + Eprint),
    job: &Job<'_, '_, 'a>,
    file: &'a str,
    text: &str,
) -> Result<(Part, bool), AssetsError> {
    let syntax = match job.form {
        Form::Plain => None,
        _ => Some(language_of(rt, job.assets, job.asked, file, text)?),
    };
    part_or_plain(rt, job, name_of(job.asked, file), syntax, text)
}

/// Puts what is shown of a file after what was put before, with its heading, and tells of a line that
/// is plain.
fn put(
    rt: &(impl AllocGlobal + Print + Eprint),
    sink: &mut Sink,
    job: &Job<'_, '_, '_>,
    name: &str,
    part: &Part,
) -> Result<(), AssetsError> {
    let heading = heading_of(rt.alloc(), job, sink.is_new(), name)?;
    sink.put(rt, heading.as_str())?;
    sink.put(rt, part.0.as_str())?;
    if let Some((line, limit)) = &part.1 {
        eprintln!(rt; "vulsangi: {name}:{line}: shown plain: {limit}")?;
    }
    Ok(())
}

/// Shows a file, and answers whether it is shown in its language.
fn show<'a>(
    rt: &(impl AllocGlobal + Print + Eprint + Input + Files),
    sink: &mut Sink,
    job: &Job<'_, '_, 'a>,
    file: &'a str,
) -> Result<bool, AssetsError> {
    let text = readable(rt, job, file)?;
    let (part, is_whole) = made_of(rt, job, file, text.as_str())?;
    put(rt, sink, job, name_of(job.asked, file), &part)?;
    Ok(is_whole)
}

/// Whether nobody reads any more what is written.
pub fn is_closed(e: &AssetsError) -> bool {
    matches!(e, AssetsError::NotShown(Error::Io(e)) if e.kind() == ErrorKind::BrokenPipe)
}

/// Tells why a file isn't shown.
fn tell(rt: &impl Eprint, name: &str, e: &AssetsError) -> io::Result<()> {
    match e {
        AssetsError::NotRead(told) => eprintln!(rt; "vulsangi: {told}"),
        AssetsError::NotShown(Error::Io(e)) => match nearest(COMMANDS, name) {
            Some(word) if e.kind() == ErrorKind::NotFound => {
                eprintln!(rt; "vulsangi: {name}: {e}; is the command '{word}' meant?")
            }
            _ => eprintln!(rt; "vulsangi: {name}: {e}"),
        },
        e => eprintln!(rt; "vulsangi: {name}: {e}"),
    }
}

/// Shows a file. Into a pipe its bytes pass as they are, where nothing is asked for but the text.
fn show_or_pass<'a>(
    rt: &(impl AllocGlobal + Print + Eprint + Input + Files),
    sink: &mut Sink,
    job: &Job<'_, '_, 'a>,
    file: &'a str,
) -> Result<bool, AssetsError> {
    let passes = job.form == Form::Plain && !job.to_terminal && !job.asked.strict;
    if !passes || job.asked.chooses_lines() || sink.keeps() {
        return show(rt, sink, job, file);
    }
    let bytes = bytes_of(rt, file)?;
    sink.pass(rt, bytes.as_slice())?;
    Ok(true)
}

/// Shows a file, or tells why not, and answers whether it was shown.
fn show_or_tell<'a>(
    rt: &(impl AllocGlobal + Print + Eprint + Input + Files),
    sink: &mut Sink,
    job: &Job<'_, '_, 'a>,
    file: &'a str,
) -> Result<bool, AssetsError> {
    let e = match show_or_pass(rt, sink, job, file) {
        Ok(is_whole) => return Ok(is_whole),
        Err(e) => e,
    };
    if is_closed(&e) {
        return Err(e);
    }
    tell(rt, name_of(job.asked, file), &e)?;
    Ok(false)
}

/// Shows files one after another, and answers whether all were shown.
pub fn show_each<'a>(
    rt: &(impl AllocGlobal + Print + Eprint + Input + Files),
    sink: &mut Sink,
    job: &Job<'_, '_, 'a>,
    files: &[&'a str],
) -> Result<bool, AssetsError> {
    let mut all = true;
    for file in files {
        all &= show_or_tell(rt, sink, job, *file)?;
    }
    Ok(all)
}
