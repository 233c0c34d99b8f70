//! What the words ask for, from loading to writing.
use crate::choose::{main_theme, name_of};
use crate::places::loaded;
use crate::show::{Job, show_each};
use crate::sink::Sink;
use crate::{list, pages, tex};
use std::fs;
use std::path::Path;
use std::rt::{Env, Files};
use syntect::assets::{Assets, AssetsBuilder, AssetsError};
use syntect::highlighting::Theme;
use vulsangi_check::vulsangi_grammar::nearest::language_called;
use vulsangi_convert::convert::converted;
use vulsangi_words::form::{Form, form_of};
use vulsangi_words::words::Asked;

/// Writes a text to standard output, or into the file that is asked for.
pub fn write_out(
    rt: &(impl AllocGlobal + Print + Files),
    output: Option<&str>,
    text: &str,
) -> Result<(), AssetsError> {
    let Some(file) = output else {
        return Ok(print!(rt; "{text}")?);
    };
    match fs::write(rt, file, text) {
        Ok(()) => Ok(()),
        Err(e) => Err(AssetsError::NotRead(format!(in rt.alloc(); "{file}: {e}")?)),
    }
}

/// Refuses to write into a file that is read.
fn keep_inputs(
    rt: &(impl AllocGlobal + Files),
    asked: &Asked<'_, '_>,
    files: &[&str],
) -> Result<(), AssetsError> {
    let Some(output) = asked.output else {
        return Ok(());
    };
    let Ok(place) = fs::canonicalize(rt, output) else {
        return Ok(());
    };
    for file in files {
        if let Ok(other) = fs::canonicalize(rt, *file) {
            if other.as_str() == place.as_str() {
                let told = format!(in rt.alloc(); "{file}: the output would be written over it")?;
                return Err(AssetsError::NotRead(told));
            }
        }
    }
    Ok(())
}

/// The grammars and themes, where they are needed: a text that is written as it is needs none.
fn assets_of(
    rt: &(impl AllocGlobal + Eprint + Files + Env),
    asked: &Asked<'_, '_>,
    form: Form,
) -> Result<Assets, AssetsError> {
    if form == Form::Plain && !asked.names_looks() {
        return AssetsBuilder::new(rt.alloc())?.build(rt.alloc());
    }
    loaded(rt, asked.folders)
}

/// The theme of the texts.
fn theme_for(
    rt: &(impl AllocGlobal + Files + Env),
    assets: &mut Assets,
    asked: &Asked<'_, '_>,
    form: Form,
) -> Result<Theme, AssetsError> {
    if form == Form::Plain && asked.theme.is_none() {
        return Ok(Theme::default(rt.alloc()));
    }
    main_theme(rt, assets, asked)
}

/// The files put together, with a document round them where one is asked for.
fn put_together(
    rt: &impl AllocGlobal,
    job: &Job<'_, '_, '_>,
    title: &str,
    classes: Option<&str>,
    body: String,
) -> Result<String, AssetsError> {
    if job.asked.fragment {
        return Ok(body);
    }
    let alloc = rt.alloc();
    let whole = match job.form {
        Form::Html => pages::whole(alloc, job.theme, title, None, body.as_str())?,
        Form::Classes => pages::whole(alloc, job.theme, title, classes, body.as_str())?,
        Form::Latex => tex::document(alloc, job.theme, body.as_str())?,
        _ => body,
    };
    Ok(whole)
}

/// The title of a document.
fn title_of<'a>(asked: &Asked<'_, 'a>, files: &[&'a str]) -> &'a str {
    match files {
        [file] => name_of(asked, *file),
        _ => "Files",
    }
}

/// Shows the files of a job, and answers whether all were shown.
fn show_job<'a>(
    rt: &(impl AllocGlobal + Print + Eprint + Input + Files),
    job: &Job<'_, '_, 'a>,
    files: &[&'a str],
    classes: Option<&str>,
) -> Result<bool, AssetsError> {
    let keeps = job.asked.output.is_some() || job.form.has_document();
    let mut sink = Sink::new(rt.alloc(), keeps);
    let all = show_each(rt, &mut sink, job, files)?;
    if !all && sink.is_new() {
        return Ok(false);
    }
    let Some(body) = sink.into_text() else {
        return Ok(all);
    };
    let text = put_together(rt, job, title_of(job.asked, files), classes, body)?;
    write_out(rt, job.asked.output, text.as_str())?;
    Ok(all)
}

/// Writes the sheet that texts with classes are shown by.
fn show_sheet(
    rt: &(impl AllocGlobal + Print + Files),
    assets: &mut Assets,
    asked: &Asked<'_, '_>,
    theme: &Theme,
) -> Result<bool, AssetsError> {
    let sheet = pages::sheet_of(rt, assets, asked, theme)?;
    write_out(rt, asked.output, sheet.as_str())?;
    Ok(true)
}

/// The sheet of a document with classes; none where no classes are made.
fn classes_of(
    rt: &(impl AllocGlobal + Files),
    assets: &mut Assets,
    asked: &Asked<'_, '_>,
    theme: &Theme,
    form: Form,
) -> Result<Option<String>, AssetsError> {
    if form != Form::Classes {
        return Ok(None);
    }
    let mut sheet = pages::sheet_of(rt, assets, asked, theme)?;
    pages::push_grounds_of(rt, assets, asked, theme, &mut sheet)?;
    Ok(Some(sheet))
}

/// Refuses a language that there isn't, and an output that would be written over an input.
fn look_ahead(
    rt: &(impl AllocGlobal + Files),
    assets: &Assets,
    asked: &Asked<'_, '_>,
    files: &[&str],
) -> Result<(), AssetsError> {
    if let Some(name) = asked.language {
        language_called(rt.alloc(), assets, name)?;
    }
    keep_inputs(rt, asked, files)
}

/// Shows each file, or standard input where there is none, and answers whether all were shown.
fn show_files<'a>(
    rt: &(impl AllocGlobal + Print + Eprint + Input + Files + Env),
    assets: &mut Assets,
    asked: &Asked<'_, 'a>,
    form: Form,
    to_terminal: bool,
) -> Result<bool, AssetsError> {
    let theme = theme_for(rt, assets, asked, form)?;
    if form == Form::Sheet {
        return show_sheet(rt, assets, asked, &theme);
    }
    let none: &[&'a str] = &["-"];
    let files = asked.files.unwrap_or(none);
    look_ahead(rt, assets, asked, files)?;
    let classes = classes_of(rt, assets, asked, &theme, form)?;
    let job = Job {
        asked,
        assets,
        theme: &theme,
        form,
        to_terminal,
        several: files.len() > 1,
    };
    show_job(
        rt,
        &job,
        files,
        classes.as_ref().map(|sheet| sheet.as_str()),
    )
}

/// Converts a theme.
pub fn write_converted(
    rt: &(impl AllocGlobal + Print + Files),
    theme: &str,
    output: Option<&str>,
) -> Result<bool, AssetsError> {
    let text = converted(rt, theme)?;
    if let Some(folder) = output.and_then(|file| Path::new(file).parent()) {
        fs::create_dir_all(rt, folder)?;
    }
    write_out(rt, output, text.as_str())?;
    Ok(true)
}

/// Does what is asked for, and answers whether all of it was shown.
pub fn perform(
    rt: &(impl AllocGlobal + Print + Eprint + Input + Files + Env),
    asked: &Asked<'_, '_>,
    to_terminal: bool,
) -> Result<bool, AssetsError> {
    let to_terminal = to_terminal && asked.output.is_none();
    let form = form_of(rt, asked, to_terminal);
    let mut assets = assets_of(rt, asked, form)?;
    if asked.list_languages {
        let text = list::languages(rt.alloc(), &assets)?;
        write_out(rt, asked.output, text.as_str())?;
        return Ok(true);
    }
    if asked.list_themes {
        let text = list::themes(rt.alloc(), &assets, form)?;
        write_out(rt, asked.output, text.as_str())?;
        return Ok(true);
    }
    show_files(rt, &mut assets, asked, form, to_terminal)
}
