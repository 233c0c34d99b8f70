//! The words of the program.
use crate::ranges::{LineRange, Lines};
use clap::{Arg, ArgAction, ArgMatches, Command, Error};
use std::alloc::{AllocError, AllocFailed, Global};
use std::fmt;

/// The version of the program.
const VERSION: &str = "0.1.0";

const EXAMPLES: &str = "Examples:
  vulsangi src/main.rs                  show a file in colour
  git diff | vulsangi -l diff           show what comes in
  vulsangi -n -r 20:40 src/main.rs      lines 20 to 40, with their numbers
  vulsangi -H 7 -H 12:15 run.py         mark some lines
  vulsangi -f html -o a.html a.py       make a page of HTML
  vulsangi -f css --light dawn --dark dusk > code.css
  vulsangi --color always a.c | less -R read it page by page
  vulsangi --grammars mine notes.note   with grammars of your own
  vulsangi check mine                   what is wrong with your grammars
  vulsangi test --grammars mine mine/tests/syntax_test_note.note
  vulsangi scopes a.py:12:5             why is this word blue?
  vulsangi convert Monokai.tmTheme -o ~/.config/vulsangi/themes/monokai.json

Grammars and themes of your own in ~/.config/vulsangi are found each time. The status is 0; it is 1
where a file isn't shown, which a line on standard error tells, and 2 where the words are wrong.";

/// When text for a terminal is coloured.
#[derive(Clone, Copy, Debug, PartialEq, Eq)]
pub enum Color {
    /// Where standard output is a terminal and `NO_COLOR` isn't set.
    Auto,
    Always,
    Never,
}

/// What is made of a text.
#[derive(Clone, Copy, Debug, PartialEq, Eq)]
pub enum Made {
    /// Text for a terminal.
    Terminal,
    /// HTML with inline styles.
    Html,
    /// HTML with classes.
    Classes,
    /// A style sheet for these classes, of no text.
    Sheet,
    /// LaTeX.
    Latex,
}

/// What the words ask for.
#[derive(Drop)]
pub struct Asked<'m, 'a> {
    /// The files, of which `-` is standard input.
    pub files: Option<&'m [&'a str]>,
    /// The language of all files.
    pub language: Option<&'a str>,
    /// The name by which standard input is known.
    pub file_name: Option<&'a str>,
    /// Whether bytes that aren't UTF-8 are refused.
    pub strict: bool,
    /// What is made of the files.
    pub made: Made,
    /// The file that is written in place of standard output.
    pub output: Option<&'a str>,
    /// Whether the part alone is made, without the document round it.
    pub fragment: bool,
    /// Whether lines are numbered.
    pub number: bool,
    /// The lines that are shown, where not all are.
    pub lines: Lines,
    /// The lines that are marked.
    pub marked: Lines,
    /// When text for a terminal is coloured.
    pub color: Color,
    /// The name of a theme, or its file.
    pub theme: Option<&'a str>,
    /// The theme for light screens.
    pub light: Option<&'a str>,
    /// The theme for dark screens.
    pub dark: Option<&'a str>,
    /// Further folders of grammars and themes.
    pub folders: Option<&'m [&'a str]>,
    /// Whether the languages are listed.
    pub list_languages: bool,
    /// Whether the themes are listed.
    pub list_themes: bool,
}

impl Asked<'_, '_> {
    /// Whether a line is shown.
    pub fn shows(&self, number: u64) -> bool {
        self.lines.is_empty() || self.lines.contains(number)
    }

    /// Whether lines are chosen, numbered or marked.
    pub fn chooses_lines(&self) -> bool {
        self.number || !self.lines.is_empty() || !self.marked.is_empty()
    }

    /// Whether grammars or themes are asked for, be it to say that there are none.
    pub fn names_looks(&self) -> bool {
        self.list_languages
            || self.list_themes
            || self.language.is_some()
            || self.theme.is_some()
            || self.folders.is_some()
    }
}

/// What is wrong with words that `clap` lets pass.
#[derive(Drop)]
pub enum WrongWords<'a> {
    /// A text that names no lines.
    NoLines(&'a str),
    /// Themes for light and dark screens where no style sheet is made.
    NoSheet,
    /// There was no memory.
    Memory,
}

impl fmt::Display for WrongWords<'_> {
    fn fmt<W: fmt::Write>(&self, f: &mut fmt::Formatter<W>) -> fmt::Result {
        match self {
            WrongWords::NoLines(text) => {
                write!(
                    f,
                    "'{text}' names no lines; they are named as 3:9, 3:, :9, 3:+6 or 3"
                )
            }
            WrongWords::NoSheet => {
                f.write_str("--light and --dark are for -f css and -f classes")
            }
            WrongWords::Memory => f.write_str("out of memory"),
        }
    }
}

impl From<AllocError> for WrongWords<'_> {
    fn from(_e: AllocError) -> Self {
        WrongWords::Memory
    }
}

impl<T: Drop> From<AllocFailed<T>> for WrongWords<'_> {
    fn from(_e: AllocFailed<T>) -> Self {
        WrongWords::Memory
    }
}

/// A word that stands for a flag.
fn flag<'a>(alloc: Global, name: &'a str, help: &'a str) -> Arg<'a> {
    Arg::new(alloc, name)
        .long(name)
        .action(ArgAction::SetTrue)
        .help(help)
}

/// A word that takes a value.
fn option<'a>(alloc: Global, name: &'a str, value: &'a str, help: &'a str) -> Arg<'a> {
    Arg::new(alloc, name)
        .long(name)
        .value_name(value)
        .help(help)
}

/// A word that takes a value and may stand more than once.
fn options<'a>(alloc: Global, name: &'a str, value: &'a str, help: &'a str) -> Arg<'a> {
    option(alloc, name, value, help).action(ArgAction::Append)
}

/// Adds the words that say what is shown.
fn with_input<'a>(alloc: Global, command: Command<'a>) -> Result<Command<'a>, Error> {
    let files = Arg::new(alloc, "FILE")
        .num_args(0..)
        .action(ArgAction::Append)
        .help("The files; - is standard input, and so is no file");
    let language = "The language, by its name or an extension: rust, py, C++";
    let name = "The name of standard input, which tells its language";
    let strict = "Refuse a file that isn't UTF-8, where else U+FFFD is shown";
    Ok(
        command
            .arg(files)?
            .arg(option(alloc, "language", "NAME", language).short('l'))?
            .arg(option(alloc, "file-name", "NAME", name))?
            .arg(flag(alloc, "strict", strict))?,
    )
}

/// Adds the words that choose lines.
fn with_lines<'a>(alloc: Global, command: Command<'a>) -> Result<Command<'a>, Error> {
    let range = "Show these lines alone: 3:9, 3:, :9, 3:+6 or 3; may be repeated";
    let mark = "Mark these lines; may be repeated";
    Ok(
        command
            .arg(flag(alloc, "number", "Number the lines").short('n'))?
            .arg(options(alloc, "line-range", "M:N", range).short('r'))?
            .arg(options(alloc, "highlight-line", "M:N", mark).short('H'))?,
    )
}

/// Adds the words that say what is made.
fn with_output<'a>(alloc: Global, command: Command<'a>) -> Result<Command<'a>, Error> {
    let formats: &'static [&'static str] = &["terminal", "html", "classes", "css", "latex"];
    let times: &'static [&'static str] = &["auto", "always", "never"];
    let format = "What to make";
    let output = "Write into this file";
    let fragment = "Make the part alone, without the document round it";
    let color = "When to use colours in a terminal's text";
    Ok(
        command
            .arg(
                option(alloc, "format", "FORMAT", format)
                    .short('f')
                    .value_parser(formats)
                    .default_value("terminal"),
            )?
            .arg(option(alloc, "output", "FILE", output).short('o'))?
            .arg(flag(alloc, "fragment", fragment))?
            .arg(
                option(alloc, "color", "WHEN", color)
                    .value_parser(times)
                    .default_value("auto"),
            )?,
    )
}

/// Adds the words that choose themes and grammars.
fn with_looks<'a>(alloc: Global, command: Command<'a>) -> Result<Command<'a>, Error> {
    let theme = "The theme: its name, or its file; VULSANGI_THEME names another default";
    let light = "The theme for light screens, in a style sheet";
    let dark = "The theme for dark screens, in a style sheet";
    let folders = "A folder of grammars and themes of your own; may be repeated";
    let themes = "List the themes, each with a sample";
    Ok(
        command
            .arg(option(alloc, "theme", "NAME|FILE", theme))?
            .arg(option(alloc, "light", "NAME|FILE", light))?
            .arg(option(alloc, "dark", "NAME|FILE", dark))?
            .arg(options(alloc, "grammars", "DIR", folders))?
            .arg(flag(alloc, "list-languages", "List the languages").short('L'))?
            .arg(flag(alloc, "list-themes", themes))?,
    )
}

/// The words of a conversion.
fn conversion<'a>(alloc: Global) -> Result<Command<'a>, Error> {
    let about = "Make a theme of one of another editor: .tmTheme as XML, or JSON with tokenColors";
    let theme = Arg::new(alloc, "THEME").required(true).help("The file");
    Ok(
        Command::new(alloc, "convert").about(about).arg(theme)?.arg(option(
            alloc,
            "output",
            "FILE",
            "Write into this file",
        ).short('o'))?,
    )
}

/// The words by which grammars are looked through.
fn checking<'a>(alloc: Global) -> Result<Command<'a>, Error> {
    let about =
        "Look through grammars and themes: what isn't loaded, what can't be meant, what costs";
    let formats: &'static [&'static str] = &["text", "json", "sarif"];
    let paths = Arg::new(alloc, "PATH")
        .num_args(0..)
        .help("Folders, or files of grammars and themes");
    let format = option(alloc, "format", "FORMAT", "What to write")
        .short('f')
        .value_parser(formats)
        .default_value("text");
    let number = option(
        alloc,
        "explain",
        "NUMBER",
        "Tell what a finding means; all tells each",
    );
    Ok(
        Command::new(alloc, "check")
            .about(about)
            .arg(paths)?
            .arg(format)?
            .arg(option(alloc, "output", "FILE", "Write into this file").short('o'))?
            .arg(number)?,
    )
}

/// The words by which tests of grammars are run.
fn testing<'a>(alloc: Global) -> Result<Command<'a>, Error> {
    let about = "Run tests of grammars in Sublime Text's form";
    let folders = "A folder of grammars of your own; may be repeated";
    let files = Arg::new(alloc, "FILE")
        .num_args(1..)
        .required(true)
        .help("The tests, or folders of files syntax_test*");
    Ok(
        Command::new(alloc, "test")
            .about(about)
            .arg(files)?
            .arg(options(alloc, "grammars", "DIR", folders))?,
    )
}

/// The words by which scopes are asked for.
fn asking<'a>(alloc: Global) -> Result<Command<'a>, Error> {
    let about = "Tell the scopes of a file, or of a place in it, and the rule that gave its colour";
    let folders = "A folder of grammars and themes of your own; may be repeated";
    let place = Arg::new(alloc, "FILE[:LINE[:COLUMN]]")
        .required(true)
        .help("The file, or a place in it");
    Ok(
        Command::new(alloc, "scopes")
            .about(about)
            .arg(place)?
            .arg(option(alloc, "theme", "NAME|FILE", "The theme"))?
            .arg(options(alloc, "grammars", "DIR", folders))?,
    )
}

/// The program's words.
pub fn command<'a>(alloc: Global) -> Result<Command<'a>, Error> {
    let command = Command::new(alloc, "vulsangi")
        .version(VERSION)
        .about("Shows files in colour: in a terminal, as HTML or as LaTeX.")
        .disable_help_subcommand(true)
        .after_help(EXAMPLES);
    let command = command
        .subcommand(conversion(alloc)?)?
        .subcommand(checking(alloc)?)?
        .subcommand(testing(alloc)?)?
        .subcommand(asking(alloc)?)?;
    let command = with_input(alloc, command)?;
    let command = with_lines(alloc, command)?;
    let command = with_output(alloc, command)?;
    with_looks(alloc, command)
}

/// What is made, by its name.
fn made_of(name: Option<&str>) -> Made {
    match name {
        Some("html") => Made::Html,
        Some("classes") => Made::Classes,
        Some("css") => Made::Sheet,
        Some("latex") => Made::Latex,
        _ => Made::Terminal,
    }
}

/// When there are colours, by its name.
fn color_of(name: Option<&str>) -> Color {
    match name {
        Some("always") => Color::Always,
        Some("never") => Color::Never,
        _ => Color::Auto,
    }
}

/// The lines that texts name.
fn lines_of<'a>(alloc: Global, texts: Option<&[&'a str]>) -> Result<Lines, WrongWords<'a>> {
    let mut ranges = Vec::new(alloc);
    if let Some(texts) = texts {
        push_ranges(&mut ranges, texts)?;
    }
    Ok(Lines { ranges })
}

/// Adds the lines that texts name.
fn push_ranges<'a>(ranges: &mut Vec<LineRange>, texts: &[&'a str]) -> Result<(), WrongWords<'a>> {
    for text in texts {
        match LineRange::parse(*text) {
            Some(range) => ranges.push(range)?,
            None => return Err(WrongWords::NoLines(*text)),
        }
    }
    Ok(())
}

/// What the words ask for.
pub fn asked_of<'m, 'a>(
    alloc: Global,
    matches: &'m ArgMatches<'a>,
) -> Result<Asked<'m, 'a>, WrongWords<'a>> {
    let made = made_of(matches.get_str("format"));
    let light = matches.get_str("light");
    let dark = matches.get_str("dark");
    let makes_sheet = made == Made::Sheet || made == Made::Classes;
    if !makes_sheet && (light.is_some() || dark.is_some()) {
        return Err(WrongWords::NoSheet);
    }
    Ok(Asked {
        files: matches.get_raw("FILE"),
        language: matches.get_str("language"),
        file_name: matches.get_str("file-name"),
        strict: matches.get_flag("strict"),
        made,
        output: matches.get_str("output"),
        fragment: matches.get_flag("fragment"),
        number: matches.get_flag("number"),
        lines: lines_of(alloc, matches.get_raw("line-range"))?,
        marked: lines_of(alloc, matches.get_raw("highlight-line"))?,
        color: color_of(matches.get_str("color")),
        theme: matches.get_str("theme"),
        light,
        dark,
        folders: matches.get_raw("grammars"),
        list_languages: matches.get_flag("list-languages"),
        list_themes: matches.get_flag("list-themes"),
    })
}
