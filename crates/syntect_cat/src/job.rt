//! What is asked for.
ghost use Rattle.std.specs.Prelude.{◌≡◌, map, IfSome, IfNone, string_bytes};
ghost use Rattle.syntect_cat.specs.Texts.{form_of};
ghost use Rattle.syntect_cat.specs.Words.{AreWords, words_of};

use syntect_assets::format::Format as Form;

/// What a text is shown as.
#[derive(Clone, Copy, Debug, PartialEq, Eq)]
pub enum Format {
    /// A page of HTML with inline styles.
    Html,
    /// Text with the escape sequences of a terminal of 24 bit colours.
    Terminal,
}

impl Format {
    /// What texts are written as.
    pub(crate) fn form(self) -> Form
        ensures { result ≡ form_of self }
    {
        match self {
            Format::Html => Form::Html,
            Format::Terminal => Form::Terminal,
        }
    }
}

/// A file that is to be shown.
#[derive(Clone, Copy, Debug)]
pub struct Job<'a> {
    /// The path of the folder of the grammars.
    pub folder: &'a str,
    /// The path of the theme.
    pub theme: &'a str,
    pub format: Format,
    /// The path of the file.
    pub file: &'a str,
}

impl<'a> Job<'a> {
    /// The job that these words ask for: a folder, a theme, `html` or `term`, and a file. Others
    /// ask for none.
    pub fn from_words(words: &'a [String]) -> Option<Job<'a>>
        ensures some { IfSome result (λ job. map string_bytes words.now ≡ words_of job) }
        ensures none { IfNone result (¬ (AreWords (map string_bytes words.now))) }
    {
        let [folder, theme, format, file] = words else {
            return None;
        };
        let format = match format.as_str() {
            "html" => Format::Html,
            "term" => Format::Terminal,
            _ => return None,
        };
        Some(Job {
            folder: folder.as_str(),
            theme: theme.as_str(),
            format,
            file: file.as_str(),
        })
    }
}
