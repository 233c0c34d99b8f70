//! What the program can be asked for.

/// What is run.
#[derive(Clone, Copy)]
pub enum Runs {
    /// Prints what is found for a row's file.
    Row,
    /// Prints what the pattern engine answers to the queries of a file.
    Answers,
    /// Prints what theme each file of a folder has.
    Themes,
    /// Prints the style of each scope stack in a file by a theme's file.
    Styles,
    /// Prints what linking leaves unresolved in the grammars of a folder.
    Unlinked,
    /// Prints which grammars of a folder clear scopes, and whether they put them back in order.
    Orderly,
    /// Prints how many patterns each grammar of a folder has, and those that are not searched in
    /// linear time.
    Linear,
    /// Prints the syntax of each file in a list by the grammars of a folder.
    Syntaxes,
    /// Prints the scopes of a text by the grammars of a folder.
    Scopes,
    /// Does edits that look random on the text of a file, and prints how many lines differ from a
    /// new highlighter's.
    RandomEdits,
    /// Shows some edits, or one of a text of as many lines as a block of a buffer has.
    ShownEdits,
    ShownLongEdit,
    /// Prints how long edits of a line take.
    TimeEdits,
    /// Prints how long a repository takes for 60000 new atoms.
    TimeAtoms,
    /// Prints how long searches take a character.
    TimeSearches,
    /// Prints how long the files of a folder take to be read as YAML.
    TimeDocuments,
    /// Prints how long the files of a folder take to be loaded as grammars.
    TimeLoads,
    /// Prints how long a style takes.
    TimeStyles,
    /// Prints how fast example 17 highlights a text over so many runs.
    TimeFile,
    /// Prints how long the queries of a file take.
    TimeQueries,
    /// Prints how long the patterns of a file take to be compiled, compared with the time that
    /// another engine takes.
    TimePatterns,
    /// Prints how long loading, reading and styling take.
    TimeReading,
}

/// The words of each, in capitals what stands for any word.
pub const MODES: [(&str, Runs); 22] = [
    ("row FILE", Runs::Row),
    ("answers FILE", Runs::Answers),
    ("themes FOLDER", Runs::Themes),
    ("styles THEME STACKS", Runs::Styles),
    ("unlinked FOLDER", Runs::Unlinked),
    ("orderly FOLDER", Runs::Orderly),
    ("linear FOLDER", Runs::Linear),
    ("which FOLDER LIST", Runs::Syntaxes),
    ("scopes FOLDER FILE", Runs::Scopes),
    ("edits FOLDER THEME FILE N SEED", Runs::RandomEdits),
    ("shown edits", Runs::ShownEdits),
    ("shown edits long", Runs::ShownLongEdit),
    ("time edits FOLDER THEME FILE LINE N", Runs::TimeEdits),
    ("time atoms", Runs::TimeAtoms),
    ("time searches", Runs::TimeSearches),
    ("time yaml FOLDER", Runs::TimeDocuments),
    ("time load FOLDER", Runs::TimeLoads),
    ("time styles THEME", Runs::TimeStyles),
    ("time FILE N", Runs::TimeFile),
    ("regexbench FILE N", Runs::TimeQueries),
    ("patterns FILE N MICROSECONDS", Runs::TimePatterns),
    ("time FOLDER THEME FILE N", Runs::TimeReading),
];

/// Whether a word stands for any other.
fn is_any(word: &str) -> bool {
    word.chars().all(|c| c.is_ascii_uppercase())
}

/// Whether words are those of a usage, as many and each the same where it isn't in capitals.
pub fn fits(usage: &str, words: &[String]) -> bool {
    let mut count = 0usize;
    for wanted in usage.split(' ') {
        match words.get(count) {
            Some(word) if is_any(wanted) || word.as_str() == wanted => {}
            _ => return false,
        }
        count = count.saturating_add(1);
    }
    count == words.len()
}

/// The word at a place, or none.
pub fn word_at(words: &[String], place: usize) -> &str {
    match words.get(place) {
        Some(word) => word.as_str(),
        None => "",
    }
}

/// The number at a place.
pub fn number_at(words: &[String], place: usize) -> Option<u32> {
    word_at(words, place).parse::<u32>().ok()
}
