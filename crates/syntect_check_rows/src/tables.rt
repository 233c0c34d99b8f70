//! Tables of questions and answers: of each line what stands before the last tab is asked.
use crate::below::check_queries::escapes::unescaped;
use crate::below::parsing::syntax_definition::SyntaxDefinition;
use crate::below::scope::repository::ScopeRepository;
use crate::finding::write_found;
use crate::folders::write_grammar_folder;
use crate::given::Given;
use std::rt::Files;
use syntect_check_tables::answers::write_answer;
use syntect_check_tables::row_file::Part;

/// Adds what loading a grammar, with fallback name `F`, comes to: `ok` and its name, or why not.
fn write_load(
    given: Given<'_>,
    question: &str,
    repository: &mut ScopeRepository,
    out: &mut String,
) -> Option<()> {
    let text = unescaped(given.alloc, question).ok()?;
    let text = text.as_str();
    match SyntaxDefinition::load_from_str(given.alloc, text, true, Some("F"), repository) {
        Ok(definition) => write!(out, "ok {}", definition.name.as_str()).ok(),
        Err(refusal) => write!(out, "{refusal}").ok(),
    }
}

/// Adds the answer to a question about a grammar or a set, or of another kind.
fn write_answer_of(
    files: &impl Files,
    given: Given<'_>,
    heading: &str,
    question: &str,
    repository: &mut ScopeRepository,
    out: &mut String,
) -> Option<()> {
    let asked = (heading, question);
    match heading {
        "finders" => write_found(files, given, question, repository, out),
        "grammars" => write_load(given, question, repository, out),
        "grammar folders" => write_grammar_folder(files, given, question, repository, out),
        _ => write_answer(files, given.alloc, given.theme, asked, repository, out),
    }
}

/// Adds each line of a table with its answer.
pub fn write_table(
    files: &impl Files,
    given: Given<'_>,
    part: Part<'_>,
    repository: &mut ScopeRepository,
    out: &mut String,
) -> Option<()> {
    for line in part.body.lines() {
        let question = match line.rsplit_once('\t') {
            Some((question, _)) => question,
            None => line,
        };
        out.push_str(question).ok()?;
        out.push('\t').ok()?;
        write_answer_of(files, given, part.heading, question, repository, out)?;
        out.push('\n').ok()?;
    }
    Some(())
}
