//! Questions about scopes, patterns, themes and texts, and their answers.
use crate::below::scope::repository::ScopeRepository;
use crate::below::theme::theme::Theme;
use crate::changes::write_hooks;
use crate::cutting::{write_cut, write_modified};
use crate::engine::{write_escaped, write_group, write_is_match};
use crate::scoring::{write_atoms, write_path_score, write_score, write_stack, write_union};
use crate::styles::{write_change_of, write_style_of};
use crate::theme_folders::{write_theme_file, write_theme_folders, write_theme_paths};
use crate::themes::{
    write_colour, write_flags, write_json_flags, write_rule, write_theme, write_underline,
};
use crate::written::write_lines;
use std::alloc::Global;
use std::rt::Files;

/// Adds the answer to a question of the kind that a table's heading names.
pub fn write_answer(
    files: &impl Files,
    alloc: Global,
    theme: &Theme,
    (heading, question): (&str, &str),
    repository: &mut ScopeRepository,
    out: &mut String,
) -> Option<()> {
    match heading {
        "theme folders" => write_theme_folders(files, alloc, question, repository, out),
        "theme files" => write_theme_file(files, alloc, question, repository, out),
        "theme paths" => write_theme_paths(files, alloc, question, out),
        "themes" => write_theme(alloc, question, repository, out),
        "rules" => write_rule(alloc, question, repository, out),
        "json flags" => write_json_flags(alloc, question, repository, out),
        "styles" => write_style_of(alloc, theme, question, repository, out),
        "changes" => write_change_of(alloc, theme, question, repository, out),
        "atoms" => write_atoms(question, repository, out),
        "scores" => write_score(alloc, question, repository, out),
        "path scores" => write_path_score(alloc, question, repository, out),
        "stacks" => write_stack(alloc, question, repository, out),
        "hooks" => write_hooks(alloc, question, repository, out),
        "unions" => write_union(alloc, question, repository, out),
        _ => write_text_answer(alloc, heading, question, out),
    }
}

/// Adds the answer to a question about a text.
fn write_text_answer(alloc: Global, heading: &str, question: &str, out: &mut String) -> Option<()> {
    match heading {
        "colours" => write_colour(question, out),
        "flags" => write_flags(alloc, question, out),
        "underlines" => write_underline(question, out),
        "matches" => write_is_match(alloc, question, out),
        "groups" => write_group(alloc, question, out),
        "escapes" => write_escaped(alloc, question, out),
        "lines" => write_lines(alloc, question, out),
        "cuts" => write_cut(alloc, question, out),
        "changed parts" => write_modified(alloc, question, out),
        _ => None,
    }
}
