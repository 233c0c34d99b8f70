//! Letters that a pattern begins with.
use std::alloc::{AllocError, Global};
use syntect_regex::below::pattern_table::node::{Letters, Node};
use syntect_regex::below::pattern_table::program::Program;

/// The letters that each match begins with.
#[derive(Drop)]
pub struct Front {
    pub text: String,
    /// Whether matches read no more, and whatever stands around them.
    pub is_whole: bool,
}

/// Appends letters.
fn push_letters(text: &mut String, letters: &Letters) -> Result<(), AllocError> {
    text.push(letters.first as char)?;
    for letter in letters.others() {
        text.push(*letter as char)?;
    }
    Ok(())
}

/// The letters that each match of a pattern begins with.
pub fn front_of(alloc: Global, program: &Program) -> Result<Front, AllocError> {
    let nodes = program.nodes.as_slice();
    let (mut text, mut is_whole) = (String::new(alloc), false);
    let mut at = program.root;
    for _ in 0..nodes.len() {
        match nodes.get(at) {
            Some(Node::Text { letters, rest }) if !letters.fold => {
                push_letters(&mut text, letters)?;
                at = *rest;
            }
            Some(Node::Sequence(first, second)) => {
                let Some(Node::Char(c)) = nodes.get(*first) else {
                    break;
                };
                text.push(*c)?;
                at = *second;
            }
            Some(Node::Group { body, .. }) => at = *body,
            Some(Node::Char(c)) => {
                text.push(*c)?;
                is_whole = true;
                break;
            }
            Some(Node::Nothing) => {
                is_whole = true;
                break;
            }
            _ => break,
        }
    }
    Ok(Front { text, is_whole })
}
