//! What the calls are given. It is made where there is memory:
//! what is refused stands within a call.
use crate::below::grammar::syntax_definition::SyntaxDefinition;
use crate::below::grammar::syntax_set::{SyntaxSet, SyntaxSetBuilder};
use crate::below::scope::repository::ScopeRepository;
use std::alloc::Global;

/// A grammar with a prototype, a variable, captures, a text that ends with the word that it began
/// with, and an include in another one.
pub const GRAMMAR: &str = r##"name: T
scope: source.t
file_extensions: [t]
first_line_match: ^#!
variables: {word: '[a-z]+'}
contexts:
  prototype:
    - match: '#.*'
      scope: comment.t
  main:
    - match: '"'
      scope: punctuation.t
      push: quoted
    - match: <<({{word}})
      captures: {1: tag.t}
      push:
        - meta_scope: string.here.t
        - match: ^\1$
          pop: true
    - match: '!'
      push: 'scope:source.none'
    - match: '@'
      push: quoted
      with_prototype:
        - include: included
  included:
    - include: words
  words:
    - match: '{{word}}'
      scope: word.t
  quoted:
    - meta_scope: string.t
    - match: '"'
      pop: true
"##;

/// The grammar's definition.
pub fn definition_of(alloc: Global, repository: &mut ScopeRepository) -> Option<SyntaxDefinition> {
    SyntaxDefinition::load_from_str(alloc, GRAMMAR, true, None, repository).ok()
}

/// A builder with the grammar.
pub fn builder_of(alloc: Global, repository: &mut ScopeRepository) -> SyntaxSetBuilder {
    let mut builder = SyntaxSetBuilder::new(alloc);
    if let Some(definition) = definition_of(alloc, repository) {
        let _ = builder.add(definition);
    }
    builder
}

/// The set of the grammar.
pub fn set_of(alloc: Global, repository: &mut ScopeRepository) -> SyntaxSet {
    match builder_of(alloc, repository).build(alloc, repository) {
        Ok(set) => set,
        Err(_) => SyntaxSet::new(alloc),
    }
}
