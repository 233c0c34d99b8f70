//! Grammars as they were written, by the rules of Sublime Text. A context's patterns are tried in
//! order; a match may open further contexts, put others in the place of the top one, or leave it.
pub use crate::below::grammar_contexts::context::{
    CaptureMapping, Context, ContextId, ContextReference, HoldsContexts, MatchOperation,
    MatchPattern, Pattern,
};
pub use syntect_grammar_loader::definition::SyntaxDefinition;
