//! Grammars as they were written, their contexts, the patterns of these, and where a context's
//! patterns stand.
pub use crate::match_iter::{MatchIter, context_iter};
pub use syntect_grammar::syntax_definition::{
    CaptureMapping, Context, ContextId, ContextReference, HoldsContexts, MatchOperation,
    MatchPattern, Pattern, SyntaxDefinition,
};
