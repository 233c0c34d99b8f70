//! Scopes, grammars, sets of them and the reading of lines.
pub mod metadata;

pub use crate::below::base::limits::{LimitReached, Limits, LoadWithinError, PatternPlace};
pub use crate::below::base::syntax::ParseSyntaxError;
pub use crate::below::count::count::GhostCount;
pub use crate::below::metadata::error::MetadataError;
pub use crate::below::metadata::items::MetadataItems;
pub use crate::below::metadata::metadata::Metadata;
pub use crate::below::metadata::raw::{LoadMetadata, RawMetadataEntry};
pub use crate::below::metadata::scoped::ScopedMetadata;
pub use crate::below::metadata::set::MetadataSet;
pub use crate::below::regexes::error::PatternError;
pub use crate::below::regexes::regex::{Regex, escape};
pub use crate::below::regexes::region::Region;
pub use crate::below::scope::power::MatchPower;
pub use crate::below::scope::repository::{ParseScopeError, ScopeRepository};
pub use crate::below::scope::scope::{ATOM_LEN_BITS, Scope};
pub use crate::below::scope::stack::{
    BasicScopeStackOp, ClearAmount, ScopeError, ScopeStack, ScopeStackOp,
};
pub use syntect_grammar_limits::first_line_error::{FindWithinError, FirstLineLimit};
pub use syntect_grammar_limits::first_lines::{
    find_syntax_by_first_line_within, find_syntax_for_file_within,
};
pub use syntect_grammar_limits::folder_error::FolderWithinError;
pub use syntect_grammar_limits::folders::add_from_folder_within;
pub use syntect_grammar_limits::lenient::{PassedOver, add_what_loads_within};
pub use syntect_grammar_limits::within::load_from_str_within;
pub use syntect_parsing::parser::{ParseState, ParsingError, Regions};
pub use syntect_parsing::syntax_definition;
pub use syntect_parsing::syntax_definition::SyntaxDefinition;
pub use syntect_parsing::syntax_set::{SyntaxReference, SyntaxSet, SyntaxSetBuilder};
pub use syntect_parsing::within::{LineLimit, ReadWithinError};
