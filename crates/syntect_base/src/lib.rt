//! What the loaders stand on: their errors, the files of a folder, and the values of JSON that
//! files hold.
#![tactic(auto)]

pub mod limits;
pub mod lines;
pub mod loading;
pub mod settings;
pub mod syntax;
pub mod theme;
pub mod tree;
pub mod utils;

pub use syntect_pattern;
pub use syntect_scope;
pub use syntect_scope::syntect_values;
