//! What is known of a grammar's contexts: which lead to which, in which order their patterns are
//! asked, and where.
#![tactic(auto)]

pub mod begins;
pub mod lists;
pub mod order;
pub mod references;
pub mod rounds;
pub mod sizes;

pub use vulsangi_patterns;
