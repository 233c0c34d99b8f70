//! The library for C: handles of sets of grammars and themes, and calls on them. The header that
//! tells of them is `bindings/c/vulsangi.h`.
#![tactic(auto)]

pub mod calls;
pub mod doc_calls;
pub mod doc_handle;
pub mod document;
pub mod finds;
pub mod handle;
pub mod kind;
pub mod parts;
pub mod refusal;
pub mod set;
pub mod span;
pub mod texts;
