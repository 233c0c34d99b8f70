//! Edits of a buffer: those that files ask for, those that look random and are compared with a new
//! highlighter, how long they take, and some that are shown with what stands before and after them.
#![tactic(auto)]

pub mod below;
mod cases;
mod fresh;
mod given;
mod loading;
mod random;
pub mod rows;
pub mod shown;
mod states;
mod text;
mod timing;
mod trials;
pub mod tried;
