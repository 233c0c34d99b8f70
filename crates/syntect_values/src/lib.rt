//! Values that contracts see as lists, texts and maps.
//!
//! A `Seq` is a vector that contracts see as the list of its elements, a `Text` a string that they
//! see as its bytes, and a `Table` a map that they see as the list of its entries in the order of
//! the keys. Each is made from the container of std and gives it back without taking memory.
#![tactic(auto)]

pub mod seq;
pub mod table;
pub mod text;
