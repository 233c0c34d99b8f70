//! A list that is kept in blocks, so that an element is put in or taken out in the time of a block
//! and not of the whole list. Contracts see it as the list of its elements.
#![tactic(auto)]

pub mod blocks;
