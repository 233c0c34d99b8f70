//! What each match needs, at its place or after it.
use crate::starts::Places;

/// What stands at the place of each match or after it, with one of `next` right after that.
#[derive(Clone, Copy)]
pub enum Need {
    /// Nothing is known of it.
    Unknown,
    /// An ASCII character.
    Byte { byte: u8, next: Places },
    /// One of these, of which the end is none.
    One { here: Places, next: Places },
}

/// What each match needs that is met least often, and another such need.
#[derive(Clone, Copy)]
pub struct TwoNeeds {
    pub rarest: Need,
    pub other: Need,
}
