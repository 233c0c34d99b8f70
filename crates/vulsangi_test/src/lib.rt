//! Tests of what is told to writers of grammars and themes.
#![tactic(auto)]

#[cfg(test)]
mod colours;
#[cfg(test)]
mod places;
#[cfg(test)]
mod planted;
#[cfg(test)]
mod planted_contexts;
#[cfg(test)]
mod planted_rows;
