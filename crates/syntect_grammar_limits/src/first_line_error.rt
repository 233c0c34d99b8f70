//! Why no syntax was looked for to the end.
ghost use Rattle.std.specs.Prelude.{◌≡◌};
ghost use Rattle.syntect_grammar_limits.specs.FirstLines.{stopped};

use crate::below::count::stop::Stop;
use std::fmt;
use syntect_grammar::error::Error;
use thiserror::Error;

/// The searches of a first line made as many steps as they may.
#[derive(Clone, Copy, Debug, PartialEq, Eq, Error)]
#[error("too many steps for the first line, at the syntax with index {syntax}")]
pub struct FirstLineLimit {
    /// The syntax whose pattern was searched last, by its index in the set. None of those after it
    /// fits the line.
    pub syntax: usize,
}

/// Why no syntax was looked for to the end.
#[derive(Drop, Error)]
pub enum FindWithinError {
    /// What is answered without a limit.
    #[error("{0}")]
    Refused(Error),
    /// The limit was reached.
    #[error("{0}")]
    LimitReached(FirstLineLimit),
}

/// The message, with the cause where the message leaves it out: `main` shows it of an
/// error that it answers.
impl fmt::Debug for FindWithinError {
    fn fmt<W: fmt::Write>(&self, f: &mut fmt::Formatter<W>) -> fmt::Result {
        match self {
            FindWithinError::Refused(e) => write!(f, "{e:?}"),
            FindWithinError::LimitReached(_) => write!(f, "{self}"),
        }
    }
}

/// The search of a syntax's pattern stops so.
pub(crate) fn stopped(stop: Stop, syntax: usize) -> FindWithinError
    ensures { result ≡ stopped stop syntax }
{
    match stop {
        Stop::Memory => FindWithinError::Refused(Error::Memory),
        Stop::Spent => FindWithinError::LimitReached(FirstLineLimit { syntax }),
    }
}
