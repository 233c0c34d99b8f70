//! Why the grammars of a folder were not added within limits.
use crate::below::base::limits::LimitReached;
use crate::below::base::loading::LoadingError;
use std::fmt;
use thiserror::Error;

/// Why the grammars of a folder were not added within limits.
#[derive(Drop, Error)]
pub enum FolderWithinError {
    /// What `add_from_folder` would have answered, or there was no memory.
    #[error("{0}")]
    Refused(LoadingError),
    /// A file's grammar would pass a limit; its path stands after it.
    #[error("{1}: {0}")]
    LimitReached(LimitReached, String),
}

/// The message, with the cause where the message leaves it out: `main` shows it of an
/// error that it answers.
impl fmt::Debug for FolderWithinError {
    fn fmt<W: fmt::Write>(&self, f: &mut fmt::Formatter<W>) -> fmt::Result {
        match self {
            FolderWithinError::Refused(e) => write!(f, "{e:?}"),
            FolderWithinError::LimitReached(..) => write!(f, "{self}"),
        }
    }
}
