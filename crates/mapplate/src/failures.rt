//! Why a run fails: its script cannot be read, or the machine fails.

use scripts::failures::Failure as ScriptFailure;
use std::alloc::{AllocError, AllocFailed};
use std::{fmt, io};

/// Why a run fails.
#[derive(Drop)]
pub enum Failure {
    Script(ScriptFailure),
    Io(io::Error),
}

impl fmt::Display for Failure {
    fn fmt<W: fmt::Write>(&self, f: &mut fmt::Formatter<W>) -> fmt::Result {
        match self {
            Failure::Script(failure) => write!(f, "{failure}"),
            Failure::Io(error) => write!(f, "{error}"),
        }
    }
}

impl From<ScriptFailure> for Failure {
    fn from(failure: ScriptFailure) -> Failure {
        Failure::Script(failure)
    }
}

impl From<AllocError> for Failure {
    fn from(error: AllocError) -> Failure {
        Failure::Script(error.into())
    }
}

impl<T: Drop> From<AllocFailed<T>> for Failure {
    fn from(error: AllocFailed<T>) -> Failure {
        Failure::Script(error.into())
    }
}

impl From<io::Error> for Failure {
    fn from(error: io::Error) -> Failure {
        Failure::Io(error)
    }
}
