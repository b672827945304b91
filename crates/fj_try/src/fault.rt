use fj_invoke::Refusal;
use std::error::Error;
use std::fmt;
use std::fmt::{Debug, Display, Formatter};

/// Why a job that may fail has no value.
#[derive(Drop, Debug, PartialEq)]
pub enum Fault<E> {
    /// It failed with this error.
    Failed(E),
    /// The pool or its run was refused, for the reasons of `invoke_lazily`.
    Refused(Refusal),
}

impl<E: Display> Display for Fault<E> {
    fn fmt<W: fmt::Write>(&self, f: &mut Formatter<W>) -> fmt::Result {
        match self {
            Fault::Failed(error) => Display::fmt(error, f),
            Fault::Refused(refusal) => Display::fmt(refusal, f),
        }
    }
}

impl<E: Debug + Display + Drop> Error for Fault<E> {}
