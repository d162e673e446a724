//! The fault of requests that can't be put.

use std::error::Error;
use std::fmt;

/// The fault of a request that can't be put.
#[derive(Clone, Copy, Debug, PartialEq, Eq)]
pub enum RequestFault {
    /// The session isn't behind that of the request before.
    Order,
}

/// Writes the letter Q and the number, which is 1.
impl fmt::Display for RequestFault {
    ghost use Rattle.catalogue.specs.Fault.{request_fault_text};
    ghost use Rattle.std.specs.Prelude.{Some};

    ghost output = { λ fault. Some (request_fault_text fault) };

    fn fmt<W: fmt::Write>(&self, f: &mut fmt::Formatter<W>) -> fmt::Result {
        match self {
            RequestFault::Order => write!(f, "Q1"),
        }
    }
}

impl Error for RequestFault {}
