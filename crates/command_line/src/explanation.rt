//! The row of a number, and how it is printed.

ghost use Rattle.std.specs.Prelude.{◌≡◌, IfSome};

use crate::rows::{OF_PROCEDURES, OF_RUNS};
use std::fmt;

/// The row of a refusal's number.
#[derive(Clone, Copy, Debug, PartialEq, Eq)]
pub struct Explanation {
    /// A letter and a number, such as `V5`.
    pub number: &'static str,
    /// The case in which something is refused so.
    pub cause: &'static str,
    /// The remedy.
    pub cure: &'static str,
    /// The remedy in a source in C, and empty where there is nothing to say.
    pub in_c: &'static str,
}

impl fmt::Display for Explanation {
    fn fmt<W: fmt::Write>(&self, f: &mut fmt::Formatter<W>) -> fmt::Result {
        write!(
            f,
            "{}: {}\nwhat to do: {}",
            self.number, self.cause, self.cure
        )?;
        if self.in_c.is_empty() {
            return Ok(());
        }
        write!(f, "\nin C: {}", self.in_c)
    }
}

/// The row of a number, such as `V5`, and none where no refusal has the number.
pub fn explain(number: &str) -> Option<Explanation>
    ensures { IfSome result (λ row. row.number.now ≡ number.now) }
{
    match of_procedures(number) {
        Some(row) => Some(row),
        None => of_runs(number),
    }
}

/// Finds a row about programs, schemas and procedures.
fn of_procedures(number: &str) -> Option<Explanation>
    ensures { IfSome result (λ row. row.number.now ≡ number.now) }
{
    OF_PROCEDURES
        .iter()
        .copied()
        .find(|row| row.number == number)
}

/// Finds a row about what is run.
fn of_runs(number: &str) -> Option<Explanation>
    ensures { IfSome result (λ row. row.number.now ≡ number.now) }
{
    OF_RUNS.iter().copied().find(|row| row.number == number)
}
