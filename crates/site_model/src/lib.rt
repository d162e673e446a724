//! The meaning of each position of an order of byte strings, and a site's answers. Definitions, and laws about them.
#![tactic(auto)]

pub use answer::{AdditionAnswer, AdditionRefusal, CallAnswer};
pub use cause::NothingCause;
pub use laws::{fit_entries_go_on, orders_grow, sessions_go_on, what_stands_is_of_the_log};
pub use origin::Origin;
pub use outcome::EntryOutcome;

mod answer;
mod cause;
mod laws;
mod origin;
mod outcome;
