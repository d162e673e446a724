//! A site: it runs calls, takes the byte strings of an order that somebody else made, tells what became of each.
#![tactic(auto)]

pub use crate::site::Site;
pub use asked::Asked;
pub use lasts::LastRequests;
pub use sessions::Sessions;
pub use settings::SiteSettings;

mod addition;
mod additions;
mod asked;
mod lasts;
mod outcome;
mod replies;
mod run;
mod same_bytes;
mod sessions;
mod settings;
mod site;
mod standing;
mod state;
mod take;
mod taking;
