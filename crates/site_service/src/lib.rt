//! The program of a site: it answers the lines of its input, each before it waits for the next.
#![tactic(auto)]

pub use entry::MAX_POSITION;
pub use laws::settings_are_read_back;
pub use line::{Scan, SiteLine, site_line};
pub use lines::answer_lines;
pub use service::site_over;

mod answer_dump;
mod answer_line;
mod answer_scan;
mod entry;
mod input;
mod laws;
mod line;
mod lines;
mod reading;
mod rows;
mod scans;
mod service;
mod settings_line;
mod settings_reading;
mod word;
