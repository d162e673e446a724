//! The tests of sites.

mod answers;
mod heads;
mod lasts;
mod sites;
