//! The tests of a site's program.

mod answers;
mod failures;
mod hostile;
mod runs;
mod settings;
