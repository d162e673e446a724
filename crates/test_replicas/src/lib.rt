//! Replicas and versions that take what is handed to them only where their own conditions hold, for tests and
//! benchmarks.
#![tactic(auto)]

pub use checked::CheckedReplica;
pub use fit::{entries_fit, entry_fits, writes_fit};
pub use versions::CheckedVersions;

mod checked;
mod fit;
mod versions;
