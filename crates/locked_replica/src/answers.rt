use log_model::Verdict;

/// The outcome of a delivery.
#[derive(Clone, Copy, Debug, PartialEq, Eq)]
pub enum Delivery {
    Delivered(Verdict),
    /// The log shows no more now.
    Nothing,
    /// The replica has stopped, now or before.
    Stopped,
}

/// The answer of a replica about an entry.
#[derive(Clone, Copy, Debug, PartialEq, Eq)]
pub enum Found {
    Verdict(Verdict),
    /// The replica has stopped before the entry.
    Stopped,
    /// The replica hasn't come to the entry yet.
    NotYet,
}
