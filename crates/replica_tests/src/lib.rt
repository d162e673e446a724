//! Tests of replicas: catalogues, entries, written logs, drawn ones that the plain replayer replays too, rows at a
//! position while later calls are delivered, pages of versions.
#![tactic(auto)]

#[cfg(test)]
mod beginnings;
#[cfg(test)]
mod catalogues;
#[cfg(test)]
mod drawn_logs;
#[cfg(test)]
mod entries;
#[cfg(test)]
mod tests;
#[cfg(test)]
mod versions;
