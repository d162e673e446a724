//! The settings that all sites of an order have in common.

use catalogue::Catalogue;
use site_model::Origin;
use std::alloc::{Allocator, Global};

/// The settings that all sites of an order have in common.
#[derive(Drop)]
pub struct SiteSettings<A: Allocator + Copy = Global> {
    /// The number of byte strings behind which a call's snapshot is too old.
    pub window: u32,
    /// The tables, and all that the database begins with.
    pub catalogue: Catalogue<A>,
    /// The tables with their widths, in the order in which they are told.
    pub table_list: Vec<(u8, u16), A>,
    /// True where the order may add procedures.
    pub takes_additions: bool,
    /// What came before, where the order opens sessions.
    pub origin: Option<Origin>,
}
