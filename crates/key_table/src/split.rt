//! The way in which a full page takes one key more.

/// The way in which a full page takes one key more.
#[derive(Clone, Copy, Debug, PartialEq, Eq)]
pub enum Split {
    /// The page is split into halves, so that both have room.
    Halves,
    /// A key behind all of the page's begins the next page, so that keys that rise leave whole pages. Any other key
    /// splits the page into halves.
    Behind,
}
