//! The only version of a key, which lies beside the key where rows are narrow.

ghost use Rattle.std.specs.Prelude.{◌≡◌, ◌≤◌, [], ◌∷◌, length, take, true, false, IfSome, Some, None, if◌then◌else◌};
ghost use Rattle.std.specs.Option.{option_copied};
ghost use Rattle.row_chain.specs.declared.lone.TheConstants.{NARROW_WIDTH};
ghost use Rattle.row_chain.specs.Version.{row_up_to, needed_versions};
ghost use Rattle.row_chain.specs.Lone.{versions_of_lone, has_place, IsFit};

/// The most bytes of a narrow row.
pub const NARROW_WIDTH: u16 = 8;

/// The only version of a key, or none yet. A version is written here only where rows are narrow.
#[derive(Clone, Copy, Debug, PartialEq, Eq)]
pub struct Lone {
    pub(crate) width: u16,
    written: bool,
    present: bool,
    position: u32,
    row: [u8; 8],
}

/// A narrow row's bytes, and then zeros.
fn padded(row: &[u8]) -> [u8; 8]
    requires { length row.now ≤ NARROW_WIDTH }
    ensures { take (length row.now) result ≡ row.now }
{
    let mut bytes = [0u8; 8];
    bytes[..row.len()].copy_from_slice(row);
    bytes
}

impl Lone {
    /// The lack of a version yet, for rows of this width.
    pub fn new(width: u16) -> Lone
        ensures versions { versions_of_lone result ≡ [] }
        ensures width { result.width ≡ width }
        ensures fit { IsFit result }
    {
        Lone {
            width,
            written: false,
            present: false,
            position: 0,
            row: [0; 8],
        }
    }

    /// One version: a row of this width, or its removal.
    pub fn of(width: u16, position: u32, row: Option<&[u8]>) -> Lone
        requires narrow { width ≤ NARROW_WIDTH }
        requires width { IfSome row (λ r. length r.now ≡ width) }
        ensures versions { versions_of_lone result
            ≡ record { position = position; row = option_copied row.entry } ∷ [] }
        ensures width { result.width ≡ width }
        ensures fit { IsFit result }
    {
        match row {
            Some(row) => Lone {
                width,
                written: true,
                present: true,
                position,
                row: padded(row),
            },
            None => Lone {
                width,
                written: true,
                present: false,
                position,
                row: [0; 8],
            },
        }
    }

    /// Tells whether there is a version.
    pub fn is_written(&self) -> bool
        ensures { result ≡ self.now.written }
    {
        self.written
    }

    /// Tells whether one more version can be written here.
    pub fn has_place(&self) -> bool
        ensures { result ≡ has_place self.now }
    {
        !self.written && self.width <= NARROW_WIDTH
    }

    /// The position of the version, where there is one.
    pub fn position(&self) -> Option<u32>
        ensures { result ≡ (if self.now.written then Some self.now.position else None) }
    {
        if self.written {
            return Some(self.position);
        }
        None
    }

    /// The row at a position.
    pub fn at(&self, position: u32) -> Option<&[u8]>
        requires { IsFit self.now }
        ensures { option_copied result ≡ row_up_to position (versions_of_lone self.now) }
    {
        if self.written && self.position <= position && self.present {
            return Some(&self.row[..usize::from(self.width)]);
        }
        None
    }

    /// Drops the version where it is a removal that each position from the horizon on sees.
    pub fn pruned(self, horizon: u32) -> Lone
        ensures versions { versions_of_lone result ≡ needed_versions horizon (versions_of_lone self) }
        ensures width { result.width ≡ self.width }
        ensures fit { IsFit self → IsFit result }
    {
        if self.written && self.position <= horizon && !self.present {
            return Lone::new(self.width);
        }
        self
    }
}
