//! The positions of the procedures that were added.

ghost use Rattle.std.specs.Prelude.{◌≡◌};
ghost use Rattle.site.specs.Replica.{since_of};

/// The position at which the procedure of a number was added last, and 0 where none was. The search takes as long as
/// there are additions.
pub(crate) fn since(additions: &[(u16, u32)], number: u16) -> u32
    ensures { result ≡ since_of additions.now number }
{
    match additions.iter().rev().find(|addition| addition.0 == number) {
        Some(addition) => addition.1,
        None => 0,
    }
}
