//! Growths that are refused in turn.

use scarce::Scarce;
use std::process::Abort;

/// Refuses growth 1, then 2, until a reading makes no growth of that number. The reading says whether memory was there,
/// and `None` where something else went wrong. Asserts that a reading needs a growth, and needs fewer than `most`.
pub(crate) fn refuse_in_turn<F: FnMut() -> Option<bool>>(
    rt: &impl Abort,
    scarce: &Scarce,
    most: u64,
    mut read: F,
)
    requires { F.IsAlwaysCallable read }
{
    let mut failed = 0u64;
    for growth in 1..most {
        scarce.refuse_nth(growth);
        let read = read();
        assert!(rt; read.is_some(), "{growth}");
        if read == Some(false) {
            failed = growth;
        }
        if scarce.refused() < growth {
            break;
        }
    }
    assert!(rt; failed > 0 && failed.wrapping_add(1) < most, "{failed}");
}
