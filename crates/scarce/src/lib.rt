//! An allocator for tests, which refuses growths on demand.
//!
//! `&Scarce` is an allocator, as a `&` to each allocator is: it passes a call on to the allocator that it is made
//! over, or refuses it as if no memory were left. Threads may share it, and may switch refusals while others allocate.
//!
//! A test makes its values over `&Scarce`, and has each growth of one call refused in turn:
//!
//! ```text
//! let scarce = Scarce::new(rt.alloc());
//! let mut list = Vec::new(&scarce);
//! list.push(1u8)?;
//! let failed = scarce.refuse_each(|| match list.reserve(100) {
//!     Ok(()) => true,
//!     Err(_) => {
//!         assert_eq!(rt; list.as_slice(), [1].as_slice());
//!         false
//!     }
//! });
//! assert_eq!(rt; failed, Some(1));
//! ```
//!
//! No clause says that a growth is refused, or that a count is right, since other threads may count meanwhile.
#![tactic(auto)]

ghost use Rattle.std.specs.Prelude.{◌<◌, true, IfSome};

use std::alloc::{AllocError, Allocator, Global};
use std::sync::atomic::{AtomicBool, AtomicU64, Ordering};

/// The most calls that `refuse_each` makes.
const MOST_CALLS: u64 = 1000;

/// The growths that are to be refused, and the numbers of growths that were asked for and refused so far.
#[derive(Drop)]
struct Refusals {
    growths: AtomicU64,
    refused: AtomicU64,
    /// The growth that finds 1 is refused. Each growth takes 1 away, and 0 wraps: then none is refused for 2^64
    /// growths.
    until_refusal: AtomicU64,
    all: AtomicBool,
}

impl Refusals {
    /// Counts a growth, and answers whether it is to be refused.
    fn refuse(&self) -> bool {
        self.growths.fetch_add(1, Ordering::SeqCst);
        let is_last = self.until_refusal.fetch_sub(1, Ordering::SeqCst) == 1;
        let refuse = is_last || self.all.load(Ordering::SeqCst);
        if refuse {
            self.refused.fetch_add(1, Ordering::SeqCst);
        }
        refuse
    }
}

/// An allocator that has the memory of `inner`, and refuses growths on demand.
///
/// A growth is each call that asks for a block: a first block, a larger one in its place, and also a smaller one.
/// `refuse_nth` and `refuse_all` replace what an earlier call of either asked for.
///
/// The values of this type are all equal, as those of `Global` are, so that a type with an allocator can derive
/// comparisons.
#[derive(Drop)]
#[derive_where(PartialEq, Eq, PartialOrd, Ord, Hash, Debug)]
pub struct Scarce<B: Allocator = Global> {
    #[derive_where(skip)]
    inner: B,
    #[derive_where(skip)]
    refusals: Refusals,
}

impl<B: Allocator> Scarce<B> {
    /// An allocator that refuses nothing yet.
    pub fn new(inner: B) -> Scarce<B> {
        Scarce {
            inner,
            refusals: Refusals {
                growths: AtomicU64::new(0),
                refused: AtomicU64::new(0),
                until_refusal: AtomicU64::new(0),
                all: AtomicBool::new(false),
            },
        }
    }

    /// Refuses the `n`-th growth from now, where 1 is the next one, and no other. 0 refuses none.
    pub fn refuse_nth(&self, n: u64) {
        self.refusals.all.store(false, Ordering::SeqCst);
        self.refusals.until_refusal.store(n, Ordering::SeqCst);
    }

    /// Refuses every growth from now on, or none.
    pub fn refuse_all(&self, on: bool) {
        self.refusals.until_refusal.store(0, Ordering::SeqCst);
        self.refusals.all.store(on, Ordering::SeqCst);
    }

    /// Returns the number of growths that were refused so far.
    pub fn refused(&self) -> u64 {
        self.refusals.refused.load(Ordering::SeqCst)
    }

    /// Returns the number of growths that were asked for so far, refused growths included.
    pub fn growths(&self) -> u64 {
        self.refusals.growths.load(Ordering::SeqCst)
    }

    /// Makes `call` again and again, with its first growth refused, then its second, and so on, until it succeeds.
    ///
    /// `call` makes the call that is tested once, checks what it answered and what it left, and says whether it
    /// succeeded. The answer is the number of calls that failed before. The answer is `None` where a call failed though
    /// no growth was refused meanwhile, and where none of 1000 calls succeeded. No growth is refused afterwards.
    ///
    /// A call that succeeds although a growth was refused, as a call that only tries to shrink, ends the calls too.
    /// Then `refused` has risen by one more than the answer.
    ///
    /// Two values over `&Scarce` that `call` compares have to stand in one pair, so that both have one lifetime; or a
    /// function with an allocator parameter for each compares them.
    pub fn refuse_each<F: FnMut() -> bool>(&self, mut call: F) -> Option<u64>
        requires { F.IsAlwaysCallable call }
        ensures few { IfSome result (λ n. n < 1000) }
        ensures succeeded { IfSome result (λ _. (before : F) × (after : F) × F.step before true after) }
    {
        for failed in 0..MOST_CALLS {
            let refused = self.refused();
            self.refuse_nth(failed + 1);
            let succeeded = call();
            self.refuse_nth(0);
            if succeeded {
                return Some(failed);
            }
            if self.refused() == refused {
                return None;
            }
        }
        None
    }
}

unsafe impl<B: Allocator> Allocator for Scarce<B> {
    ghost dealloc_token = { λ scarce ty ptr. B.dealloc_token scarce.inner ty ptr };

    fn allocate(&self, size: usize, align: usize) -> Result<*mut u8, AllocError> {
        if self.refusals.refuse() {
            return Err(AllocError);
        }
        self.inner.allocate(size, align)
    }

    unsafe fn deallocate(&self, ptr: *mut u8, size: usize, align: usize) {
        self.inner.deallocate(ptr, size, align);
    }
}
