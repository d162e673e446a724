//! Programs under names, held by number.

ghost use Rattle.std.specs.Prelude.{◌≡◌, [], ◌∷◌, ◌++◌, None, IfOk, OnOk, OnErr, option_map};
ghost use Rattle.std.specs.Option.{option_copied};
ghost use Rattle.std.specs.Arc.{arc_value};
ghost use Rattle.log_model.specs.Log.{by_name};
ghost use Rattle.catalogue.specs.Stored.{AreStored, listed, listed_by_number, stored_procedures};

use crate::named::Named;
use bpf_verify::Accepted;
use indexmap::IndexMap;
use std::alloc::{AllocError, Allocator};
use std::hash::{BuildHasherDefault, FoldHasher};
use std::sync::Arc;

/// The map from a number to what was entered under it, in order of entry.
pub(crate) type Table<A, P> = IndexMap<u16, Named<A, P>, BuildHasherDefault<FoldHasher>, A>;

/// The program of a number.
pub(crate) fn accepted_by_number<A: Allocator, P: Allocator>(
    table: &Table<A, P>,
    number: u16,
) -> Option<&Accepted<P, P>>
    ensures { option_copied result ≡ option_map (λ l. l.accepted) (listed_by_number (listed table.now.entries) number) }
{
    match table.get(&number) {
        Some(named) => Some(named.accepted()),
        None => None,
    }
}

/// The program of a number, for one more holder.
pub(crate) fn shared_by_number<A: Allocator, P: Allocator>(
    table: &Table<A, P>,
    number: u16,
) -> Result<Option<Arc<Accepted<P, P>, P>>, AllocError>
    ensures { IfOk result (λ o. option_map arc_value o
        ≡ option_map (λ l. l.accepted) (listed_by_number (listed table.now.entries) number)) }
{
    match table.get(&number) {
        Some(named) => Ok(Some(named.shared()?)),
        None => Ok(None),
    }
}

/// The number of a name.
pub(crate) fn number_by_name<A: Allocator, P: Allocator>(
    table: &Table<A, P>,
    name: &[u8],
) -> Option<u16>
    ensures { result ≡ option_map (λ p. p.number) (by_name (stored_procedures (listed table.now.entries)) name.now) }
{
    for (number, named) in table.iter() {
        if named.name() == name {
            return Some(*number);
        }
    }
    None
}

/// Enters what is held at a number behind the others.
pub(crate) fn enter<A: Allocator + Copy, P: Allocator>(
    table: &mut Table<A, P>,
    number: u16,
    named: Named<A, P>,
) -> Result<(), AllocError>
    requires { listed_by_number (listed table.old.entries) number ≡ None }
    ensures entered { OnOk result (listed table.new.entries
        ≡ listed table.old.entries ++ record { name = named.name; number = number; accepted = named.accepted } ∷ []) }
    ensures unchanged { OnErr result (table.new.entries ≡ table.old.entries) }
{
    table.insert(number, named)?;
    Ok(())
}

/// The same procedures, in other memory but for their programs.
pub(crate) fn share_all<A: Allocator + Copy, P: Allocator, B: Allocator + Copy>(
    table: &Table<A, P>,
    alloc: B,
) -> Result<Table<B, P>, AllocError>
    requires { AreStored (listed table.now.entries) }
    ensures { IfOk result (λ t. listed t.entries ≡ listed table.now.entries) }
{
    let mut shared = IndexMap::new(alloc);
    for (number, named) in table.iter() {
        enter(&mut shared, *number, named.share(alloc)?)?;
    }
    Ok(shared)
}
