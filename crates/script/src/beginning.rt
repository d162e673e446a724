//! One more row, and one more request that was done.

ghost use Rattle.std.specs.Prelude.{◌≡◌, ◌⊎◌, Ok, Err, IfErr, OnOk, OnErr};
ghost use Rattle.script.specs.Settings.{with_request, with_row};
ghost use Rattle.script.specs.declared.cause.FaultCause.TheVariants.{NoMemory};

use crate::cause::FaultCause;
use crate::request_fields::RequestFields;
use catalogue::Catalogue;
use log_model::RequestId;
use row_sets::Bytes;
use schema::OrNoMemory;
use std::alloc::Allocator;

/// Puts a row behind the others.
pub(crate) fn add_row<A: Allocator + Copy>(
    catalogue: &mut Catalogue<A>,
    table: u8,
    key: u64,
    row: &[u8],
) -> Result<(), FaultCause>
    ensures ok { OnOk result (with_row catalogue.old (table, key) row.now ≡ Ok catalogue.new) }
    ensures fault { IfErr result (λ cause. (cause ≡ NoMemory)
        ⊎ (with_row catalogue.old (table, key) row.now ≡ Err cause)) }
    ensures unchanged { OnErr result (catalogue.new ≡ catalogue.old) }
    ensures tables { catalogue.new.tables ≡ catalogue.old.tables }
{
    match catalogue.put_row(table, key, row) {
        Ok(()) => Ok(()),
        Err(OrNoMemory::NoMemory) => Err(FaultCause::NoMemory),
        Err(OrNoMemory::Fault(fault)) => Err(FaultCause::Row(fault)),
    }
}

/// Puts a request that was done behind the others.
pub(crate) fn add_request<A: Allocator + Copy>(
    catalogue: &mut Catalogue<A>,
    done: &RequestFields<Bytes<A>>,
) -> Result<(), FaultCause>
    ensures ok { OnOk result (with_request catalogue.old done.now ≡ Ok catalogue.new) }
    ensures fault { IfErr result (λ cause. (cause ≡ NoMemory)
        ⊎ (with_request catalogue.old done.now ≡ Err cause)) }
    ensures unchanged { OnErr result (catalogue.new ≡ catalogue.old) }
    ensures tables { catalogue.new.tables ≡ catalogue.old.tables }
{
    let request = RequestId {
        session: done.session,
        sequence: done.sequence,
    };
    let args = done.args.as_slice();
    match catalogue.put_request(request, done.reply, done.procedure, args) {
        Ok(()) => Ok(()),
        Err(OrNoMemory::NoMemory) => Err(FaultCause::NoMemory),
        Err(OrNoMemory::Fault(fault)) => Err(FaultCause::Request(fault)),
    }
}
