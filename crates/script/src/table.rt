//! One more table.

ghost use Rattle.std.specs.Prelude.{◌≡◌, ◌⊎◌, ◌==◌, ◌∷◌, ◌++◌, [], length, Ok, Err, IfOk, IfErr, OnOk, OnErr};
ghost use Rattle.std.specs.FinMap.{entries};
ghost use Rattle.schema.specs.Schema.{schema_of};
ghost use Rattle.script.specs.Settings.{caused, has_only_tables, with_table};
ghost use Rattle.script.specs.declared.cause.FaultCause.TheVariants.{NoMemory, Table};

use crate::cause::FaultCause;
use catalogue::Catalogue;
use schema::{Schema, SchemaFault};
use std::alloc::{AllocError, Allocator};

/// Adds a table to a catalogue that has only tables yet. `pairs` are its tables with their widths, as they were
/// given.
pub(crate) fn add_table<A: Allocator + Copy>(
    pairs: &mut Vec<(u8, u16), A>,
    catalogue: &mut Catalogue<A>,
    table: u8,
    width: u16,
) -> Result<(), FaultCause>
    requires { schema_of pairs.old.items ≡ Ok catalogue.old.tables }
    ensures pairs { schema_of pairs.new.items ≡ Ok catalogue.new.tables }
    ensures ok { OnOk result (with_table catalogue.old table width ≡ Ok catalogue.new) }
    ensures fault { IfErr result (λ cause. (cause ≡ NoMemory) ⊎ (with_table catalogue.old table width ≡ Err cause)) }
    ensures unchanged { OnErr result (catalogue.new ≡ catalogue.old) }
{
    if !has_only_tables(catalogue) {
        return Err(FaultCause::Place);
    }
    let alloc = *pairs.allocator();
    let more = with_pair(pairs, table, width)?;
    let schema = schema(alloc, &more)?;
    *catalogue = Catalogue::new(alloc, schema);
    *pairs = more;
    Ok(())
}

/// Tells whether a catalogue has no rows.
fn has_no_rows<A: Allocator + Copy>(catalogue: &Catalogue<A>) -> bool
    ensures { result ≡ (length (entries catalogue.now.rows) == 0) }
{
    catalogue.rows().is_empty()
}

/// Tells whether a catalogue has no requests.
fn has_no_requests<A: Allocator + Copy>(catalogue: &Catalogue<A>) -> bool
    ensures { result ≡ (length catalogue.now.requests == 0) }
{
    catalogue.requests().requests().is_empty()
}

/// Tells whether a catalogue has no procedures.
fn has_no_procedures<A: Allocator + Copy>(catalogue: &Catalogue<A>) -> bool
    ensures { result ≡ (length catalogue.now.procedures == 0) }
{
    catalogue.list().next().is_none()
}

/// Tells whether a catalogue has no rows, no requests and no procedures.
fn has_only_tables<A: Allocator + Copy>(catalogue: &Catalogue<A>) -> bool
    ensures { result ≡ has_only_tables catalogue.now }
{
    if !has_no_rows(catalogue) || !has_no_requests(catalogue) {
        return false;
    }
    has_no_procedures(catalogue)
}

/// The pairs and one more.
fn with_pair<A: Allocator + Copy>(
    pairs: &Vec<(u8, u16), A>,
    table: u8,
    width: u16,
) -> Result<Vec<(u8, u16), A>, AllocError>
    ensures { IfOk result (λ more. more.items ≡ pairs.now.items ++ (table, width) ∷ []) }
{
    let mut more = pairs.clone()?;
    more.extend_from_slice(&[(table, width)])?;
    Ok(more)
}

/// The schema of some pairs.
fn schema<A: Allocator + Copy>(alloc: A, pairs: &[(u8, u16)]) -> Result<Schema<A>, FaultCause>
    ensures ok { IfOk result (λ schema. schema_of pairs.now ≡ Ok schema) }
    ensures fault { IfErr result (λ cause. (cause ≡ NoMemory) ⊎ (caused Table (schema_of pairs.now) ≡ Err cause)) }
{
    match Schema::new(alloc, pairs) {
        Ok(schema) => Ok(schema),
        Err(fault) => match fault {
            SchemaFault::NoMemory => Err(FaultCause::NoMemory),
            _ => Err(FaultCause::Table(fault)),
        },
    }
}
