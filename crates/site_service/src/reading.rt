//! The reading of what a line asks for.
#![tactic(auto, unfolding(crate::specs::Lines::request_behind))]

ghost use Rattle.std.specs.Prelude.{◌≡◌, ◌⊎◌, Ok, Err, IfOk, IfErr};
ghost use Rattle.site_service.specs.Lines.{IsWithinLimits, call_of, scan_of};
ghost use Rattle.script.specs.declared.fault.LineFault.TheVariants.{NoMemory};

use crate::line::{Scan, SiteLine};
use crate::word::Word;
use row_sets::Bytes;
use script::fields::read_name;
use script::hex_field::read_hex;
use script::number::{read_count, read_u8, read_u32, read_u64};
use script::procedure_fields::read_procedure;
use script::{LineFault, LineMeaning};
use std::alloc::Allocator;

impl<A: Allocator + Copy> LineMeaning<A, Word> for SiteLine<Bytes<A>> {
    ghost use Rattle.site_service.specs.Lines.{IsWithinLimits, request_behind};

    ghost said_behind = { request_behind };

    ghost IsWithin = { IsWithinLimits };

    fn read_behind(alloc: A, word: Word, fields: &[&str]) -> Result<Self, LineFault> {
        match (word, fields) {
            (Word::Call, [name, args, session, sequence]) => {
                read_call(alloc, name, args, session, sequence)
            }
            (Word::Add, [name, number, args_len, program]) => {
                let procedure = read_procedure(alloc, name, number, args_len, program)?;
                Ok(SiteLine::Add(procedure))
            }
            (Word::Entry, [bytes]) => Ok(SiteLine::Entry {
                bytes: read_hex(alloc, bytes)?,
            }),
            (Word::Rows, []) => Ok(SiteLine::Rows),
            (Word::Scan, [table, lo, hi, most]) => {
                let scan = read_scan(table, lo, hi, most)?;
                Ok(SiteLine::Scan(scan))
            }
            (Word::Dump, []) => Ok(SiteLine::Dump),
            (Word::Position, []) => Ok(SiteLine::Position),
            _ => Err(LineFault::FieldCount),
        }
    }
}

/// Reads the fields of a call.
fn read_call<A: Allocator + Copy>(
    alloc: A,
    name: &str,
    args: &str,
    session: &str,
    sequence: &str,
) -> Result<SiteLine<Bytes<A>>, LineFault>
    ensures exact { IfOk result (λ request. call_of name.now args.now session.now sequence.now ≡ Ok request) }
    ensures fault { IfErr result (λ fault. (fault ≡ NoMemory)
        ⊎ (call_of name.now args.now session.now sequence.now ≡ Err fault)) }
    ensures limits { IfOk result IsWithinLimits }
{
    Ok(SiteLine::Call {
        name: read_name(alloc, name)?,
        args: read_hex(alloc, args)?,
        session: read_u32(session)?,
        sequence: read_u32(sequence)?,
    })
}

/// Reads which rows the fields of a scan ask for.
fn read_scan(table: &str, lo: &str, hi: &str, most: &str) -> Result<Scan, LineFault>
    ensures { result ≡ scan_of table.now lo.now hi.now most.now }
{
    Ok(Scan {
        table: read_u8(table)?,
        lo: read_u64(lo)?,
        hi: read_u64(hi)?,
        most: read_count(most)?,
    })
}
