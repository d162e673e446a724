//! The bank's table, and its procedures.

ghost use Rattle.std.specs.Prelude.{◌≤◌};
ghost use Rattle.schema.specs.declared.limits.TheConstants.{MAX_ARGUMENTS};

use bpf_bytes::decode;
use bpf_verify::verify;
use catalogue::Catalogue;
use schema::Schema;
use std::alloc::Global;

/// `open ACCOUNT MONEY` puts the money of an account.
pub(crate) const OPEN: u16 = 1;

/// `transfer FROM TO AMOUNT` moves money from an account to another. The procedure cancels with 1 where the account has
/// less, and with 2 where both are one account.
pub(crate) const TRANSFER: u16 = 2;

/// The program of `open`, as `sdk/c/build` would write it.
const OPEN_PROGRAM: &str = "791200000000000079140800000000007b4af8ff00000000bfa3000000000000\
07030000f8ffffffb70100000100000085000000020000009500000000000000";

/// The program of `transfer`.
const TRANSFER_PROGRAM: &str = "7916000000000000791708000000000079181000000000001d76200000000000\
b701000001000000bf62000000000000bfa300000000000007030000f8ffffff\
850000000100000079a9f8ff000000002d981600000000001f89000000000000\
7b9af8ff00000000b701000001000000bf62000000000000bfa3000000000000\
07030000f8ffffff8500000002000000b701000001000000bf72000000000000\
bfa300000000000007030000f8ffffff850000000100000079a9f8ff00000000\
0f890000000000007b9af8ff00000000b701000001000000bf72000000000000\
bfa300000000000007030000f8ffffff8500000002000000bf90000000000000\
9500000000000000b70100000100000085000000060000009500000000000000\
b70100000200000085000000060000009500000000000000";

/// Adds a procedure whose program takes so many bytes of arguments.
fn add(
    alloc: Global,
    catalogue: &mut Catalogue,
    name: &[u8],
    number: u16,
    args_len: u16,
    program: &str,
) -> Option<()>
    requires { args_len ≤ MAX_ARGUMENTS }
{
    let code = decode(alloc, &hex::decode(alloc, program).ok()?).ok()?;
    let accepted = verify(alloc, code, catalogue.schema(), args_len).ok()?;
    catalogue.add(name, number, accepted).ok()
}

/// Makes the bank's database: table 1 of rows of 8 bytes, an account each, and both procedures.
pub(crate) fn database(alloc: Global) -> Option<Catalogue> {
    let mut catalogue = Catalogue::new(alloc, Schema::new(alloc, &[(1, 8)]).ok()?);
    add(alloc, &mut catalogue, b"open", OPEN, 16, OPEN_PROGRAM)?;
    add(
        alloc,
        &mut catalogue,
        b"transfer",
        TRANSFER,
        24,
        TRANSFER_PROGRAM,
    )?;
    Some(catalogue)
}
