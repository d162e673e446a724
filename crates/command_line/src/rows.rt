//! The rows of docs/REFUSALS.md, as gate/explanations.py copies them.

use crate::explanation::Explanation;

/// The refusals of programs, schemas and procedures, each once.
pub const OF_PROCEDURES: [Explanation; 33] = [
    Explanation {
        number: "B1",
        cause: "the length is 0, or no multiple of 8",
        cure: "give whole slots of 8 bytes, at least one",
        in_c: "",
    },
    Explanation {
        number: "B2",
        cause: "there are more than 4,096 slots",
        cure: "shorten the program, or split it in two procedures",
        in_c: "fewer turns of a loop, or two procedures",
    },
    Explanation {
        number: "B3",
        cause: "unknown opcode",
        cure: "use the opcodes of FORMATS.md: the atomic and packet groups are left out",
        in_c: "",
    },
    Explanation {
        number: "B4",
        cause: "a register's number is above 10, used or not",
        cure: "use r0 to r10",
        in_c: "",
    },
    Explanation {
        number: "B5",
        cause: "a field that the opcode doesn't use isn't zero; in the second slot of a wide load, anything but its \
            immediate",
        cure: "write zero there",
        in_c: "",
    },
    Explanation {
        number: "B6",
        cause: "a field holds a value that isn't defined for the opcode",
        cure: "use the values of the profile in FORMATS.md",
        in_c: "",
    },
    Explanation {
        number: "B7",
        cause: "the program ends within a wide load",
        cure: "add its second slot",
        in_c: "",
    },
    Explanation {
        number: "B8",
        cause: "a jump backwards",
        cure: "jump forward only: unroll a loop, or look at an interval by one helper",
        in_c: "a loop: write UNROLL before it, and a constant as a bound in its head: `for (u64 i = 0; i < 8; i++)`",
    },
    Explanation {
        number: "B9",
        cause: "a jump past the end",
        cure: "count the distance from the slot behind the jump",
        in_c: "",
    },
    Explanation {
        number: "B10",
        cause: "a jump into the second slot of a wide load",
        cure: "the same: a wide load has two slots",
        in_c: "",
    },
    Explanation {
        number: "B11",
        cause: "the last instruction isn't EXIT",
        cure: "end with EXIT",
        in_c: "",
    },
    Explanation {
        number: "B12",
        cause: "out of memory",
        cure: "give the process more memory, and run it again",
        in_c: "",
    },
    Explanation {
        number: "S1",
        cause: "the table isn't 1 to 64",
        cure: "number it so",
        in_c: "",
    },
    Explanation {
        number: "S2",
        cause: "the width isn't 1 to 128",
        cure: "choose such a width; a longer row is kept in several",
        in_c: "",
    },
    Explanation {
        number: "S3",
        cause: "the table was there before",
        cure: "name each table once",
        in_c: "",
    },
    Explanation {
        number: "S4",
        cause: "out of memory",
        cure: "give the process more memory, and run it again",
        in_c: "",
    },
    Explanation {
        number: "V1",
        cause: "a register that is read may hold nothing: it wasn't set on some path, or a call took it (r1 to r5)",
        cure: "set it on each path, and after a call again",
        in_c: "a variable that some path leaves without a value: give it one where it is made, as `= {}`",
    },
    Explanation {
        number: "V2",
        cause: "r10 is written",
        cure: "copy r10 to another register, and move that",
        in_c: "",
    },
    Explanation {
        number: "V3",
        cause: "a pointer stands where only a number may (a comparison, a value that is stored, arithmetic other \
            than a 64-bit move or adding a number to it or subtracting one in 64 bits), or it is moved too far",
        cure: "keep pointers in registers; bound the number that is added",
        in_c: "an index that wasn't tested just before (`if (i >= 8) return cancel(CODE);`) or may be below zero \
            (take `u64`), or a pointer that is compared, stored or kept over a call",
    },
    Explanation {
        number: "V4",
        cause: "a load or a store at a number, or a byte of it may lie outside the stack of 512 bytes or outside the \
            arguments",
        cure: "test the index before; state the length of the arguments that the program reads",
        in_c: "an index that may be too large: take `u64`, and test it just before its use",
    },
    Explanation {
        number: "V5",
        cause: "a byte of the stack is read, or put as a row, that wasn't written on each path",
        cure: "write the whole buffer before",
        in_c: "a row that some path doesn't write wholly: `struct NAME row = {};`",
    },
    Explanation {
        number: "V6",
        cause: "a call of a helper that there isn't",
        cure: "call helpers 1 to 6",
        in_c: "",
    },
    Explanation {
        number: "V7",
        cause: "the table that a call names isn't one known number of the schema",
        cure: "set r1 to that number right before the call; name the table to `check`",
        in_c: "a table that isn't a constant: call the table's own function, as `account_get`",
    },
    Explanation {
        number: "V8",
        cause: "a key, the bound of an interval or a code isn't a number",
        cure: "pass the number, and not a pointer to it",
        in_c: "",
    },
    Explanation {
        number: "V9",
        cause: "a buffer isn't at one place of the stack, or isn't whole inside: it has the table's width, or 8 \
            bytes for a key",
        cure: "point to the buffer's lowest byte, with as much room above it as the width",
        in_c: "a row that is one or the other (call once for each, not by `condition ? &a : &b`), or no row at all",
    },
    Explanation {
        number: "V10",
        cause: "r0 is a pointer at EXIT",
        cure: "reply with a number",
        in_c: "reply with a number",
    },
    Explanation {
        number: "V11",
        cause: "a store to the arguments",
        cure: "copy to the stack what is to change",
        in_c: "copy the arguments, and change the copy",
    },
    Explanation {
        number: "V12",
        cause: "out of memory, printed with slot 0",
        cure: "give the process more memory, and run it again",
        in_c: "",
    },
    Explanation {
        number: "C1",
        cause: "an earlier procedure has the name; of an addition that is delivered, `taken C1`",
        cure: "choose another name, and add it again",
        in_c: "",
    },
    Explanation {
        number: "C2",
        cause: "an earlier procedure has the number; of an addition that is delivered, `taken C2`",
        cure: "choose another number, and add it again",
        in_c: "",
    },
    Explanation {
        number: "C3",
        cause: "out of memory",
        cure: "give the process more memory, and add it again",
        in_c: "",
    },
    Explanation {
        number: "C4",
        cause: "the name isn't 1 to 32 letters, digits of ASCII or `_`",
        cure: "choose such a name",
        in_c: "",
    },
    Explanation {
        number: "C5",
        cause: "the program was accepted for other tables than the catalogue's",
        cure: "verify it for the catalogue's tables",
        in_c: "",
    },
];

/// The refusals of what is run, each once.
pub const OF_RUNS: [Explanation; 50] = [
    Explanation {
        number: "D1",
        cause: "there is no table of this number",
        cure: "put the `table` line first, or mend the number",
        in_c: "",
    },
    Explanation {
        number: "D2",
        cause: "the row isn't as wide as its table",
        cure: "give as many bytes as the `table` line says",
        in_c: "",
    },
    Explanation {
        number: "D3",
        cause: "the key isn't behind that of the row before, in the order of tables and keys; a key that stands \
            twice too",
        cure: "sort the rows by table and key, as numbers, and leave each key once",
        in_c: "",
    },
    Explanation {
        number: "Q1",
        cause: "the session isn't behind that of the request before",
        cure: "sort the lines by session, and leave the last request of each",
        in_c: "",
    },
    Explanation {
        number: "Q2",
        cause: "at a site, the session has a greater number than the sessions of the `origin` line",
        cure: "give `origin` the greatest session that was ever opened",
        in_c: "",
    },
    Explanation {
        number: "P1",
        cause: "there is no such replica; a `rows` line asks for one, too",
        cure: "name one of 1 to the number that `replicas` set",
        in_c: "",
    },
    Explanation {
        number: "P2",
        cause: "there is no such procedure at this replica's position",
        cure: "name one of a `proc` line; or deliver the entry that adds it to this replica first, where `log` says \
            `added` and not `taken`",
        in_c: "",
    },
    Explanation {
        number: "P3",
        cause: "the arguments haven't the procedure's length",
        cure: "give as many bytes as its `proc` or `add` line says",
        in_c: "",
    },
    Explanation {
        number: "P4",
        cause: "there is no such call, or it is over: ordering it was answered otherwise than by P5, or a turn \
            answered `stale` or `no memory`",
        cure: "begin another",
        in_c: "",
    },
    Explanation {
        number: "P5",
        cause: "the call isn't at EXIT",
        cure: "run it to its end first (`exec`)",
        in_c: "",
    },
    Explanation {
        number: "P6",
        cause: "there is no entry to deliver, also where the replica is stopped",
        cure: "order a call or add a procedure first",
        in_c: "",
    },
    Explanation {
        number: "P7",
        cause: "a delivery, and the replica is stopped",
        cure: "rebuild it",
        in_c: "",
    },
    Explanation {
        number: "P8",
        cause: "the log is full: it has 1,048,576 entries. No world says so, since P10 comes first",
        cure: "begin a new world",
        in_c: "",
    },
    Explanation {
        number: "P9",
        cause: "out of memory; a turn that finds none says `no memory` instead",
        cure: "at a delivery: rebuild the replica when there is memory; else ask again, or begin the call again \
            where it was to be ordered",
        in_c: "",
    },
    Explanation {
        number: "P10",
        cause: "there are too many calls: 1,048,576 calls were begun and procedures added, taken ones too",
        cure: "begin a new world: in this one the calls that were begun go on, but no more begin, and no more \
            procedures are added",
        in_c: "",
    },
    Explanation {
        number: "P11",
        cause: "the program of an addition is refused, with its B or V behind it, or `args`: its arguments would be \
            longer than 256 bytes (a script has L4 there)",
        cure: "see B and V; of `args`: pass fewer bytes, and keep the others in rows",
        in_c: "",
    },
    Explanation {
        number: "P12",
        cause: "an addition's name isn't 1 to 32 letters, digits of ASCII or `_`",
        cure: "choose such a name",
        in_c: "",
    },
    Explanation {
        number: "P13",
        cause: "a session or sequence number of a request is 0 (a script has L4 there); at a site one alone of the \
            two is 0",
        cure: "number both from 1; at a site 0 and 0 is no request",
        in_c: "",
    },
    Explanation {
        number: "P14",
        cause: "at a site, the settings lack the line `additions`",
        cure: "settings with that line, at all sites, and so a new order",
        in_c: "",
    },
    Explanation {
        number: "P15",
        cause: "at a site whose settings have an `origin`, the call's session isn't known, or has done a request of \
            a greater number",
        cure: "a call that was asked for the first time wasn't done: open a new session, and count its requests up",
        in_c: "",
    },
    Explanation {
        number: "P16",
        cause: "at a site, a scan of a table that isn't in the settings",
        cure: "scan a table of the settings",
        in_c: "",
    },
    Explanation {
        number: "E1",
        cause: "it is no entry: it is empty, begins neither with 01 nor with 02, is a call that is shorter than its \
            head or of whose session and sequence number one alone is 0, an addition that is shorter or longer \
            than its lengths say, or would open a session beyond 4,294,967,295",
        cure: "nothing; bridges write such strings for their own ends",
        in_c: "",
    },
    Explanation {
        number: "E2",
        cause: "the settings lack `additions`, or it is an addition whose name, length of arguments or program isn't \
            accepted",
        cure: "ask the site's `add`, and append what it prints",
        in_c: "",
    },
    Explanation {
        number: "E3",
        cause: "it is a call of a snapshot that isn't before its own position",
        cure: "call at a site of this order, and append what it prints",
        in_c: "",
    },
    Explanation {
        number: "E4",
        cause: "there is no procedure of its number at its snapshot, or its arguments have another length",
        cure: "as for E3",
        in_c: "",
    },
    Explanation {
        number: "E5",
        cause: "its run on the rows of its snapshot cancels or writes nothing, or looked at, wrote or replied \
            something else than it says",
        cure: "as for E3",
        in_c: "",
    },
    Explanation {
        number: "E6",
        cause: "the settings have an `origin`, and the call's session has done a request of a greater number",
        cure: "nothing, where callers have one request out at a time: who asked has an answer to a later one",
        in_c: "",
    },
    Explanation {
        number: "E7",
        cause: "the settings have an `origin`, and the call's session isn't known: no `request` line has it, and the \
            order didn't open it",
        cure: "open a session by the order, and call in it",
        in_c: "",
    },
    Explanation {
        number: "O1",
        cause: "the log or the order is full: a node's log has as many entries as it was started for (1,048,576 at \
            most), or a site's order has 4,294,967,295 byte strings, or 2^64 - 1 with those that came before, \
            which the site prints as `fault O1`",
        cure: "begin a new log, with a larger limit where there is one, or a new order, whose settings have the \
            rows in `row` lines",
        in_c: "",
    },
    Explanation {
        number: "O2",
        cause: "out of memory, at a node's log; the entry isn't in the log",
        cure: "give the process more memory, and call again",
        in_c: "",
    },
    Explanation {
        number: "O3",
        cause: "the snapshot of an entry lies beyond what its appender has seen of the log; nothing was appended",
        cure: "read the log on to the snapshot, and append the entry again",
        in_c: "",
    },
    Explanation {
        number: "K1",
        cause: "the node has no replica of this number (`RebuildFault::NoReplica`)",
        cure: "ask for one of 1 to the node's number of replicas",
        in_c: "",
    },
    Explanation {
        number: "K2",
        cause: "out of memory (`RebuildFault::NoMemory`); the replica is as it was",
        cure: "give the process more memory, and rebuild the replica again",
        in_c: "",
    },
    Explanation {
        number: "L1",
        cause: "a byte of the line isn't printable ASCII (0x20 to 0x7E), also of a comment, or the line has more \
            than 70,000 bytes",
        cure: "take out tabs, CRs and letters that aren't ASCII",
        in_c: "",
    },
    Explanation {
        number: "L2",
        cause: "the first word is none: also where the line begins with a space",
        cure: "use a word of FORMATS.md, in lower case, at the line's start",
        in_c: "",
    },
    Explanation {
        number: "L3",
        cause: "the word asks for more fields, or for fewer; two spaces next to each other have an empty field \
            between them",
        cure: "one space between fields, none at the end",
        in_c: "",
    },
    Explanation {
        number: "L4",
        cause: "a field can't be read or is outside its limits, as a session or sequence number of 0; of a `table` \
            only numbers over 255 and widths over 65,535, for the others are L6",
        cure: "decimal without sign or leading zero; HEX of an even number of digits, or `-`; the limits of \
            FORMATS.md",
        in_c: "",
    },
    Explanation {
        number: "L5",
        cause: "the line doesn't stand where it may: an `origin` in a script; a second `window` or `replicas`, a \
            `table` behind a `proc`, `row` or `request`, a setting behind the first line that acts (so a `proc` \
            behind an `add`), a line that acts before `window` and `replicas` are both set; under `run` also a \
            line that acts but isn't `begin`, and, as line 0, a script that ends without `window` or `replicas`",
        cure: "settings first: window and replicas once each, tables, then procedures, rows and requests; under \
            `run` then `begin` lines alone",
        in_c: "",
    },
    Explanation {
        number: "L6",
        cause: "the table is refused: S1, S2 or S3",
        cure: "see S",
        in_c: "",
    },
    Explanation {
        number: "L7",
        cause: "the program of a `proc` line is refused: B1 to B11, or V1 to V11; that of an `add` line is P11, and \
            the script goes on",
        cure: "see B and V; `dsmdb list` and `check` tell of the program alone",
        in_c: "",
    },
    Explanation {
        number: "L8",
        cause: "the procedure of a `proc` line can't be stored: C1, C2 or C4; an `add` line has P12 for its name, \
            and where it is delivered `taken C1` or `taken C2`",
        cure: "see C",
        in_c: "",
    },
    Explanation {
        number: "L9",
        cause: "out of memory: S4, B12, V12 and C3 too; for a setting, for the world, and for what a line says: what \
            a line prints takes none",
        cure: "give the process more memory, and run the script again from its first line: its world ended with it",
        in_c: "",
    },
    Explanation {
        number: "L10",
        cause: "the row of a `row` line can't be put: D1 to D3",
        cure: "see D",
        in_c: "",
    },
    Explanation {
        number: "L11",
        cause: "the request of a `request` line can't be put: Q1 or Q2",
        cure: "see Q",
        in_c: "",
    },
    Explanation {
        number: "N1",
        cause: "the number of replicas is outside 1 to 8 (a script has L4 there)",
        cure: "ask for 1 to 8",
        in_c: "",
    },
    Explanation {
        number: "N2",
        cause: "the number of executing threads is outside 1 to 16 (the command line has status 2 there)",
        cure: "ask for 1 to 16",
        in_c: "",
    },
    Explanation {
        number: "N3",
        cause: "the window is outside 1 to 4,096 (a script has L4 there)",
        cure: "ask for 1 to 4,096",
        in_c: "",
    },
    Explanation {
        number: "N4",
        cause: "out of memory",
        cure: "give the process more memory, and start again",
        in_c: "",
    },
    Explanation {
        number: "N5",
        cause: "a thread wasn't started",
        cure: "allow the process more threads, or ask for fewer replicas or executing threads",
        in_c: "",
    },
    Explanation {
        number: "N6",
        cause: "the limit of the log is outside 1 to 1,048,576 (the command line has status 2 there)",
        cure: "ask for 1 to 1,048,576",
        in_c: "",
    },
];
