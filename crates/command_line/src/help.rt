//! The text of `--help` on the lines of scripts and of sites.

/// The lines of a script and what they print, as docs/FORMATS.md explains them.
pub const SCRIPT_HELP: &str = "\
Lines of a script. Fields stand one space apart; empty lines, and those that
begin with #, are skipped. Settings, which print nothing:
  window N                 entries that a snapshot may fall behind, 1 to 4096
  replicas N               how many replicas there are, 1 to 8
  table T W                a table, 1 to 64, with rows of W bytes, 1 to 128
  proc NAME NUMBER ARGSLEN HEX
                           a procedure, the length of its arguments in bytes,
                           0 to 256, and its program
  row T K HEX              a row that is there at first, behind that of the row
                           line before, by table and key
  request S Q V N HEX      a request that was done before, of a session behind
                           that of the line before: session, sequence number,
                           reply, and the procedure and arguments of its call

Lines that act, each with what it prints:
  begin R NAME HEX         a call begins at replica R, with these arguments
    call C replica R snapshot S     its number; it reads the rows at position S
  begin R NAME HEX SESSION SEQ
                           the same with a request, which commits once at most:
                           the numbers of its caller and of what is asked for
  add NAME NUMBER ARGSLEN HEX
                           a procedure is appended to the log; fields as in proc
    add number D                    its position in the log
  turn C N                 the call runs at most N instructions
    call C more                     there is more to run
    call C exit V                   it is at its end, with reply V
    call C stale                    rows that it reads are gone: it is over
    call C no memory                it found no memory: it is over
  exec C                   the call runs to its end: as turn, but never more
  order C                  a call at its end is ordered, and is over
    call C number D                 its position in the log
    call C read S reply V           it wrote nothing, so it isn't ordered
    call C cancelled S code V       it cancelled, so it isn't ordered
  deliver R N              replica R takes up to N entries, each with its line
    replica R number D commit reply V
                                    its writes are done
    replica R number D conflict E   entry E wrote what it had looked at
    replica R number D stale        its snapshot is too far behind
    replica R number D repeat E reply V
                                    entry E has done its request, and replied V
    replica R number D added N      from here on there is procedure N
    replica R number D taken C1     a procedure has its name, or (C2) number
  rows R                   each row of replica R: table, key, bytes; and then
    replica R position P rows N     how far it has come, and how many rows
  log                      each entry: number, procedure, snapshot (- of an
                           addition), writes, comparisons, verdict, or - open
                           where no replica has delivered it yet; and then
    log N                           how many there are
  entry D                  the bytes of an entry of the log
    entry D HEX, entry D none
  rebuild R                replica R is made anew from the log
    replica R rebuilt P             it has taken P entries

HEX is an even number of digits, at least two, or - for no bytes. Window and
replicas are set once each before the first line that acts, which ends the
settings; tables stand before procedures. A NAME of begin is that of a proc, or
of a procedure that was added up to the replica's position. SESSION and SEQ are
at least 1.
A step that is refused prints begin refused P2, add refused P11 V1 slot 0,
call 1 refused P5 or replica 1 refused P6 (rows of no replica: P1), and the
script goes on; deliver ends there, also after entries. A line at fault ends the
script, as line 4: L7 V5 slot 6 on standard error. docs/REFUSALS.md explains the
numbers.

Exit status: 0 done, 1 a line at fault, 2 a command line that can't be read,
3 a file, a stream or memory.";

/// The lines of a script whose calls run on threads, and what is printed of them, as docs/FORMATS.md explains them.
pub const RUN_HELP: &str = "\
Lines of a script, which is read whole before its calls begin. Settings, as
dsmdb replay --help explains them: window, replicas, table, proc, row, request.
Behind them stand only calls:
  begin R NAME HEX         a call at replica R, with these arguments
  begin R NAME HEX SESSION SEQ
                           the same with a request, which commits once at most:
                           the numbers of its caller and of what is asked for

Each replica has N threads that make its calls, in the order of the script, and
N that run them, so that N calls run at once. When all are answered, and each
replica has taken the whole log or stopped, there is a line for each call, the
calls being numbered from 1 in the order of the script:
  call I committed D reply V      its entry D of the log committed
  call I read S reply V           it wrote nothing, on the rows at position S
  call I cancelled S code V       it cancelled, on the rows at position S
  call I conflict D E             entry E wrote what it had looked at
  call I stale                    its snapshot was too far behind
  call I repeat D E reply V       entry E has done its request, and replied V
  call I no memory                it found no memory, and isn't in the log
  call I full                     the log was full
  call I stopped D                it is entry D, but its replica stopped before
  call I refused P2               it didn't begin: no such replica (P1) or
                                  procedure (P2), or arguments of another
                                  length (P3)
and then
  total committed A read B cancelled C conflict D stale E repeat G other F
                                  how many were answered so
  replica R position P commits C running
                                  how far each replica has come, and how many
                                  entries committed; or stopped, where it found
                                  no memory
  agreement yes                   what each two replicas took from the log is
                                  the same, as far as both have come; or no

How calls overlap, and so which of them commit, may differ from run to run.
A line at fault ends the script before any call, as line 4: L7 V5 slot 6 on
standard error; line 0: L5 says that window or replicas are wanting.
docs/REFUSALS.md explains the numbers.

Exit status: 0 done, 1 a line at fault, 2 a command line that can't be read,
3 a file, a stream or memory.";

/// The settings of a site, the lines that are given to it, and what it answers, as docs/FORMATS.md explains them.
pub const SITE_HELP: &str = "\
Settings, which all sites of an order have in common, as dsmdb replay --help
explains them: window, table, proc, row, request; and once each
  additions                procedures may be added by the order
  origin B N               the order opens sessions, behind B byte strings and
                           N sessions of orders before it; 0 0 for a new
                           database. It stands before all request lines

The lines of the input. Each is answered, and the answer has left, before the
next is waited for; empty lines, and those that begin with #, are not answered.
  entry HEX                the byte string at the next position D of the order,
                           which is taken in; - is the empty one
    entry D commit reply V          a call: its writes are done
    entry D conflict E              entry E wrote what it had looked at
    entry D stale                   its snapshot is too far behind
    entry D repeat E reply V        entry E has done its request, and replied V
    entry D added N                 from here on there is procedure N
    entry D taken C1                a procedure has its name, or (C2) number
    entry D session S               it opens session S
    entry D nothing E5              it is nothing: unreadable (E1), a procedure
                                    that can't be added (E2), a call of rows
                                    that aren't there yet (E3) or of no
                                    procedure (E4), one whose own run doesn't
                                    give these bytes (E5), or of a session that
                                    has gone on (E6) or isn't known (E7)
    Behind that of a call stands  session S seq Q, where it has a request.
    fault O1                        the order is full; nothing was taken in
  call NAME HEX SESSION SEQ
                           a call runs on the rows at the last position; 0 0 is
                           no request. Nothing changes
    submit HEX                      it wrote: these bytes are to be ordered
    read S reply V                  it wrote nothing
    cancelled S code V              it cancelled
    repeat E reply V                entry E has done its request, and replied V
    refused P2                      no such procedure; or arguments of another
                                    length (P3), no memory (P9), one alone of
                                    SESSION and SEQ is 0 (P13), or the session
                                    has gone on or isn't known (P15)
  add NAME NUMBER ARGSLEN HEX
                           a procedure is checked, to be added. Nothing changes
    submit HEX                      these bytes are to be ordered
    refused P11 V1 slot 0           its program isn't accepted; or its name
                                    can't be (P12), the settings lack additions
                                    (P14), or no memory (P9)
  rows                     each row: table, key, bytes; and then
    position P rows N               how far it has come, and how many rows
  scan T LO HI N           the first N rows of table T from key LO to key HI
    position P rows M               behind them, likewise
    refused P16                     no such table
  dump                     the settings of a database that goes on from here:
                           window, tables, additions and origin, procedures,
                           rows, and the last request of each session
    position P lines N              how far it has come, and how many lines
  position                 how far it has come
    position P

A line at fault is answered fault L1 to fault L4, and nothing changes. A line
has at most 1048576 bytes: one that is longer is passed over, and answered
fault L1. What has no LF at its end is none. HEX is as in scripts, SESSION and
SEQ are decimal and may be 0. docs/REFUSALS.md explains the numbers,
docs/SITES.md how several sites share an order.

Settings at fault end it before it reads its input, as line 4: L5 on standard
error. Exit status: 0 its input ended, 1 settings at fault, 2 a command line
that can't be read, 3 a file, a stream or memory.";
