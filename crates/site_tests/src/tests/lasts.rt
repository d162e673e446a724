//! What sessions have done last.

use super::heads::CALL;
use super::sites::{GivenSite, answer};
use log_model::RequestId;
use site::{Asked, Site};
use site_model::{CallAnswer, EntryOutcome, NothingCause, Origin};
use std::alloc::Global;
use std::process::Abort;

/// The arguments of `add` that add 10 to row 5, as `CALL` does, and 7.
static TEN: [u8; 16] = [5, 0, 0, 0, 0, 0, 0, 0, 10, 0, 0, 0, 0, 0, 0, 0];

static SEVEN: [u8; 16] = [5, 0, 0, 0, 0, 0, 0, 0, 7, 0, 0, 0, 0, 0, 0, 0];

/// What a session has done last: the number within the session, the reply, the procedure and the arguments.
type Last = (u32, u64, u16, &'static [u8]);

/// Asserts that a session has done this last, or nothing.
fn has_last(rt: &impl Abort, site: &Site, session: u32, wanted: Option<Last>) {
    let Some(done) = site.sessions().lasts.last(session) else {
        assert!(rt; wanted.is_none(), "nothing done");
        return;
    };
    let (sequence, reply, procedure, args) = wanted.expect(rt, "something done");
    let request = done.request();
    assert_eq!(rt; (request.session, request.sequence), (session, sequence));
    assert_eq!(rt; (done.reply(), done.procedure()), (reply, procedure));
    assert_eq!(rt; done.args(), args);
}

/// Gives a site these bytes, and asserts their outcome and what session 7 has done last then.
fn take(
    rt: &impl Abort,
    given: &mut GivenSite,
    bytes: &[u8],
    outcome: EntryOutcome,
    last: Option<Last>,
) {
    assert_eq!(rt; given.take(bytes).expect(rt, "memory"), outcome);
    has_last(rt, given.site().expect(rt, "a site"), 7, last);
}

/// The answer to a call of `add` with the arguments `SEVEN`, at the site's position, by a request of session 7, and the
/// bytes that are to be ordered.
fn answer_of_seven(
    rt: &impl Abort,
    alloc: Global,
    given: &GivenSite,
    sequence: u32,
) -> (CallAnswer<usize>, Vec<u8>) {
    let session = 7;
    let asked = Asked {
        name: b"add",
        args: &SEVEN,
        request: Some(RequestId { session, sequence }),
    };
    let site = given.site().expect(rt, "a site");
    answer(alloc, site, asked).expect(rt, "memory")
}

#[test]
fn the_last_request_is_the_one_of_the_greatest_number_that_committed(rt: HostRuntime) {
    let alloc = rt.alloc();
    let mut given = GivenSite::new(alloc, true);
    has_last(&rt, given.site().expect(&rt, "a site"), 7, None);
    let first = Some((1, 10, 1, TEN.as_slice()));
    let (position, reply) = (1, 10);
    let repeated = EntryOutcome::Repeated { position, reply };
    take(&rt, &mut given, &CALL, EntryOutcome::Committed(10), first);
    take(&rt, &mut given, &CALL, repeated, first);
    // Request 7 3 on rows that have changed.
    let mut late = CALL;
    late[5] = 3;
    take(&rt, &mut given, &late, EntryOutcome::Conflict(1), first);
    let third = Some((3, 17, 1, SEVEN.as_slice()));
    let (_, bytes) = answer_of_seven(&rt, alloc, &given, 3);
    take(&rt, &mut given, &bytes, EntryOutcome::Committed(17), third);
    let (_, bytes) = answer_of_seven(&rt, alloc, &given, 2);
    take(&rt, &mut given, &bytes, EntryOutcome::Committed(24), third);
    has_last(&rt, given.site().expect(&rt, "a site"), 8, None);
}

#[test]
fn a_request_that_was_done_before_counts(rt: HostRuntime) {
    let alloc = rt.alloc();
    let before = RequestId {
        session: 7,
        sequence: 2,
    };
    let mut given = GivenSite::behind(alloc, before, 9);
    let done: Option<Last> = Some((2, 9, 3, &[1]));
    has_last(&rt, given.site().expect(&rt, "a site"), 7, done);
    let (position, reply) = (0, 9);
    let (told, _) = answer_of_seven(&rt, alloc, &given, 2);
    assert_eq!(rt; told, CallAnswer::Repeated { position, reply });
    let mut again = CALL;
    again[5] = 2;
    let repeated = EntryOutcome::Repeated { position, reply };
    take(&rt, &mut given, &again, repeated, done);
    take(&rt, &mut given, &CALL, EntryOutcome::Committed(10), done);
    let third = Some((3, 17, 1, SEVEN.as_slice()));
    let (_, bytes) = answer_of_seven(&rt, alloc, &given, 3);
    take(&rt, &mut given, &bytes, EntryOutcome::Committed(17), third);
}

#[test]
fn a_session_that_did_nothing_before_begins(rt: HostRuntime) {
    let none = RequestId {
        session: 7,
        sequence: 0,
    };
    let mut given = GivenSite::behind(rt.alloc(), none, 9);
    let done: Option<Last> = Some((0, 9, 3, &[1]));
    has_last(&rt, given.site().expect(&rt, "a site"), 7, done);
    let first = Some((1, 10, 1, TEN.as_slice()));
    take(&rt, &mut given, &CALL, EntryOutcome::Committed(10), first);
}

/// The bytes that open a session.
static OPENING: [u8; 18] = [0, 2, 1, 1, 1, 1, 1, 1, 1, 1, 1, 1, 1, 1, 1, 1, 1, 1];

/// The number of sessions that the order of a site has opened.
fn opened(rt: &impl Abort, given: &GivenSite) -> u32 {
    given.site().expect(rt, "a site").sessions().opened
}

#[test]
fn an_order_opens_sessions_and_refuses_what_they_have_passed(rt: HostRuntime) {
    let alloc = rt.alloc();
    let (strings, sessions) = (3, 6);
    let mut given = GivenSite::with_sessions(alloc, Origin { strings, sessions });
    let unknown = EntryOutcome::Nothing(NothingCause::UnknownSession);
    take(&rt, &mut given, &CALL, unknown, None);
    let (told, _) = answer_of_seven(&rt, alloc, &given, 1);
    assert_eq!(rt; told, CallAnswer::OutOfSession);
    let short = EntryOutcome::Nothing(NothingCause::Unreadable);
    take(&rt, &mut given, &OPENING[..17], short, None);
    let nothing: Option<Last> = Some((0, 0, 0, &[]));
    take(&rt, &mut given, &OPENING, EntryOutcome::Session(7), nothing);
    assert_eq!(rt; opened(&rt, &given), 1);
    let third = Some((3, 7, 1, SEVEN.as_slice()));
    let (_, second) = answer_of_seven(&rt, alloc, &given, 2);
    let (_, bytes) = answer_of_seven(&rt, alloc, &given, 3);
    take(&rt, &mut given, &bytes, EntryOutcome::Committed(7), third);
    let superseded = EntryOutcome::Nothing(NothingCause::Superseded);
    take(&rt, &mut given, &second, superseded, third);
    let (told, _) = answer_of_seven(&rt, alloc, &given, 2);
    assert_eq!(rt; told, CallAnswer::OutOfSession);
    let (position, reply) = (4, 7);
    let (told, _) = answer_of_seven(&rt, alloc, &given, 3);
    assert_eq!(rt; told, CallAnswer::Repeated { position, reply });
}

#[test]
fn session_numbers_have_32_bits(rt: HostRuntime) {
    let (strings, sessions) = (0, u32::MAX - 1);
    let mut given = GivenSite::with_sessions(rt.alloc(), Origin { strings, sessions });
    let last = EntryOutcome::Session(u32::MAX);
    take(&rt, &mut given, &OPENING, last, None);
    let beyond = EntryOutcome::Nothing(NothingCause::Unreadable);
    take(&rt, &mut given, &OPENING, beyond, None);
    assert_eq!(rt; opened(&rt, &given), 1);
}
