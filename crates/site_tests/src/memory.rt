//! Sites for which there is no memory: each growth of an answer is refused in turn.

use catalogue::Catalogue;
use log_model::RequestId;
use scarce::Scarce;
use site::{Asked, Site, SiteSettings};
use site_model::EntryOutcome;
use std::alloc::Allocator;
use std::process::Abort;
use test_programs::{PROCEDURES, TABLES, catalogue_of};

/// A call that adds 10 to row 5.
const ASKED: Asked<'static> = Asked {
    name: b"1",
    args: &[5, 0, 0, 0, 0, 0, 0, 0, 10, 0, 0, 0, 0, 0, 0, 0],
    request: Some(RequestId {
        session: 7,
        sequence: 1,
    }),
};

/// The bytes of that call in an order, where it finds no row.
static CALL: [u8; 84] = [
    1, 7, 0, 0, 0, 1, 0, 0, 0, 0, 0, 0, 0, 1, 0, 16, 0, 5, 0, 0, 0, 0, 0, 0, 0, 10, 0, 0, 0, 0, 0,
    0, 0, 0, 0, 0, 0, 10, 0, 0, 0, 0, 0, 0, 0, 1, 0, 1, 5, 0, 0, 0, 0, 0, 0, 0, 5, 0, 0, 0, 0, 0,
    0, 0, 1, 0, 1, 5, 0, 0, 0, 0, 0, 0, 0, 1, 10, 0, 0, 0, 0, 0, 0, 0,
];

/// A site over a catalogue with a window of 4 that was given nothing, and none where memory is wanting.
fn site_over<A: Allocator + Copy>(alloc: A, catalogue: Catalogue<A>) -> Option<Site<A>> {
    let settings = SiteSettings {
        window: 4,
        catalogue,
        table_list: Vec::from_slice(alloc, &TABLES).ok()?,
        takes_additions: true,
        origin: None,
    };
    Site::new(alloc, settings).ok()
}

/// A site of the sample procedures, and none where memory is wanting.
fn site_of<A: Allocator + Copy>(alloc: A) -> Option<Site<A>> {
    site_over(alloc, catalogue_of(alloc, &TABLES, &PROCEDURES)?)
}

/// The same with a row and a request that was done before.
fn site_behind<A: Allocator + Copy>(alloc: A) -> Option<Site<A>> {
    let mut catalogue = catalogue_of(alloc, &TABLES, &PROCEDURES)?;
    catalogue.put_row(1, 5, &[0; 8]).ok()?;
    let request = ASKED.request?;
    catalogue.put_request(request, 10, 1, ASKED.args).ok()?;
    site_over(alloc, catalogue)
}

/// Row and request take memory in the catalogue, and once more at the site.
#[test]
fn a_site_over_rows_and_requests_may_find_no_memory(rt: HostRuntime) {
    let scarce = Scarce::new(rt.alloc());
    let alone = scarce.refuse_each(|| site_of(&scarce).is_some());
    let behind = scarce.refuse_each(|| site_behind(&scarce).is_some());
    let alone = alone.expect(&rt, "a site");
    assert!(rt;
        behind.is_some_and(|behind| behind > alone.wrapping_add(5)),
        "{alone}"
    );
}

/// Refuses each growth of the call at a site in turn, until it is answered. Returns how often the call found no memory,
/// and the site's position then.
fn refusals<A: Allocator + Copy>(scarce: &Scarce, site: &Site<A>) -> (Option<u64>, u32) {
    let failed = scarce.refuse_each(|| site.call(ASKED).is_ok());
    (failed, site.position())
}

/// Returns the same of a site that takes memory from here.
fn refusals_over<A: Allocator + Copy>(
    rt: &impl Abort,
    scarce: &Scarce,
    taken_from: A,
) -> (Option<u64>, u32) {
    let site = site_of(taken_from).expect(rt, "a site");
    refusals(scarce, &site)
}

#[test]
fn a_call_that_finds_no_memory_changes_nothing(rt: HostRuntime) {
    let scarce = Scarce::new(rt.alloc());
    let (failed, position) = refusals_over(&rt, &scarce, &scarce);
    assert!(rt; failed.is_some_and(|failed| failed > 0));
    assert_eq!(rt; position, 0);
}

/// Takes the call in at a site, and returns the site and the outcome. Returns `None` where memory is wanting.
fn taken<A: Allocator + Copy>(site: Site<A>) -> Option<(Site<A>, EntryOutcome)> {
    if site.position() == u32::MAX {
        None
    } else {
        site.take(&CALL).ok()
    }
}

/// Returns the outcome of the call at a site that is given nothing else, and the position it comes to. Returns `None`
/// where memory is wanting.
fn outcome_and_position<A: Allocator + Copy>(alloc: A) -> Option<(EntryOutcome, u32)> {
    match site_of(alloc).and_then(taken) {
        Some((site, outcome)) => Some((outcome, site.position())),
        None => None,
    }
}

#[test]
fn a_site_that_finds_no_memory_answers_nothing(rt: HostRuntime) {
    let scarce = Scarce::new(rt.alloc());
    let failed = scarce.refuse_each(|| {
        let found = outcome_and_position(&scarce);
        let is_taken = found == Some((EntryOutcome::Committed(10), 1));
        assert!(rt; found.is_none() || is_taken, "{found:?}");
        found.is_some()
    });
    assert!(rt; failed.is_some_and(|failed| failed > 0));
}
