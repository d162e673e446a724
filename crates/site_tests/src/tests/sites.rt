//! Sites of the tests: table 1 with rows of eight bytes, the procedures `add` and `claim`, and a window of 4.

use bpf_bytes::decode;
use bpf_verify::verify;
use catalogue::Catalogue;
use log_entry::{Entry, NamedProgram, to_bytes};
use log_model::RequestId;
use schema::Schema;
use site::{Asked, Site, SiteSettings};
use site_model::{AdditionAnswer, CallAnswer, EntryOutcome, Origin};
use std::alloc::Global;
use test_programs::{ADD, bytes_of};

/// A program that puts 0 at the key that its argument is, or cancels with 1 where there is a row.
const CLAIM: &str = "
    7916000000000000 b701000001000000 bf62000000000000 bfa3000000000000
    07030000f8ffffff 8500000001000000 1500020000000000 b701000001000000
    8500000006000000 b701000001000000 bf62000000000000 bfa3000000000000
    07030000f8ffffff 8500000002000000 b700000000000000 9500000000000000
";

/// The procedures at first: name, number, program and the number of bytes of its arguments.
static PROCEDURES: [(&[u8], u16, &str, u16); 2] = [(b"add", 1, ADD, 16), (b"claim", 2, CLAIM, 8)];

/// Adds the procedures. Returns `None` where memory is wanting.
fn add_procedures(alloc: Global, catalogue: &mut Catalogue) -> Option<()> {
    for (name, number, program, args_len) in &PROCEDURES {
        let code = decode(alloc, &bytes_of(alloc, program)?).ok()?;
        let accepted = verify(alloc, code, catalogue.schema(), (*args_len).min(256)).ok()?;
        catalogue.add(name, *number, accepted).ok()?;
    }
    Some(())
}

fn catalogue_of(alloc: Global) -> Option<Catalogue> {
    let schema = Schema::new(alloc, &[(1, 8)]).ok()?;
    let mut catalogue = Catalogue::new(alloc, schema);
    let added = add_procedures(alloc, &mut catalogue);
    added.and(Some(catalogue))
}

/// A site over a catalogue that was given nothing, and `None` where memory is wanting.
fn site_over(
    alloc: Global,
    catalogue: Catalogue,
    takes_additions: bool,
    origin: Option<Origin>,
) -> Option<Site> {
    let settings = SiteSettings {
        window: 4,
        catalogue,
        table_list: Vec::from_slice(alloc, &[(1, 8)]).ok()?,
        takes_additions,
        origin,
    };
    Site::new(alloc, settings).ok()
}

/// A site that was given nothing, and `None` where memory is wanting.
fn site_of(alloc: Global, takes_additions: bool) -> Option<Site> {
    site_over(alloc, catalogue_of(alloc)?, takes_additions, None)
}

/// A site before which a request was done, and `None` where memory is wanting.
fn site_behind(alloc: Global, request: RequestId, reply: u64) -> Option<Site> {
    let mut catalogue = catalogue_of(alloc)?;
    catalogue.put_request(request, reply, 3, &[1]).ok()?;
    site_over(alloc, catalogue, false, None)
}

/// A site that was given nothing of an order that opens sessions, and `None` where memory is wanting.
fn site_with_sessions(alloc: Global, origin: Origin) -> Option<Site> {
    site_over(alloc, catalogue_of(alloc)?, false, Some(origin))
}

/// Returns the outcome of one more byte string, and the site then. Returns `None` where memory is wanting, or no
/// position is left.
fn taken(site: Site, bytes: &[u8]) -> Option<(Site, EntryOutcome)> {
    if site.position() == u32::MAX {
        None
    } else {
        site.take(bytes).ok()
    }
}

/// A site, until memory is wanting.
#[derive(Drop)]
pub(crate) struct GivenSite {
    site: Option<Site>,
}

impl GivenSite {
    /// Makes a site that was given nothing.
    pub(crate) fn new(alloc: Global, takes_additions: bool) -> GivenSite {
        GivenSite {
            site: site_of(alloc, takes_additions),
        }
    }

    /// Makes a site before which this request was done, by a call of procedure 3 with the argument 1.
    pub(crate) fn behind(alloc: Global, request: RequestId, reply: u64) -> GivenSite {
        GivenSite {
            site: site_behind(alloc, request, reply),
        }
    }

    /// Makes a site that was given nothing of an order that opens sessions behind these.
    pub(crate) fn with_sessions(alloc: Global, origin: Origin) -> GivenSite {
        GivenSite {
            site: site_with_sessions(alloc, origin),
        }
    }

    /// Takes in one more byte string, and returns its outcome.
    pub(crate) fn take(&mut self, bytes: &[u8]) -> Option<EntryOutcome> {
        let (site, outcome) = taken(self.site.take()?, bytes)?;
        self.site = Some(site);
        Some(outcome)
    }

    /// The site, to ask.
    pub(crate) fn site(&self) -> Option<&Site> {
        self.site.as_ref()
    }
}

/// Returns the number of bytes of an entry that is to be ordered, and the bytes.
fn sized(alloc: Global, entry: &Entry) -> Option<(usize, Vec<u8>)> {
    let bytes = to_bytes(alloc, entry).ok()?;
    Some((bytes.len(), bytes))
}

/// Returns the answer to a call, by the number of bytes that are to be ordered, and the bytes.
pub(crate) fn answer(
    alloc: Global,
    site: &Site,
    asked: Asked<'_>,
) -> Option<(CallAnswer<usize>, Vec<u8>)> {
    let told = match site.call(asked) {
        Ok(CallAnswer::Submitted(entry)) => {
            let (size, bytes) = sized(alloc, &entry)?;
            return Some((CallAnswer::Submitted(size), bytes));
        }
        Ok(CallAnswer::Refused(refusal)) => CallAnswer::Refused(refusal),
        Ok(CallAnswer::OutOfSession) => CallAnswer::OutOfSession,
        Ok(CallAnswer::Repeated { position, reply }) => CallAnswer::Repeated { position, reply },
        Ok(CallAnswer::Cancelled { position, code }) => CallAnswer::Cancelled { position, code },
        Ok(CallAnswer::Read { position, reply }) => CallAnswer::Read { position, reply },
        Err(_) => return None,
    };
    Some((told, Vec::new(alloc)))
}

/// Returns the answer to a procedure that is to be added, by the number of bytes that are to be ordered, and the bytes.
/// (A site may be asked for at most 256 bytes of arguments.)
pub(crate) fn answer_to_addition(
    alloc: Global,
    site: &Site,
    named: NamedProgram<'_>,
) -> Option<(AdditionAnswer<usize>, Vec<u8>)> {
    let args_len = named.args_len.min(256);
    match site.add(NamedProgram { args_len, ..named }) {
        Ok(AdditionAnswer::Submitted(entry)) => {
            let (size, bytes) = sized(alloc, &entry)?;
            Some((AdditionAnswer::Submitted(size), bytes))
        }
        Ok(AdditionAnswer::Refused(refusal)) => {
            Some((AdditionAnswer::Refused(refusal), Vec::new(alloc)))
        }
        Err(_) => None,
    }
}
