//! The replica of a site.

ghost use Rattle.std.specs.Prelude.{◌≡◌, ◌+◌, ◌<◌, ◌^◌, List, [], length, map, IfOk, OnOk};
ghost use Rattle.std.specs.FinMap as finite;
ghost use Rattle.log_model.specs.Log.{done_at, history, rows_after};
ghost use Rattle.log_model.specs.Entries.{Entry as ModelEntry, items_of};
ghost use Rattle.site_model.specs.Order.{reply_to};
ghost use Rattle.site_model.specs.Sessions.{lasts_of, session_cause, sessions_with};
ghost use Rattle.site.specs.Replica.{StandsForLog, reply_of, setting_of};
ghost use Rattle.site.specs.Settings.{site_setting};

use crate::replies::reply_to;
use crate::sessions::Sessions;
use crate::settings::SiteSettings;
use catalogue::{Catalogue, catalogues_are_safe};
use log_model::{RequestId, entries_suffice};
use replica::Replica;
use row_sets::Row;
use site_model::{EntryOutcome, NothingCause, Origin, fit_entries_go_on};
use std::alloc::{AllocError, Allocator, Global};
use std::marker::Model;

/// The replica of a site, with the rest that a site has to know of an order. Contracts see all of it.
#[derive(Drop)]
pub struct SiteReplica<A: Allocator + Copy = Global> {
    pub(crate) alloc: A,
    pub(crate) catalogue: Catalogue<A>,
    pub(crate) table_list: Vec<(u8, u16), A>,
    pub(crate) takes_additions: bool,
    pub(crate) origin: Option<Origin>,
    pub(crate) replica: Replica<A>,
    /// The reply at each position.
    pub(crate) replies: Vec<u64, A>,
    /// The number of each procedure that was added, and its position.
    pub(crate) additions: Vec<(u16, u32), A>,
    pub(crate) sessions: Sessions<A>,
}

impl<A: Allocator + Copy> Model for SiteReplica<A> {
    ghost use Rattle.site.specs.Replica.{SiteReplica, site_code};

    ghost Value = { SiteReplica };

    ghost coded = { site_code };

    ghost view = { λ s. record {
      catalogue = s.catalogue;
      table_list = s.table_list.items;
      takes_additions = s.takes_additions;
      origin = s.origin;
      replica = s.replica;
      replies = s.replies.items;
      additions = s.additions.items;
      sessions = s.sessions;
    } };
}

impl<A: Allocator + Copy> SiteReplica<A> {
    /// Makes a replica that was given nothing. A call is stale where more byte strings than the window came since its
    /// snapshot.
    pub fn new(alloc: A, settings: SiteSettings<A>) -> Result<SiteReplica<A>, AllocError>
        ensures stands { IfOk result (λ s. StandsForLog s []) }
        ensures sessions { IfOk result (λ s. s.sessions
            ≡ record { opened = 0; lasts = lasts_of settings.origin settings.catalogue.requests }) }
        ensures setting { IfOk result (λ s. setting_of s ≡ site_setting settings) }
    {
        let SiteSettings {
            window,
            catalogue,
            table_list,
            takes_additions,
            origin,
        } = settings;
        catalogues_are_safe(&catalogue);
        let replica = Replica::new(alloc, window, &catalogue)?;
        let sessions = Sessions::before(alloc, origin, catalogue.requests().requests())?;
        Ok(SiteReplica {
            alloc,
            catalogue,
            table_list,
            takes_additions,
            origin,
            replica,
            replies: Vec::new(alloc),
            additions: Vec::new(alloc),
            sessions,
        })
    }

    /// Returns the number of byte strings that were taken in.
    pub fn position(&self) -> u32
        ensures position { result ≡ self.now.replica.position }
        ensures count { (entries : List ModelEntry) → StandsForLog self.now entries → result ≡ length entries }
    {
        self.replica.position()
    }

    /// The reply to a request that was done at a position: before the order, which is 0, or by the call there.
    pub(crate) fn reply_to(&self, request: Option<RequestId>, position: u32) -> u64
        ensures { (entries : List ModelEntry) → self.now.replies ≡ map reply_of entries
            → result ≡ reply_to (setting_of self.now).setting entries request position }
    {
        reply_to(self.catalogue.requests(), &self.replies, request, position)
    }

    /// The replica of the order's log.
    pub fn replica(&self) -> &Replica<A>
        ensures { result.now ≡ self.now.replica }
    {
        &self.replica
    }

    /// The site's tables, and what its database begins with.
    pub fn catalogue(&self) -> &Catalogue<A>
        ensures { result.now ≡ self.now.catalogue }
    {
        &self.catalogue
    }

    /// The tables with their widths, in the order in which they were told.
    pub fn table_list(&self) -> &[(u8, u16)]
        ensures { result.now ≡ self.now.table_list }
    {
        &self.table_list
    }

    /// The origin of an order that opens sessions.
    pub fn origin(&self) -> Option<Origin>
        ensures { result ≡ self.now.origin }
    {
        self.origin
    }

    /// What is known of sessions.
    pub fn sessions(&self) -> &Sessions<A>
        ensures { result.now ≡ self.now.sessions }
    {
        &self.sessions
    }

    /// Returns why a call with this request can't be taken for its session's sake.
    pub(crate) fn session_cause(&self, request: Option<RequestId>) -> Option<NothingCause>
        ensures { result ≡ session_cause (setting_of self.now).origin self.now.sessions request }
    {
        self.sessions.cause(self.origin, request)
    }

    /// Takes what the bytes at the last position came to.
    pub(crate) fn note(&mut self, bytes: &[u8], outcome: EntryOutcome) -> Result<(), AllocError>
        requires room { self.old.sessions.opened + 1 < 2 ^ 32 }
        ensures { OnOk result (self.new ≡ record self.old {
          sessions = sessions_with self.old.sessions bytes.now outcome;
        }) }
    {
        self.sessions.note(self.alloc, bytes, outcome)
    }

    /// Tells whether procedures may be added.
    pub fn takes_additions(&self) -> bool
        ensures { result ≡ self.now.takes_additions }
    {
        self.takes_additions
    }

    /// Returns the allocator that the replica's memory comes from.
    pub fn allocator(&self) -> A {
        self.alloc
    }

    /// The position at which a request was done. A request that was done before the order is at 0.
    pub fn repeated(&self, request: Option<RequestId>) -> Option<u32>
        ensures { (entries : List ModelEntry) → StandsForLog self.now entries → result
            ≡ done_at (setting_of self.now).setting.beginning.requests
            (history (setting_of self.now).setting (items_of entries)).certified request }
    {
        // Laws:
        entries_suffice();
        self.replica.repeated(request)
    }

    /// The rows at the last position, in the order of tables and keys.
    pub fn rows<B: Allocator + Copy>(&self, alloc: B) -> Result<Vec<Row<B>, B>, AllocError>
        ensures { IfOk result (λ list. (entries : List ModelEntry) → StandsForLog self.now entries → list.items
            ≡ finite.entries (rows_after (setting_of self.now).setting (items_of entries) (length entries))) }
    {
        // Laws:
        fit_entries_go_on();
        self.replica.rows(alloc)
    }
}
