//! A site.

ghost use Rattle.std.specs.Prelude.{◌≡◌, ◌+◌, ◌<◌, ◌≤◌, ◌^◌, ◌++◌, [], ◌∷◌, ℕ, List, false, length, IfOk, OnErr, IsTrue};
ghost use Rattle.std.specs.FinMap as map;
ghost use Rattle.log_model.specs.Log.{procedures_after, rows_after};
ghost use Rattle.catalogue.specs.Stored.{stored_procedures};
ghost use Rattle.site_model.specs.Order.{Order, next_outcome, order_log, sessions_after};
ghost use Rattle.schema.specs.declared.limits.TheConstants.{MAX_ARGUMENTS};
ghost use Rattle.site_model.specs.Answer.{addition_answer, call_answer, takes_memory};
ghost use Rattle.site_model.specs.declared.answer.CallAnswer.TheVariants.{Submitted};
ghost use Rattle.site_model.specs.Own.{IsAskedOf};
ghost use Rattle.site.specs.Replica.{StandsForOrder, setting_of};
ghost use Rattle.log_entry.specs.Named.{named_of};
ghost use Rattle.site.specs.Answered.{added, answered, asked_of};
ghost use Rattle.site.specs.Settings.{site_setting};

use crate::addition::add;
use crate::asked::{Asked, call};
use crate::sessions::Sessions;
use crate::settings::SiteSettings;
use crate::state::SiteReplica;
use crate::take::take;
use catalogue::StoredProcedures;
use log_entry::{Entry, NamedProgram};
use log_model::entries_suffice;
use replica::At;
use row_sets::Row;
use site_model::{
    AdditionAnswer, CallAnswer, EntryOutcome, Origin, fit_entries_go_on, orders_grow,
    sessions_go_on,
};
use std::alloc::{AllocError, Allocator, Global};
use std::marker::Model;
use txn_view::Store;

/// A site: it takes in the byte strings of an order, one after the other. Contracts see its replica.
#[derive(Drop)]
pub struct Site<A: Allocator + Copy = Global> {
    replica: SiteReplica<A>,
}

impl<A: Allocator + Copy> Model for Site<A> {
    ghost use Rattle.site_model.specs.Order.{Order};
    ghost use Rattle.site.specs.Replica.{SiteReplica, StandsForOrder, site_code};

    ghost Value = { SiteReplica };

    ghost coded = { site_code };

    ghost view = { λ s. s.replica };

    ghost invariant = { λ s. (order : Order) × StandsForOrder s.replica order };
}

impl<A: Allocator + Copy> Site<A> {
    /// Makes a site that was given nothing. A call is stale where more byte strings than the window came since its
    /// snapshot. An order with an origin opens sessions.
    pub fn new(alloc: A, settings: SiteSettings<A>) -> Result<Site<A>, AllocError>
        ensures stands { IfOk result (λ s. StandsForOrder s []) }
        ensures setting { IfOk result (λ s. setting_of s ≡ site_setting settings) }
    {
        // Laws:
        orders_grow();
        sessions_go_on();
        let replica = SiteReplica::new(alloc, settings)?;
        Ok(Site { replica })
    }

    /// Returns the number of byte strings that were taken in.
    pub fn position(&self) -> u32
        ensures position { result ≡ self.now.replica.position }
        ensures count { (order : Order) → StandsForOrder self.now order → result ≡ length order }
    {
        // Laws:
        orders_grow();
        self.replica.position()
    }

    /// Takes in the byte string at the next position, and returns its outcome. A call is taken only where its run on
    /// the rows of its snapshot gives these very bytes. A byte string that is nothing takes a position too. The site is
    /// dropped where there is no memory.
    pub fn take(self, bytes: &[u8]) -> Result<(Site<A>, EntryOutcome), AllocError>
        requires room { self.replica.position + 1 < 2 ^ 32 }
        ensures outcome { IfOk result (λ taken. (order : Order) → StandsForOrder self order
            → taken.1 ≡ next_outcome (setting_of self) order bytes.now) }
        ensures stands { IfOk result (λ taken. (order : Order) → StandsForOrder self order
            → StandsForOrder taken.0 (order ++ bytes.now ∷ [])) }
        ensures setting { IfOk result (λ taken. setting_of taken.0 ≡ setting_of self) }
    {
        // Laws:
        orders_grow();
        sessions_go_on();
        let Site { mut replica } = self;
        let outcome = take(&mut replica, bytes)?;
        replica.note(bytes, outcome)?;
        Ok((Site { replica }, outcome))
    }

    /// What came before the order, where the order opens sessions.
    pub fn origin(&self) -> Option<Origin>
        ensures { result ≡ (setting_of self.now).origin }
    {
        self.replica.origin()
    }

    /// The sessions that the order opened, and the last request of each session, in the order or before.
    pub fn sessions(&self) -> &Sessions<A>
        ensures { (order : Order) → StandsForOrder self.now order
            → result.now ≡ sessions_after (setting_of self.now) order }
    {
        self.replica.sessions()
    }

    /// The number of byte strings behind which a call's snapshot is too old.
    pub fn window(&self) -> u32
        ensures { result ≡ (setting_of self.now).setting.window }
    {
        self.replica.replica().window()
    }

    /// The tables with their widths, in the order in which they were told.
    pub fn table_list(&self) -> &[(u8, u16)]
        ensures { result.now ≡ (setting_of self.now).table_list }
    {
        self.replica.table_list()
    }

    /// Tells whether procedures may be added.
    pub fn takes_additions(&self) -> bool
        ensures { result ≡ (setting_of self.now).takes_additions }
    {
        self.replica.takes_additions()
    }

    /// The procedures at the last position, in order of entry.
    pub fn procedures(&self) -> &StoredProcedures<A>
        ensures { (order : Order) → StandsForOrder self.now order → stored_procedures result.now
            ≡ procedures_after (setting_of self.now).setting (order_log (setting_of self.now) order) (length order) }
    {
        // Laws:
        entries_suffice();
        orders_grow();
        self.replica.replica().procedures()
    }

    /// The rows at the last position, in the order of tables and keys.
    pub fn rows<B: Allocator + Copy>(&self, alloc: B) -> Result<Vec<Row<B>, B>, AllocError>
        ensures { IfOk result (λ list. (order : Order) → StandsForOrder self.now order → list.items
            ≡ map.entries (rows_after (setting_of self.now).setting (order_log (setting_of self.now) order)
            (length order))) }
    {
        // Laws:
        orders_grow();
        self.replica.rows(alloc)
    }

    /// Tells whether there is a table of this number.
    pub fn has_table(&self, table: u8) -> bool
        ensures { result ≡ map.contains_key (setting_of self.now).setting.tables table }
    {
        self.replica.catalogue().schema().width(table).is_some()
    }

    /// The rows at the last position, for look-ups of single rows.
    pub fn last_rows<'a>(&'a self) -> At<'a, A>
        ensures answers { (order : Order) → StandsForOrder self.now order
            → ⟦<At<'a, A> as Store>⟧.answers_from result (rows_after (setting_of self.now).setting
            (order_log (setting_of self.now) order) (length order)) }
        ensures kept { ⟦<At<'a, A> as Store>⟧.is_gone result ≡ false }
    {
        // Laws:
        orders_grow();
        fit_entries_go_on();
        let replica = self.replica.replica();
        replica.at(replica.position())
    }

    /// Runs a call whole on the rows at the last position, and returns the answer. Changes nothing. Only a run takes
    /// memory.
    pub fn call(&self, asked: Asked<'_>) -> Result<CallAnswer<Entry<A>>, AllocError>
        ensures answer { IfOk result (λ answer. (order : Order) → StandsForOrder self.now order
            → answered answer ≡ call_answer (setting_of self.now) order (asked_of asked.entry)) }
        ensures fits { IfOk result (λ answer. (order : Order) (bytes : List ℕ) → StandsForOrder self.now order
            → answered answer ≡ Submitted bytes → IsAskedOf (setting_of self.now) order (asked_of asked.entry)) }
        ensures memory { OnErr result ((order : Order) → StandsForOrder self.now order
            → IsTrue (takes_memory (call_answer (setting_of self.now) order (asked_of asked.entry)))) }
    {
        call(&self.replica, asked)
    }

    /// Checks a procedure that is to be added. Returns what is to be ordered, or the cause for which the procedure
    /// can't be added. Changes nothing.
    pub fn add(&self, named: NamedProgram<'_>) -> Result<AdditionAnswer<Entry<A>>, AllocError>
        requires { named.args_len ≤ MAX_ARGUMENTS }
        ensures { IfOk result (λ answer. added answer
            ≡ addition_answer (setting_of self.now) (named_of named.entry)) }
    {
        add(&self.replica, named)
    }
}
