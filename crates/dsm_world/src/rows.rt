//! The rows of a replica, in words of the log.

ghost use Rattle.std.specs.Prelude.{◌≡◌, ◌↔◌, ◌-◌, ◌≤◌, nat_lt, IfOk, IfSome, IsSome, Some};
ghost use Rattle.std.specs.FinMap.{entries};
ghost use Rattle.log_model.specs.Log.{rows_after};
ghost use Rattle.dsm_model.specs.World.{Replica as ModelReplica, numbered};
ghost use Rattle.dsm_world.specs.System.{setting_of, world_of};

use crate::world::World;
use log_model::entries_suffice;
use replica::At;
use row_sets::Row;
use std::alloc::{AllocError, Allocator, Global};
use txn_view::Store;

/// The rows after a position, in the order of tables and keys.
#[derive(Drop)]
pub struct ListedRows<B: Allocator + Copy = Global> {
    pub position: u32,
    pub rows: Vec<Row<B>, B>,
}

impl<A: Allocator + Copy> World<A> {
    /// The rows of a replica, by its number, after the position to which it has come; none where there is no such
    /// replica.
    pub fn rows<B: Allocator + Copy>(
        &self,
        alloc: B,
        replica: u32,
    ) -> Result<Option<ListedRows<B>>, AllocError>
        ensures there { IfOk result (λ found. IsSome found ↔ IsSome (numbered (world_of self.now).replicas replica)) }
        ensures position { IfOk result (λ found. IfSome found (λ listed. (r : ModelReplica)
            → numbered (world_of self.now).replicas replica ≡ Some r → listed.position ≡ r.position)) }
        ensures rows { IfOk result (λ found. IfSome found (λ listed.
            listed.rows.items ≡ entries (rows_after (setting_of self.now) (world_of self.now).log listed.position))) }
    {
        // Laws:
        entries_suffice();
        self.keeps_what_was_delivered();
        let Some(kept) = self.replica(replica) else {
            return Ok(None);
        };
        let rows = kept.rows(alloc)?;
        Ok(Some(ListedRows {
            position: kept.position(),
            rows,
        }))
    }

    /// The rows of a replica, by its number, after a position; none where there is no such replica, or it hasn't come
    /// so far. The rows are gone where more entries than the window were delivered to the replica since.
    pub fn at<'a>(&'a self, replica: u32, position: u32) -> Option<At<'a, A>>
        ensures there { IsSome result → IsSome (numbered (world_of self.now).replicas replica) }
        ensures reached { (r : ModelReplica) → numbered (world_of self.now).replicas replica ≡ Some r
            → IsSome result ↔ (position ≤ r.position) }
        ensures rows { IfSome result (λ at. ⟦<At<'a, A> as Store>⟧.answers_from at
            (rows_after (setting_of self.now) (world_of self.now).log position)) }
        ensures gone { IfSome result (λ at. (r : ModelReplica) → numbered (world_of self.now).replicas replica ≡ Some r
            → ⟦<At<'a, A> as Store>⟧.is_gone at ≡ nat_lt self.now.window (r.position - position)) }
    {
        // Laws:
        entries_suffice();
        self.keeps_what_was_delivered();
        let kept = self.replica(replica)?;
        if kept.position() < position {
            return None;
        }
        Some(kept.at(position))
    }
}
