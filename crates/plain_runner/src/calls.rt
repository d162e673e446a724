//! The actions of the helpers, as the definitions say them.

ghost use Rattle.std.specs.Prelude.{◌≡◌, ◌∷◌, ◌++◌, replicate, drop, IfOk, option_map, Some, None};
ghost use Rattle.bpf_semantics.specs.declared.value.Value.TheVariants.{Nothing, Number};
ghost use Rattle.schema.specs.Schema.{Tables};
ghost use Rattle.schema.specs.Helper.{helper_of};
ghost use Rattle.bpf_semantics.specs.Memory.{and_then};
ghost use Rattle.schema.specs.declared.helper.Helper.TheVariants.{RowGet, RowPut, RowDelete, RangeCount, RangeNext};
ghost use Rattle.schema.specs.declared.helper.Helper.TheVariants.{Cancel};
ghost use Rattle.bpf_semantics.specs.Helpers.{table_of, with_answer, with_look, with_point_look, with_range_look};
ghost use Rattle.bpf_semantics.specs.Helpers.{with_row_write, with_row_read, with_next_read, row_get, row_put};
ghost use Rattle.bpf_semantics.specs.Helpers.{range_next, state_after_call};
ghost use Rattle.schema.specs.Rows.{row_at, first_in};
ghost use Rattle.plain_runner.specs.State.{state_of};

use crate::memory::{buffer_of, known_bytes, stack_with};
use crate::state::State;
use crate::value::number;
use bpf_code::Register;
use bpf_semantics::Value;
use row_sets::Bytes;
use schema::{Helper, Look, Schema};
use std::alloc::{AllocError, Allocator};

/// A table of the schema and its width.
#[tactic(auto, unfolding(bpf_semantics::specs::Memory::and_then))]
fn table_of<B: Allocator>(schema: &Schema<B>, value: Value) -> Option<(u8, usize)>
    ensures { option_map (λ t. record { table = t.0; width = t.1 }) result ≡ table_of schema.now value }
{
    match value {
        Value::Number(number) => {
            schema.known();
            let table = u8::try_from(number).ok()?;
            let width = schema.width(table)?;
            Some((table, usize::from(width)))
        }
        Value::Nothing | Value::Stack(_) | Value::Args(_) => None,
    }
}

/// The registers after a call: r0 has the answer, r1 to r5 nothing, and the others stay.
fn registers_after_call(registers: &[Value; 11], answer: u64) -> [Value; 11]
    ensures { result ≡ Number answer ∷ (replicate 5 Nothing ++ drop 6 registers.now) }
{
    let [_, _, _, _, _, _, six, seven, eight, nine, ten] = *registers;
    let nothing = Value::Nothing;
    let answer = Value::Number(answer);
    [
        answer, nothing, nothing, nothing, nothing, nothing, six, seven, eight, nine, ten,
    ]
}

#[tactic(auto, unfolding(bpf_semantics::specs::Helpers::state_after_call, bpf_semantics::specs::Memory::and_then))]
impl<A: Allocator + Copy> State<A> {
    /// r0 gets the answer, and r1 to r5 nothing.
    fn with_answer(mut self, answer: u64) -> State<A>
        ensures { state_of result ≡ with_answer answer (state_of self) }
    {
        self.registers = registers_after_call(&self.registers, answer);
        self
    }

    fn with_look(mut self, look: Look) -> Result<State<A>, AllocError>
        ensures { IfOk result (λ s. state_of s ≡ with_look look (state_of self)) }
    {
        self.looks.push(look)?;
        Ok(self)
    }

    /// A get looks at its key, unless the run put or removed it before.
    fn with_point_look(self, table: u8, key: u64) -> Result<State<A>, AllocError>
        ensures { IfOk result (λ s. state_of s ≡ with_point_look table key (state_of self)) }
    {
        if self.writes.get(table, key).is_some() {
            return Ok(self);
        }
        self.with_look(Look {
            table,
            lo: key,
            hi: key,
        })
    }

    /// A range looks from lo to the last key that its answer depends on.
    fn with_range_look(self, table: u8, lo: u64, hi: u64, last: u64) -> Result<State<A>, AllocError>
        ensures { IfOk result (λ s. state_of s ≡ with_range_look table lo hi last (state_of self)) }
    {
        if lo > hi {
            return Ok(self);
        }
        self.with_look(Look {
            table,
            lo,
            hi: last,
        })
    }

    /// Gets a row.
    fn row_get<B: Allocator>(
        self,
        alloc: A,
        schema: &Schema<B>,
    ) -> Result<Option<State<A>>, AllocError>
        ensures { IfOk result (λ s. option_map state_of s ≡ state_after_call schema.now RowGet (state_of self)) }
    {
        let Some((table, width)) = table_of(schema, self.register(Register::R1)) else {
            return Ok(None);
        };
        let Some(key) = number(self.register(Register::R2)) else {
            return Ok(None);
        };
        let to = self.register(Register::R3);
        self.row_read(alloc, table, width, key, to)
    }

    /// The buffer gets a row of this width, or zeros.
    #[tactic(auto, unfolding(bpf_semantics::specs::Helpers::row_get, bpf_semantics::specs::Memory::and_then))]
    fn row_read(
        self,
        alloc: A,
        table: u8,
        width: usize,
        key: u64,
        to: Value,
    ) -> Result<Option<State<A>>, AllocError>
        ensures { IfOk result (λ s. option_map state_of s
            ≡ row_get (state_of self) (record { table = table; width = width }) key to) }
    {
        let Some(buffer) = buffer_of(to, width) else {
            return Ok(None);
        };
        let read = self.with_row_read(alloc, table, width, key, buffer)?;
        Ok(Some(read))
    }

    /// The bytes of the stack from an index on become the row, or zeros.
    fn with_row_read(
        mut self,
        alloc: A,
        table: u8,
        width: usize,
        key: u64,
        buffer: usize,
    ) -> Result<State<A>, AllocError>
        ensures { IfOk result (λ s. state_of s ≡ with_row_read (state_of self)
            (record { table = table; width = width }) key buffer (row_at (state_of self).rows table key)) }
    {
        let (answer, row) = match self.rows.get(table, key) {
            Some(row) => (1, Vec::from_slice(alloc, row.as_slice())?),
            None => (0, vec![in alloc; 0; width]?),
        };
        self.stack = stack_with(alloc, &self.stack, buffer, &row)?;
        let looked = self.with_point_look(table, key)?;
        Ok(looked.with_answer(answer))
    }

    /// The row becomes these bytes.
    fn with_put(
        mut self,
        alloc: A,
        table: u8,
        key: u64,
        bytes: Vec<u8, A>,
    ) -> Result<State<A>, AllocError>
        ensures { IfOk result (λ s.
            state_of s ≡ with_row_write table key (Some bytes.items) (state_of self)) }
    {
        let copy = Vec::from_slice(alloc, &bytes)?;
        self.rows.insert(table, key, Bytes::new(bytes))?;
        self.writes.insert(table, key, Some(Bytes::new(copy)))?;
        Ok(self)
    }

    /// The row is removed.
    fn with_removal(mut self, table: u8, key: u64) -> Result<State<A>, AllocError>
        ensures { IfOk result (λ s. state_of s ≡ with_row_write table key None (state_of self)) }
    {
        self.rows.remove(table, key);
        self.writes.insert(table, key, None)?;
        Ok(self)
    }

    /// Puts a row.
    fn row_put<B: Allocator>(
        self,
        alloc: A,
        schema: &Schema<B>,
    ) -> Result<Option<State<A>>, AllocError>
        ensures { IfOk result (λ s. option_map state_of s ≡ state_after_call schema.now RowPut (state_of self)) }
    {
        let Some((table, width)) = table_of(schema, self.register(Register::R1)) else {
            return Ok(None);
        };
        let Some(key) = number(self.register(Register::R2)) else {
            return Ok(None);
        };
        let from = self.register(Register::R3);
        self.row_written(alloc, table, width, key, from)
    }

    /// The row becomes the bytes of a buffer of this width.
    #[tactic(auto, unfolding(bpf_semantics::specs::Helpers::row_put, bpf_semantics::specs::Memory::and_then))]
    fn row_written(
        self,
        alloc: A,
        table: u8,
        width: usize,
        key: u64,
        from: Value,
    ) -> Result<Option<State<A>>, AllocError>
        ensures { IfOk result (λ s. option_map state_of s
            ≡ row_put (state_of self) (record { table = table; width = width }) key from) }
    {
        let Some(buffer) = buffer_of(from, width) else {
            return Ok(None);
        };
        let Some(bytes) = known_bytes(alloc, &self.stack, buffer, width)? else {
            return Ok(None);
        };
        let written = self.with_put(alloc, table, key, bytes)?;
        Ok(Some(written.with_answer(0)))
    }

    /// Removes a row.
    fn row_delete<B: Allocator>(self, schema: &Schema<B>) -> Result<Option<State<A>>, AllocError>
        ensures { IfOk result (λ s.
            option_map state_of s ≡ state_after_call schema.now RowDelete (state_of self)) }
    {
        let Some((table, _)) = table_of(schema, self.register(Register::R1)) else {
            return Ok(None);
        };
        let Some(key) = number(self.register(Register::R2)) else {
            return Ok(None);
        };
        let written = self.with_removal(table, key)?;
        Ok(Some(written.with_answer(0)))
    }

    /// Counts the rows of an interval.
    fn range_count<B: Allocator>(self, schema: &Schema<B>) -> Result<Option<State<A>>, AllocError>
        ensures { IfOk result (λ s.
            option_map state_of s ≡ state_after_call schema.now RangeCount (state_of self)) }
    {
        let Some((table, _)) = table_of(schema, self.register(Register::R1)) else {
            return Ok(None);
        };
        let Some(lo) = number(self.register(Register::R2)) else {
            return Ok(None);
        };
        let Some(hi) = number(self.register(Register::R3)) else {
            return Ok(None);
        };
        let count = self.rows.count(Look { table, lo, hi });
        let looked = self.with_range_look(table, lo, hi, hi)?;
        Ok(Some(looked.with_answer(count as u64)))
    }

    /// Finds the row of the least key of an interval.
    fn range_next<B: Allocator>(
        self,
        alloc: A,
        schema: &Schema<B>,
    ) -> Result<Option<State<A>>, AllocError>
        ensures { IfOk result (λ s.
            option_map state_of s ≡ state_after_call schema.now RangeNext (state_of self)) }
    {
        let Some((table, width)) = table_of(schema, self.register(Register::R1)) else {
            return Ok(None);
        };
        let Some(lo) = number(self.register(Register::R2)) else {
            return Ok(None);
        };
        let Some(hi) = number(self.register(Register::R3)) else {
            return Ok(None);
        };
        let key_to = self.register(Register::R4);
        let row_to = self.register(Register::R5);
        self.first_read(alloc, Look { table, lo, hi }, width, key_to, row_to)
    }

    /// The buffers get the least key that a look covers, and its row of this width, or zeros.
    #[tactic(auto, unfolding(bpf_semantics::specs::Helpers::range_next, bpf_semantics::specs::Memory::and_then))]
    fn first_read(
        self,
        alloc: A,
        look: Look,
        width: usize,
        key_to: Value,
        row_to: Value,
    ) -> Result<Option<State<A>>, AllocError>
        ensures { IfOk result (λ s. option_map state_of s
            ≡ range_next (state_of self) (record { table = look.table; width = width })
            look.lo look.hi key_to row_to) }
    {
        let Some(key_buffer) = buffer_of(key_to, 8) else {
            return Ok(None);
        };
        let Some(row_buffer) = buffer_of(row_to, width) else {
            return Ok(None);
        };
        let read = self.with_next_read(alloc, look, width, key_buffer, row_buffer)?;
        Ok(Some(read))
    }

    /// The bytes of the stack from two indices on become the least key that a look covers, and its row.
    fn with_next_read(
        mut self,
        alloc: A,
        look: Look,
        width: usize,
        key_buffer: usize,
        row_buffer: usize,
    ) -> Result<State<A>, AllocError>
        ensures { IfOk result (λ s. state_of s ≡ with_next_read (state_of self)
            (record { table = look.table; width = width }) look.lo look.hi key_buffer row_buffer
            (first_in look (state_of self).rows)) }
    {
        let Look { table, lo, hi } = look;
        let (answer, last, key, row) = match self.rows.first(look) {
            Some((key, row)) => (1, key.1, key.1, Vec::from_slice(alloc, row.as_slice())?),
            None => (0, hi, 0, vec![in alloc; 0; width]?),
        };
        self.stack = stack_with(alloc, &self.stack, key_buffer, &key.to_le_bytes())?;
        self.stack = stack_with(alloc, &self.stack, row_buffer, &row)?;
        let looked = self.with_range_look(table, lo, hi, last)?;
        Ok(looked.with_answer(answer))
    }

    /// Has the writes dropped at the end.
    fn cancel(mut self) -> Option<State<A>>
        ensures { (tables : Tables) → option_map state_of result ≡ state_after_call tables Cancel (state_of self) }
    {
        let code = number(self.register(Register::R1))?;
        self.cancel_code = Some(code);
        Some(self.with_answer(0))
    }

    /// The state after a call; none where it can't be made.
    #[tactic(auto)]
    pub fn state_after_call<B: Allocator>(
        self,
        alloc: A,
        schema: &Schema<B>,
        helper: Helper,
    ) -> Result<Option<State<A>>, AllocError>
        ensures { IfOk result (λ s. option_map state_of s ≡ state_after_call schema.now helper (state_of self)) }
    {
        match helper {
            Helper::RowGet => self.row_get(alloc, schema),
            Helper::RowPut => self.row_put(alloc, schema),
            Helper::RowDelete => self.row_delete(schema),
            Helper::RangeCount => self.range_count(schema),
            Helper::RangeNext => self.range_next(alloc, schema),
            Helper::Cancel => Ok(self.cancel()),
        }
    }

    /// The state after a call by the helper's number; none where it can't be made.
    #[tactic(auto, unfolding(bpf_semantics::specs::Memory::and_then))]
    pub fn called_by_number<B: Allocator>(
        self,
        alloc: A,
        schema: &Schema<B>,
        number: i32,
    ) -> Result<Option<State<A>>, AllocError>
        ensures { IfOk result (λ s. option_map state_of s
            ≡ and_then (helper_of number) (λ h. state_after_call schema.now h (state_of self))) }
    {
        match Helper::from_number(number) {
            Some(helper) => self.state_after_call(alloc, schema, helper),
            None => Ok(None),
        }
    }
}
