//! The certifications of the delivered entries, in blocks.

ghost use Rattle.std.specs.Prelude.{◌≡◌, ◌<◌, ◌++◌, [], ◌∷◌, length, slice_get, slice_index_or, vec_len};
ghost use Rattle.std.specs.Prelude.{vec_capacity, Some, OnOk};
ghost use Rattle.certify.specs.declared.certification.Certification.{Certification};
ghost use Rattle.certify.specs.Blocks.{all_of, AreFull};

use crate::certification::Certification;
use std::alloc::{AllocError, Allocator, Global};
use std::marker::Model;
use std::mem;

/// The number of certifications in a block.
const BLOCK: usize = 1024;

/// The certifications of one block.
#[derive(Drop)]
struct Block<A: Allocator = Global> {
    certifications: Vec<Certification, A>,
}

impl<A: Allocator> Model for Block<A> {
    ghost use Rattle.std.specs.Prelude.{List};
    ghost use Rattle.certify.specs.declared.certification.Certification.{Certification};

    ghost Value = { List Certification };

    ghost view = { λ b. b.certifications.items };
}

/// The certifications of all entries in order. They stand in blocks, so that one more never moves all the others.
/// Contracts see the certifications, and the number of those for which there is room.
#[derive(Drop)]
pub struct Certifications<A: Allocator + Copy = Global> {
    alloc: A,
    full: Vec<Block<A>, A>,
    last: Vec<Certification, A>,
}

impl<A: Allocator + Copy> Model for Certifications<A> {
    ghost use Rattle.std.specs.Prelude.{◌≡◌, ◌++◌, ◌-◌, All, length, vec_len, vec_capacity};
    ghost use Rattle.certify.specs.Blocks.{Certifications, all_of, AreFull};

    ghost Value = { Certifications };

    ghost view = { λ c. record {
      items = all_of c.full.items ++ c.last.items;
      room = vec_capacity c.last - vec_len c.last;
    } };

    ghost invariant = { λ c. AreFull c.full.items };
}

/// The certification at a place.
fn at_place(certifications: &[Certification], place: usize) -> Certification
    requires { place < length certifications.now }
    ensures { (d : Certification) → result ≡ slice_index_or certifications.now place d }
{
    certifications[place]
}

impl<A: Allocator> Block<A> {
    /// The certification at a place.
    fn at(&self, place: usize) -> Certification
        requires { place < length self.now }
        ensures { (d : Certification) → result ≡ slice_index_or self.now place d }
    {
        at_place(&self.certifications, place)
    }
}

/// Moves all certifications of a vector to a block.
fn take_all<A: Allocator>(alloc: A, certifications: &mut Vec<Certification, A>) -> Block<A>
    ensures taken { result ≡ certifications.old.items }
    ensures none { certifications.new.items ≡ [] }
{
    let certifications = mem::replace(certifications, Vec::new(alloc));
    Block { certifications }
}

/// Puts a block behind others where there is room for it.
fn push_block<A: Allocator>(blocks: &mut Vec<Block<A>, A>, block: Block<A>)
    requires { vec_len blocks.old < vec_capacity blocks.old }
    ensures { blocks.new.items ≡ blocks.old.items ++ block ∷ [] }
{
    let pushed = blocks.push(block);
    prove!(pushed.is_ok());
}

/// Puts the last block among the full blocks where it is full, so that an empty block is last.
fn begin_block<A: Allocator + Copy>(
    alloc: A,
    full: &mut Vec<Block<A>, A>,
    last: &mut Vec<Certification, A>,
) -> Result<(), AllocError>
    ensures items { all_of full.new.items ++ last.new.items ≡ all_of full.old.items ++ last.old.items }
    ensures full { AreFull full.old.items → AreFull full.new.items }
{
    if last.len() != BLOCK {
        return Ok(());
    }
    full.reserve(1)?;
    push_block(full, take_all(alloc, last));
    Ok(())
}

/// The certification that has `before` others before it, in full blocks and in the last.
fn at_block_or_last<A: Allocator>(
    full: &[Block<A>],
    last: &[Certification],
    before: usize,
) -> Certification
    requires full { AreFull full.now }
    requires before { before < length (all_of full.now ++ last.now) }
    ensures place { (d : Certification) → result ≡ slice_index_or (all_of full.now ++ last.now) before d }
    ensures found { slice_get (all_of full.now ++ last.now) before ≡ Some result }
{
    if before / BLOCK < full.len() {
        return full[before / BLOCK].at(before % BLOCK);
    }
    at_place(last, before - full.len() * BLOCK)
}

impl<A: Allocator + Copy> Certifications<A> {
    /// Returns an empty list of certifications. Takes no memory.
    pub fn new(alloc: A) -> Certifications<A>
        ensures { result.items ≡ [] }
    {
        Certifications {
            alloc,
            full: Vec::new(alloc),
            last: Vec::new(alloc),
        }
    }

    /// Makes room for one more certification.
    pub fn reserve(&mut self) -> Result<(), AllocError>
        ensures items { self.new.items ≡ self.old.items }
        ensures room { OnOk result (0 < self.new.room) }
    {
        begin_block(self.alloc, &mut self.full, &mut self.last)?;
        self.last.reserve(1)?;
        Ok(())
    }

    /// Adds a certification, for which room was made. Takes no memory.
    pub fn push(&mut self, certification: Certification)
        requires { 0 < self.old.room }
        ensures { self.new.items ≡ self.old.items ++ certification ∷ [] }
    {
        let pushed = self.last.push(certification);
        prove!(pushed.is_ok());
    }

    /// The certification of the entry that has `before` others before it.
    pub fn at(&self, before: usize) -> Certification
        requires { before < length self.now.items }
        ensures place { (d : Certification) → result ≡ slice_index_or self.now.items before d }
        ensures found { slice_get self.now.items before ≡ Some result }
    {
        at_block_or_last(&self.full, &self.last, before)
    }
}
