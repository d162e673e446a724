//! The versions of a key.

ghost use Rattle.std.specs.Prelude.{◌≡◌, ◌==◌, ◌++◌, [], ◌∷◌, length, OnOk, IfOk, IfSome};
ghost use Rattle.std.specs.Option.{option_copied};
ghost use Rattle.row_chain.specs.Version.{row_up_to, needed_versions, HasRoom};
ghost use Rattle.row_chain.specs.Lone.{versions_of_lone, IsFit};
ghost use Rattle.row_chain.specs.Pair.{versions_of_pair, IsPair};
ghost use Rattle.row_chain.specs.Layout.{chain_of, IsLaidOut};

use crate::lone::{Lone, NARROW_WIDTH};
use crate::pair::Pair;
use crate::run::Run;
use std::alloc::{AllocError, Allocator, Global};
use std::marker::Model;

/// The versions of one key's row, oldest first; each row has the same width. The only version of a narrow row lies
/// inside, and takes no memory of its own; two of them lie in a pair, and others in a run.
#[derive(Drop)]
pub struct Chain<A: Allocator = Global> {
    layout: Layout<A>,
}

/// The layout of the versions.
#[derive(Drop)]
enum Layout<A: Allocator> {
    /// The only version, or no version yet.
    Inside(Lone),
    /// Two versions, or one and room for another.
    Two(Box<Pair, A>),
    /// Any number of versions.
    Many(Box<Run<A>, A>),
}

impl<A: Allocator> Model for Chain<A> {
    ghost use Rattle.row_chain.specs.Version.{ChainState};

    ghost Value = { ChainState };

    ghost use Rattle.row_chain.specs.Layout.{chain_of, IsLaidOut};

    ghost view = { λ c. chain_of c.layout };

    ghost invariant = { λ c. IsLaidOut c.layout };
}

impl<A: Allocator> Chain<A> {
    /// A chain without versions.
    pub fn new(width: u16) -> Chain<A>
        ensures versions { result.versions ≡ [] }
        ensures width { result.width ≡ width }
    {
        Chain {
            layout: Layout::Inside(Lone::new(width)),
        }
    }

    /// Tells whether the chain has no version.
    pub fn is_empty(&self) -> bool
        ensures { result ≡ (length self.now.versions == 0) }
    {
        match &self.layout {
            Layout::Inside(lone) => !lone.is_written(),
            Layout::Two(_) => false,
            Layout::Many(run) => run.is_empty(),
        }
    }

    /// The row at a position.
    pub fn at(&self, position: u32) -> Option<&[u8]>
        ensures { option_copied result ≡ row_up_to position self.now.versions }
    {
        match &self.layout {
            Layout::Inside(lone) => lone.at(position),
            Layout::Two(pair) => pair.at(position),
            Layout::Many(run) => run.at(position),
        }
    }
}

/// Returns the version that lies inside, in memory of its own, with room for one more. A version comes into a pair; a
/// wide row without a version gets a run.
fn outside<A: Allocator + Copy>(alloc: A, lone: &Lone) -> Result<Layout<A>, AllocError>
    requires { IsFit lone.now }
    ensures versions { IfOk result (λ l. (chain_of l).versions ≡ versions_of_lone lone.now) }
    ensures width { IfOk result (λ l. (chain_of l).width ≡ lone.now.width) }
    ensures room { IfOk result (λ l. HasRoom (chain_of l)) }
    ensures laid_out { IfOk result IsLaidOut }
{
    if lone.is_written() {
        return Ok(Layout::Two(Box::new(alloc, Pair::of(*lone))?));
    }
    Ok(Layout::Many(Box::new(alloc, first_run(alloc, lone.width)?)?))
}

/// A run without versions, with room for one.
fn first_run<A: Allocator + Copy>(alloc: A, width: u16) -> Result<Run<A>, AllocError>
    ensures versions { IfOk result (λ r. r.versions ≡ []) }
    ensures width { IfOk result (λ r. r.width ≡ width) }
    ensures room { IfOk result (λ r. HasRoom r) }
{
    let mut run = Run::new(alloc, width, 1)?;
    run.reserve()?;
    Ok(run)
}

/// Adds the version of a narrow row, where there is one.
fn push_lone<A: Allocator + Copy>(run: &mut Run<A>, lone: &Lone) -> Result<(), AllocError>
    requires fit { IsFit lone.now }
    requires width { lone.now.width ≡ run.old.width }
    ensures versions { OnOk result (run.new.versions ≡ run.old.versions ++ versions_of_lone lone.now) }
    ensures width { run.new.width ≡ run.old.width }
{
    if let Some(position) = lone.position() {
        run.reserve()?;
        run.push(position, lone.at(u32::MAX));
    }
    Ok(())
}

/// A run of the versions of a pair, with room for one more.
fn run_of<A: Allocator + Copy>(alloc: A, pair: &Pair) -> Result<Run<A>, AllocError>
    requires { IsPair pair.now }
    ensures versions { IfOk result (λ r. r.versions ≡ versions_of_pair pair.now) }
    ensures width { IfOk result (λ r. r.width ≡ pair.now.first.width) }
    ensures room { IfOk result (λ r. HasRoom r) }
{
    let mut run = Run::new(alloc, pair.first.width, 3)?;
    push_lone(&mut run, &pair.first)?;
    push_lone(&mut run, &pair.second)?;
    run.reserve()?;
    Ok(run)
}

impl<A: Allocator + Copy> Chain<A> {
    /// Makes room for one more version. After want of memory nothing has changed but the room.
    pub fn reserve(&mut self, alloc: A) -> Result<(), AllocError>
        ensures versions { self.new.versions ≡ self.old.versions }
        ensures width { self.new.width ≡ self.old.width }
        ensures room { OnOk result (HasRoom self.new) }
        ensures more { HasRoom self.old → HasRoom self.new }
    {
        match &self.layout {
            Layout::Inside(lone) => {
                if !lone.has_place() {
                    self.layout = outside(alloc, lone)?;
                }
                return Ok(());
            }
            Layout::Two(pair) => {
                if !pair.second.has_place() {
                    let run = run_of(alloc, pair)?;
                    self.layout = Layout::Many(Box::new(alloc, run)?);
                }
                return Ok(());
            }
            Layout::Many(_) => {}
        }
        if let Layout::Many(run) = &mut self.layout {
            run.reserve()?;
        }
        Ok(())
    }
}

impl<A: Allocator> Chain<A> {
    /// Adds a version, the newest. Takes no memory.
    pub fn push(&mut self, position: u32, row: Option<&[u8]>)
        requires room { HasRoom self.old }
        requires width { IfSome row (λ r. length r.now ≡ self.old.width) }
        ensures versions { self.new.versions
            ≡ self.old.versions ++ record { position = position; row = option_copied row.entry } ∷ [] }
        ensures width { self.new.width ≡ self.old.width }
    {
        match &mut self.layout {
            Layout::Inside(lone) => *lone = Lone::of(lone.width, position, row),
            Layout::Two(pair) => pair.push(position, row),
            Layout::Many(run) => run.push(position, row),
        }
    }

    /// Drops the versions that no position from the horizon on sees.
    pub fn prune(&mut self, horizon: u32)
        ensures versions { self.new.versions ≡ needed_versions horizon self.old.versions }
        ensures width { self.new.width ≡ self.old.width }
    {
        match &self.layout {
            Layout::Inside(lone) => {
                self.layout = Layout::Inside(lone.pruned(horizon));
                return;
            }
            Layout::Two(pair) => {
                if let Some(lone) = pair.pruned(horizon) {
                    self.layout = Layout::Inside(lone);
                }
                return;
            }
            Layout::Many(_) => {}
        }
        if let Layout::Many(run) = &mut self.layout {
            if let Some(lone) = run.prune_to(horizon) {
                self.layout = Layout::Inside(lone);
            }
        }
    }
}
