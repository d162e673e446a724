//! The tally of the programs, so that a comparison of nothing doesn't pass.

use super::generator::Program;
use plain_runner::CompletedRun;
use std::alloc::Global;
use std::collections::BTreeSet;
use std::process::Abort;

/// The numbers of programs of whose runs something came, and what stands in any program.
#[derive(Drop)]
pub(super) struct Tally {
    looks: u32,
    puts: u32,
    removals: u32,
    cancels: u32,
    /// The helpers that were called, by the bits of their numbers.
    helpers: u8,
    /// The first bytes of slots.
    opcodes: BTreeSet<u8>,
    programs: BTreeSet<Vec<u8>>,
}

impl Tally {
    pub(super) fn new(alloc: Global) -> Tally {
        Tally {
            looks: 0,
            puts: 0,
            removals: 0,
            cancels: 0,
            helpers: 0,
            opcodes: BTreeSet::new(alloc),
            programs: BTreeSet::new(alloc),
        }
    }

    /// Adds a program and what came of its run.
    pub(super) fn add(&mut self, run: &CompletedRun, program: Program) {
        self.add_run(run);
        self.helpers |= program.helpers;
        for opcode in program.bytes.iter().step_by(8) {
            let _ = self.opcodes.insert(*opcode);
        }
        let _ = self.programs.insert(program.bytes);
    }

    fn add_run(&mut self, run: &CompletedRun) {
        let mut has_put = false;
        let mut has_removal = false;
        for write in run.writes() {
            match write.bytes() {
                Some(_) => has_put = true,
                None => has_removal = true,
            }
        }
        self.looks = counted(self.looks, !run.looks().is_empty());
        self.puts = counted(self.puts, has_put);
        self.removals = counted(self.removals, has_removal);
        self.cancels = counted(self.cancels, run.cancel_code().is_some());
    }

    /// The programs differ, each of the 117 opcodes stands in one, beside the 0 of a wide load's second half, and every
    /// helper is called; enough of them look, put, remove and cancel.
    pub(super) fn assert_enough(&self, rt: &impl Abort) {
        let counts = [self.looks, self.puts, self.removals, self.cancels];
        let least = self
            .looks
            .min(self.puts)
            .min(self.removals)
            .min(self.cancels);
        assert!(rt;
            least >= 50,
            "programs that look, put, remove and cancel: {counts:?}"
        );
        let found = (self.programs.len(), self.opcodes.len(), self.helpers);
        assert_eq!(rt; found, (2_000, 118, 0b111_1110));
    }
}

/// Returns a count, with one more where this holds.
fn counted(count: u32, holds: bool) -> u32 {
    count.saturating_add(u32::from(holds))
}
