use crate::draws::{NUMBERS, begin_step, draw, draw_args, draw_listed, draw_number, request_of};
use crate::history::{Call, History, Ordered, UnknownProcedure, take_down};
use crate::kinds::KINDS;
use crate::procedures::{CANCEL_CODE, CANCEL_PLACE, READ_PLACE, procedures, program_of};
use dsm_model::{Outcome, StepRefusal};
use dsm_world::{Step, World};
use log_model::{RequestId, Verdict};
use rand_pcg::Pcg32;
use scarce::Scarce;
use std::alloc::Global;
use test_programs::{TABLES, bytes_of, catalogue_of};

/// A world of a seed, with what was done to it.
#[derive(Drop)]
pub struct DrawnWorld<'s> {
    alloc: Global,
    scarce: &'s Scarce,
    generator: Pcg32,
    replicas: u32,
    /// The window of the world.
    pub window: u32,
    /// The world itself.
    pub world: World<&'s Scarce>,
    /// The history of what was done to the world.
    pub history: History,
}

/// A new world of 2 to 8 replicas. One of eight windows is drawn among many, the others among 1 to 8. The answer is
/// none where memory is wanting.
pub fn new_world<'s>(
    alloc: Global,
    scarce: &'s Scarce,
    seed: u64,
    kinds: [u32; KINDS],
) -> Option<DrawnWorld<'s>> {
    let mut generator = Pcg32::new(seed, 17);
    let replicas = draw(&mut generator, 7).wrapping_add(2).clamp(1, 8);
    let wide = draw(&mut generator, 8) == 0;
    let windows = if wide { 4_096 } else { 8 };
    let window = draw(&mut generator, windows)
        .wrapping_add(1)
        .clamp(1, 4_096);
    let catalogue = catalogue_of(scarce, &TABLES, &procedures())?;
    let world = World::new(scarce, replicas, window, catalogue).ok()?;
    Some(DrawnWorld {
        alloc,
        scarce,
        generator,
        replicas,
        window,
        world,
        history: History::new(alloc, kinds),
    })
}

impl<'s> DrawnWorld<'s> {
    /// Takes a step, at times with a growth refused.
    fn take(&mut self, step: Step<'_>) -> Outcome {
        if draw(&mut self.generator, 48) == 0 {
            let growth = draw(&mut self.generator, 3).wrapping_add(1);
            self.scarce.refuse_nth(u64::from(growth));
        }
        let outcome = self.world.step(step);
        self.scarce.refuse_nth(0);
        self.history.count(outcome);
        outcome
    }

    /// The number of a replica, at times a wrong one.
    fn draw_replica(&mut self) -> u32 {
        match draw(&mut self.generator, 64) {
            0 => 0,
            1 => self.replicas.wrapping_add(1),
            _ => draw(&mut self.generator, self.replicas).wrapping_add(1),
        }
    }

    /// The number of one of the latest calls, at times a wrong one.
    fn draw_recent(&mut self) -> u32 {
        let begun = u32::try_from(self.history.calls.len()).unwrap_or(0);
        match draw(&mut self.generator, 64) {
            0 => begun.wrapping_add(1),
            _ => begun.saturating_sub(draw(&mut self.generator, 4)),
        }
    }

    fn position_of(&self, replica: u32) -> Option<u32> {
        Some(self.world.replica(replica)?.position())
    }

    /// Draws the request of a call: none, a new request, one of the latest three, or any that was drawn. The request of
    /// a refused call is drawn too, and at times one with a 0.
    fn draw_request(&mut self) -> Option<RequestId> {
        let last = self.history.requests;
        match draw(&mut self.generator, 72) {
            0 => Some(RequestId {
                session: last % 2,
                sequence: 1 - last % 2,
            }),
            1..=6 => {
                self.history.requests = last.wrapping_add(1);
                Some(request_of(last.wrapping_add(1)))
            }
            7..=18 => Some(request_of(last.saturating_sub(draw(&mut self.generator, 3.min(last))))),
            19..=24 => Some(request_of(last.saturating_sub(draw(&mut self.generator, last)))),
            25..=36 => self.history.refused.pop(),
            _ => None,
        }
    }

    /// The number of a procedure: mostly of the catalogue, at times of one of the latest additions, or any.
    fn draw_procedure(&mut self) -> u16 {
        let last = self.world.log_len();
        let recent = last.saturating_sub(draw(&mut self.generator, 24));
        match (
            draw(&mut self.generator, 8),
            self.history.addition_at(recent),
        ) {
            (0, _) => draw_number(&mut self.generator),
            (1..=3, Some(number)) => number,
            _ => draw_listed(&mut self.generator),
        }
    }

    /// Begins a call.
    fn begin(&mut self, replica: u32) {
        let procedure = self.draw_procedure();
        let drawn = draw_args(self.alloc, &mut self.generator, procedure);
        let request = self.draw_request();
        match drawn {
            Some(args) => self.begin_with(replica, procedure, args, request),
            None => self.history.wanting = true,
        }
    }

    /// Begins a call with these arguments and this request.
    fn begin_with(&mut self, at: u32, procedure: u16, args: Vec<u8>, request: Option<RequestId>) {
        let outcome = self.take(begin_step(at, procedure, &args, request));
        if let Outcome::Begun { call, snapshot } = outcome {
            let begun = Call {
                procedure,
                args,
                snapshot,
                request,
                reply: None,
            };
            take_down(&mut self.history.calls, begun, &mut self.history.wanting);
            let is_next = call as usize == self.history.calls.len();
            let is_now = self.position_of(at) == Some(snapshot);
            self.history.expect(is_next && is_now);
        } else {
            self.see_refused(at, procedure, outcome);
        }
    }

    /// Takes down a call that didn't begin, where its replica has no such procedure.
    fn see_refused(&mut self, at: u32, procedure: u16, outcome: Outcome) {
        let Some(replica) = self.world.replica(at) else {
            return;
        };
        if outcome == Outcome::Refused(StepRefusal::NoProcedure) {
            let unknown = UnknownProcedure {
                number: procedure,
                position: replica.position(),
                stopped: replica.stopped(),
            };
            let history = &mut self.history;
            take_down(&mut history.unknown, unknown, &mut history.wanting);
        }
    }

    /// Adds a procedure, at times one with arguments that are too long, a program that isn't accepted, or no name.
    fn add(&mut self) {
        let named = draw(&mut self.generator, NUMBERS).wrapping_add(1);
        let number = draw_number(&mut self.generator);
        let (words, _program) = program_of(number);
        let long = u16::try_from(words).unwrap_or(0).wrapping_mul(8);
        let (mark, args_len) = match draw(&mut self.generator, 16) {
            0 => ("", 257),
            1 => ("", 0),
            2 => ("-", long),
            _ => ("", long),
        };
        match format!(in self.alloc; "{named}{mark}") {
            Ok(name) => self.add_named(name, number, args_len),
            Err(_) => self.history.wanting = true,
        }
    }

    /// Adds the program of a number under a name.
    fn add_named(&mut self, name: String, number: u16, args_len: u16) {
        let outcome = self.take_addition(&name, number, args_len);
        if let Some(Outcome::Added { position }) = outcome {
            let added = Ordered::Addition { name, number };
            take_down(&mut self.history.ordered, added, &mut self.history.wanting);
            self.expect_last(position);
        }
    }

    /// Takes the step of an addition. The answer is none where memory is wanting.
    fn take_addition(&mut self, name: &str, number: u16, args_len: u16) -> Option<Outcome> {
        let (_words, program) = program_of(number);
        match bytes_of(self.alloc, program) {
            Some(bytes) => Some(self.take(Step::Add {
                name: name.as_bytes(),
                number,
                args_len,
                bytes: &bytes,
            })),
            None => {
                self.history.wanting = true;
                None
            }
        }
    }

    /// Expects an answered position to be that of the last ordered item.
    fn expect_last(&mut self, position: u32) {
        let is_next = position as usize == self.history.ordered.len();
        let is_last = position == self.world.log_len();
        self.history.expect(is_next && is_last);
    }

    /// Runs a call further.
    fn turn(&mut self) {
        let call = self.draw_recent();
        for _ in 0..draw(&mut self.generator, 16).wrapping_add(1) {
            let outcome = self.take(Step::Turn { call });
            if let Outcome::Exit { reply } = outcome {
                return self.history.end(call, reply);
            }
            if outcome != Outcome::More {
                break;
            }
        }
    }

    /// Orders a call, mostly one that is at its end.
    fn order(&mut self) {
        let call = match draw(&mut self.generator, 8) {
            0 => self.draw_recent(),
            _ => self.history.ended.pop().unwrap_or(0),
        };
        match self.take(Step::Order { call }) {
            Outcome::Ordered { position } => {
                let ordered = Ordered::Call(call);
                take_down(
                    &mut self.history.ordered,
                    ordered,
                    &mut self.history.wanting,
                );
                self.expect_last(position);
            }
            Outcome::Read { snapshot, reply } => {
                take_down(&mut self.history.read, call, &mut self.history.wanting);
                let is_read = self.history.is_of(call, READ_PLACE, snapshot);
                let is_told = self.history.reply_of(call) == Some(reply);
                self.history.expect(is_read && is_told);
            }
            Outcome::Cancelled { snapshot, code } => {
                let is_cancelled = self.history.is_of(call, CANCEL_PLACE, snapshot);
                self.history.expect(is_cancelled && code == CANCEL_CODE);
            }
            _ => {}
        }
    }

    /// Delivers to a replica.
    fn deliver(&mut self, replica: u32) {
        let before = self.position_of(replica);
        let outcome = self.take(Step::Deliver { replica });
        let next = before.map_or(0, |position| position.wrapping_add(1));
        let wanted = outcome == Outcome::Refused(StepRefusal::NoMemory);
        if wanted && self.history.addition_at(next).is_some() {
            let count = &mut self.history.additions_without_memory;
            *count = count.wrapping_add(1);
        }
        if let Outcome::Delivered { position, verdict } = outcome {
            let told = (position, verdict);
            take_down(&mut self.history.delivered, told, &mut self.history.wanting);
            self.see_delivered(position, verdict);
            let is_next = before == position.checked_sub(1);
            let is_now = self.position_of(replica) == Some(position);
            self.history.expect(is_next && is_now);
        }
    }

    /// Takes down the request of a call that was refused.
    fn see_delivered(&mut self, position: u32, verdict: Verdict) {
        if matches!(verdict, Verdict::Conflict(_) | Verdict::Stale) {
            if let Some(request) = self.history.request_at(position) {
                take_down(
                    &mut self.history.refused,
                    request,
                    &mut self.history.wanting,
                );
            }
        }
    }

    /// Makes a replica anew.
    fn rebuild(&mut self, replica: u32) {
        let outcome = self.take(Step::Rebuild { replica });
        if let Outcome::Rebuilt { position } = outcome {
            let is_last = position == self.world.log_len();
            let is_now = self.position_of(replica) == Some(position);
            self.history.expect(is_last && is_now);
        }
    }

    /// Takes a step of a kind that is drawn, or some turns of a call.
    fn go_on(&mut self) {
        let replica = self.draw_replica();
        match draw(&mut self.generator, 64) {
            0..=5 => self.begin(replica),
            6..=19 => self.turn(),
            20..=26 => self.order(),
            27..=57 => self.deliver(replica),
            58..=61 => self.add(),
            _ => {
                self.rebuild(replica);
            }
        }
    }

    /// Takes 200 to 2,000 steps.
    pub fn run(&mut self) {
        let most = draw(&mut self.generator, 1_785).wrapping_add(200);
        for _ in 0..most {
            if self.history.steps < most {
                self.go_on();
            }
        }
    }

    /// Brings a replica to the end of the log, and makes it anew where it is stopped.
    fn finish_replica(&mut self, replica: u32) {
        for _ in 0..1_000u32 {
            let stopped = self.world.replica(replica).map(|it| it.stopped());
            if stopped == Some(true) {
                self.rebuild(replica);
            } else if self.position_of(replica) != Some(self.world.log_len()) {
                self.deliver(replica);
            }
        }
    }

    /// Brings all replicas to the end of the log.
    pub fn finish(&mut self) {
        for replica in 1..self.replicas.saturating_add(1) {
            self.finish_replica(replica);
        }
    }
}
