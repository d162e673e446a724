use bpf_bytes::decode;
use bpf_verify::{Accepted, verify};
use inputs::{Call, random_call};
use outcome::{line_of_call, line_of_completed, line_of_run};
use plain_runner::{CompletedRun, run_program};
use plain_site::{complete_call, run_call};
use random::Random;
use schema::Schema;
use std::alloc::{AllocError, Global};
use std::process::Abort;
use tally::Tally;

mod calls;
mod generator;
mod inputs;
mod instruction;
mod outcome;
mod random;
mod tally;

/// A turn that no call comes to: its store stays.
const NEVER: u32 = u32::MAX;

/// The procedure, which the verifier has to accept, on arguments of 32 bytes.
fn accepted(rt: &impl Abort, alloc: Global, schema: &Schema, program: &[u8]) -> Accepted {
    match verify(
        alloc,
        decode(alloc, program).expect(rt, "the program"),
        schema,
        32,
    ) {
        Ok(procedure) => procedure,
        Err(refusal) => {
            let program = hex::encode(alloc, program).expect(rt, "memory");
            panic!(rt; "{refusal} of {program}")
        }
    }
}

/// Returns what the definition says of a call.
fn plain_run(rt: &impl Abort, alloc: Global, procedure: &Accepted, call: &Call) -> CompletedRun {
    let code = procedure.code();
    let schema = procedure.schema();
    let run = run_program(alloc, code, schema, &call.arguments, &call.rows).expect(rt, "memory");
    run.ok_or("a run of an accepted program is stuck")
        .expect(rt, "memory")
}

/// Returns what the machine does at a call, to its end at once.
fn completed_line(
    rt: &impl Abort,
    alloc: Global,
    procedure: &Accepted,
    call: &Call,
    turns: usize,
) -> String {
    let completed = complete_call(alloc, procedure, &call.arguments, &call.rows).expect(
        rt, "memory",
    );
    line_of_completed(alloc, &completed, turns).expect(rt, "memory")
}

/// Returns what the machine does at a call, turn by turn.
fn machine_line(rt: &impl Abort, alloc: Global, procedure: &Accepted, call: &Call) -> String {
    let run = run_call(alloc, procedure, &call.arguments, &call.rows, NEVER).expect(rt, "memory");
    line_of_call(alloc, run).expect(rt, "memory")
}

/// Asserts that both lines of a call are the same, or says of which program and arguments they aren't.
fn assert_same(
    rt: &impl Abort,
    alloc: Global,
    call: &Call,
    machine: &str,
    plain: &str,
) -> Result<(), AllocError> {
    let program = hex::encode(alloc, &call.program.bytes)?;
    assert_eq!(rt; machine, plain, "{program} of {:?}", call.arguments);
    Ok(())
}

/// Compares a call on the machine, both ways, with what the definition says, and returns the run of the definition.
fn compared(rt: &impl Abort, alloc: Global, schema: &Schema, call: &Call) -> CompletedRun {
    let procedure = accepted(rt, alloc, schema, &call.program.bytes);
    let run = plain_run(rt, alloc, &procedure, call);
    let plain = line_of_run(alloc, &run).expect(rt, "memory");
    let machine = machine_line(rt, alloc, &procedure, call);
    let completed = completed_line(rt, alloc, &procedure, call, run.steps());
    for line in [&machine, &completed] {
        assert_same(rt, alloc, call, line, &plain).expect(rt, "memory");
    }
    run
}

/// 2,000 programs, each with arguments and rows of its own.
#[test]
fn calls_come_to_what_the_plain_runner_says(rt: HostRuntime) {
    let alloc = rt.alloc();
    let schema = Schema::new(alloc, &[(1, 8), (2, 2)]).expect(&rt, "memory");
    let mut random = Random::from_seed();
    let mut tally = Tally::new(alloc);
    for _ in 0..2_000 {
        let call = random_call(alloc, &mut random).expect(&rt, "memory");
        let run = compared(&rt, alloc, &schema, &call);
        tally.add(&run, call.program);
    }
    tally.assert_enough(&rt);
}
