//! The program dsmdb: replicated rows with stored procedures in BPF.
#![tactic(auto)]

ghost use Rattle.std.specs.Prelude.{◌≤◌};
ghost use Rattle.schema.specs.declared.limits.TheConstants.{MAX_ARGUMENTS};

use byte_output::FAILED;
use command_line::{Explanation, Plan, PlanFault, plan};
use program_commands::{check_over, list_over};
use script_replay::replay_over;
use script_run::{RunOptions, run_over};
use site_service::site_over;
use std::fs::File;
use std::io::{BufReader, IsTerminal, Write};
use std::process::ExitCode;
use std::sync::Wait;
use std::thread::Threads;
use std::{env, io};

/// Says that a file can't be opened. The status is the same where that can't be said.
fn not_opened(rt: &HostRuntime, path: &str, error: &io::Error) -> u8 {
    let _ = writeln!(rt.stderr(), "dsmdb: {path}: {error}");
    FAILED
}

/// Lists the program in a file.
fn list_file(rt: &HostRuntime, path: &str) -> io::Result<u8> {
    let mut faults = rt.stderr();
    match File::open(rt, path) {
        Ok(mut file) => {
            let mut output = rt.stdout();
            Ok(list_over(rt.alloc(), &mut file, &mut output, &mut faults))
        }
        Err(error) => Ok(not_opened(rt, path, &error)),
    }
}

/// Checks the program in a file.
fn check_file(rt: &HostRuntime, path: &str, args_len: u16, tables: &[(u8, u16)]) -> io::Result<u8>
    requires { args_len ≤ MAX_ARGUMENTS }
{
    let mut faults = rt.stderr();
    match File::open(rt, path) {
        Ok(mut file) => {
            let mut output = rt.stdout();
            Ok(check_over(
                rt.alloc(),
                &mut file,
                &mut output,
                &mut faults,
                args_len,
                tables,
            ))
        }
        Err(error) => Ok(not_opened(rt, path, &error)),
    }
}

/// Replays the script in a file.
fn replay_file(rt: &HostRuntime, path: &str) -> io::Result<u8> {
    let mut faults = rt.stderr();
    match File::open(rt, path) {
        Ok(file) => {
            let mut input = BufReader::new(rt.alloc(), file)?;
            let mut output = rt.stdout();
            Ok(replay_over(rt.alloc(), &mut input, &mut output, &mut faults))
        }
        Err(error) => Ok(not_opened(rt, path, &error)),
    }
}

/// Runs the script in a file on threads. Progress is said where somebody watches.
fn run_file<R: Threads + Wait + Copy + Send + Sync + 'static>(
    rt: &HostRuntime,
    threads: &R,
    path: &str,
    executors: u32,
    log_limit: u32,
) -> io::Result<u8> {
    let mut faults = rt.stderr();
    let shows_progress = faults.is_terminal();
    match File::open(rt, path) {
        Ok(file) => {
            let mut input = BufReader::new(rt.alloc(), file)?;
            let mut output = rt.stdout();
            Ok(run_over(
                threads,
                rt.alloc(),
                &mut input,
                &mut output,
                &mut faults,
                RunOptions {
                    executors,
                    log_limit,
                    shows_progress,
                },
            ))
        }
        Err(error) => Ok(not_opened(rt, path, &error)),
    }
}

/// Runs a site, with the settings in a file.
fn site_of_file(rt: &HostRuntime, path: &str) -> io::Result<u8> {
    let mut faults = rt.stderr();
    match File::open(rt, path) {
        Ok(file) => {
            let mut settings = BufReader::new(rt.alloc(), file)?;
            // A locked input reads a pipe byte by byte.
            let mut input = BufReader::new(rt.alloc(), rt.stdin())?;
            let mut output = rt.stdout();
            Ok(site_over(
                rt.alloc(),
                &mut settings,
                &mut input,
                &mut output,
                &mut faults,
            ))
        }
        Err(error) => Ok(not_opened(rt, path, &error)),
    }
}

/// Prints what is known of a refusal.
fn print_explanation(rt: &HostRuntime, explanation: &Explanation) -> io::Result<u8> {
    writeln!(rt.stdout(), "{explanation}")?;
    Ok(0)
}

/// Prints what was asked for in place of a command, or says why the words are none. The status is the same where the
/// latter can't be said.
fn refused(rt: &HostRuntime, fault: &PlanFault<'_>) -> io::Result<u8> {
    match fault {
        PlanFault::CommandLine(error) if !error.use_stderr() => error.print(rt)?,
        PlanFault::CommandLine(error) => {
            let _ = error.print(rt);
        }
        PlanFault::Arguments { .. }
        | PlanFault::Table { .. }
        | PlanFault::Executors { .. }
        | PlanFault::LogLimit { .. }
        | PlanFault::Number { .. }
        | PlanFault::NoCommand
        | PlanFault::NoMemory => {
            let _ = writeln!(rt.stderr(), "dsmdb: {fault}");
        }
    }
    Ok(fault.status())
}

/// Does what the words ask for. Threads are started by a handle of their own.
fn run<R: Threads + Wait + Copy + Send + Sync + 'static>(
    rt: &HostRuntime,
    threads: &R,
) -> io::Result<u8> {
    let words: Vec<String> = env::args(rt)?.collect(rt.alloc())?;
    match plan(rt.alloc(), words.as_slice()) {
        Ok(Plan::List { file }) => list_file(rt, file),
        Ok(
            Plan::Check {
                file,
                args_len,
                tables,
            },
        ) => check_file(rt, file, args_len, &tables),
        Ok(Plan::Replay { script }) => replay_file(rt, script),
        Ok(
            Plan::Run {
                script,
                executors,
                log_limit,
            },
        ) => run_file(rt, threads, script, executors, log_limit),
        Ok(Plan::Site { settings }) => site_of_file(rt, settings),
        Ok(Plan::Explain { explanation }) => print_explanation(rt, &explanation),
        Err(fault) => refused(rt, &fault),
    }
}

fn main(rt: HostRuntime) -> ExitCode {
    match run(&rt, &rt) {
        Ok(status) => ExitCode::from(status),
        Err(error) => {
            let _ = eprintln!(rt; "dsmdb: {error}");
            ExitCode::from(FAILED)
        }
    }
}
