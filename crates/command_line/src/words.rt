//! The meaning of the command line.

ghost use Rattle.std.specs.Prelude.{◌≡◌, ◌≤◌, [], codes, false, Some, IfOk, map};
ghost use Rattle.std.specs.Option.{unwrap_or};
ghost use Rattle.schema.specs.declared.limits.TheConstants.{MAX_EXECUTORS, MAX_LOG};
ghost use Rattle.clap.specs.Words.{all_of, app_of, found_of, rows_of, rule_of, subcommand_of, subcommand_rows_of};
ghost use Rattle.program_commands.specs.Number.{table_word};
ghost use Rattle.command_line.specs.Plan.{args_rule, check_line, command_line, executors_rule, explain_line, file_rule};
ghost use Rattle.command_line.specs.Plan.{list_line, log_rule, number_rule, replay_line, run_line, script_rule};
ghost use Rattle.command_line.specs.Plan.{settings_rule, site_line, table_rule, IsPlanOf, IsListOf, IsCheckOf, IsReplayOf};
ghost use Rattle.command_line.specs.Plan.{IsRunOf, IsSiteOf, IsExplainOf};
ghost use Rattle.command_line.specs.Plan.{IsWithinLimits, number_of};

use crate::explanation::explain;
use crate::help::{RUN_HELP, SCRIPT_HELP, SITE_HELP};
use crate::request::{Plan, PlanFault};
use clap::{Arg, ArgAction, ArgMatches, Command};
use program_commands::{number_in, table};
use schema::{MAX_ARGUMENTS, MAX_EXECUTORS, MAX_LOG};
use std::alloc::{AllocError, Global};
use std::convert::AsStr;

/// The text that `--version` prints behind the name.
const VERSION: &str = "0.1.0";

/// Reads the words behind the program's name, which is the first word, as a plan.
pub fn plan<'a, S: AsStr>(alloc: Global, words: &'a [S]) -> Result<Plan<'a>, PlanFault<'a>>
    ensures words { IfOk result (λ plan. IsPlanOf (subcommand_of command_line (map S.text words.entry.now)) plan) }
    ensures limits { IfOk result IsWithinLimits }
{
    let matches = matches(alloc, words)?;
    match matches.subcommand() {
        Some(("list", values)) => list_plan(values),
        Some(("check", values)) => check_plan(alloc, values),
        Some(("replay", values)) => replay_plan(values),
        Some(("run", values)) => run_plan(values),
        Some(("site", values)) => site_plan(values),
        Some(("explain", values)) => explain_plan(values),
        _ => Err(PlanFault::NoCommand),
    }
}

/// Reads the values of `list`.
fn list_plan<'a>(values: &ArgMatches<'a>) -> Result<Plan<'a>, PlanFault<'a>>
    ensures { IfOk result (IsListOf (rows_of (found_of values.now))) }
{
    match values.get_str("FILE") {
        Some(file) => Ok(Plan::List { file }),
        None => Err(PlanFault::NoCommand),
    }
}

/// Reads the values of `check`.
fn check_plan<'a>(alloc: Global, values: &ArgMatches<'a>) -> Result<Plan<'a>, PlanFault<'a>>
    ensures values { IfOk result (IsCheckOf (rows_of (found_of values.now))) }
    ensures limits { IfOk result IsWithinLimits }
{
    let Some(file) = values.get_str("FILE") else {
        return Err(PlanFault::NoCommand);
    };
    let Some(word) = values.get_str("ARGS") else {
        return Err(PlanFault::NoCommand);
    };
    let Some(args_len) = number_in(word, 0, u32::from(MAX_ARGUMENTS)) else {
        return Err(PlanFault::Arguments { word });
    };
    let tables = tables(alloc, values)?;
    Ok(Plan::Check {
        file,
        args_len: args_len as u16,
        tables,
    })
}

/// Reads the tables of `check`.
fn tables<'a>(alloc: Global, values: &ArgMatches<'a>) -> Result<Vec<(u8, u16)>, PlanFault<'a>>
    ensures { IfOk result
        (λ tables. map table_word (unwrap_or (all_of (codes "T:W") (rows_of (found_of values.now))) [])
        ≡ map (λ t. Some t) tables.items) }
{
    match values.get_raw("T:W") {
        Some(words) => read_tables(alloc, words),
        None => Ok(Vec::new(alloc)),
    }
}

/// Reads the tables that the words give.
fn read_tables<'a>(alloc: Global, words: &[&'a str]) -> Result<Vec<(u8, u16)>, PlanFault<'a>>
    ensures { IfOk result (λ tables. map (λ w. table_word w.now) words.now ≡ map (λ t. Some t) tables.items) }
{
    let mut tables = Vec::new(alloc);
    for &word in words {
        let Some(table) = table(word) else {
            return Err(PlanFault::Table { word });
        };
        tables.push(table)?;
    }
    Ok(tables)
}

/// Reads the values of `replay`.
fn replay_plan<'a>(values: &ArgMatches<'a>) -> Result<Plan<'a>, PlanFault<'a>>
    ensures { IfOk result (IsReplayOf (rows_of (found_of values.now))) }
{
    match values.get_str("SCRIPT") {
        Some(script) => Ok(Plan::Replay { script }),
        None => Err(PlanFault::NoCommand),
    }
}

/// Reads the values of `run`.
fn run_plan<'a>(values: &ArgMatches<'a>) -> Result<Plan<'a>, PlanFault<'a>>
    ensures values { IfOk result (IsRunOf (rows_of (found_of values.now))) }
    ensures limits { IfOk result IsWithinLimits }
{
    let Some(script) = values.get_str("SCRIPT") else {
        return Err(PlanFault::NoCommand);
    };
    let executors = executors(values)?;
    let log_limit = log_limit(values)?;
    Ok(Plan::Run {
        script,
        executors,
        log_limit,
    })
}

/// Reads the number of executing threads of each replica.
fn executors<'a>(values: &ArgMatches<'a>) -> Result<u32, PlanFault<'a>>
    ensures number { IfOk result (λ n. number_of (rows_of (found_of values.now)) (codes "executors") 1 MAX_EXECUTORS
        ≡ Some n) }
    ensures range { IfOk result (λ n. (1 ≤ n) × (n ≤ MAX_EXECUTORS)) }
{
    let Some(word) = values.get_str("executors") else {
        return Err(PlanFault::NoCommand);
    };
    match number_in(word, 1, MAX_EXECUTORS) {
        Some(executors) => Ok(executors),
        None => Err(PlanFault::Executors { word }),
    }
}

/// Reads the most entries that the log has.
fn log_limit<'a>(values: &ArgMatches<'a>) -> Result<u32, PlanFault<'a>>
    ensures number { IfOk result (λ n. number_of (rows_of (found_of values.now)) (codes "log") 1 MAX_LOG ≡ Some n) }
    ensures range { IfOk result (λ n. (1 ≤ n) × (n ≤ MAX_LOG)) }
{
    let Some(word) = values.get_str("log") else {
        return Err(PlanFault::NoCommand);
    };
    match number_in(word, 1, MAX_LOG) {
        Some(log_limit) => Ok(log_limit),
        None => Err(PlanFault::LogLimit { word }),
    }
}

/// Reads the values of `site`.
fn site_plan<'a>(values: &ArgMatches<'a>) -> Result<Plan<'a>, PlanFault<'a>>
    ensures { IfOk result (IsSiteOf (rows_of (found_of values.now))) }
{
    match values.get_str("SETTINGS") {
        Some(settings) => Ok(Plan::Site { settings }),
        None => Err(PlanFault::NoCommand),
    }
}

/// Reads the values of `explain`.
fn explain_plan<'a>(values: &ArgMatches<'a>) -> Result<Plan<'a>, PlanFault<'a>>
    ensures { IfOk result (IsExplainOf (rows_of (found_of values.now))) }
{
    let Some(word) = values.get_str("NUMBER") else {
        return Err(PlanFault::NoCommand);
    };
    match explain(word) {
        Some(explanation) => Ok(Plan::Explain { explanation }),
        None => Err(PlanFault::Number { word }),
    }
}

/// Returns what clap reads of the words.
fn matches<'a, S: AsStr>(alloc: Global, words: &'a [S]) -> Result<ArgMatches<'a>, PlanFault<'a>>
    ensures { IfOk result (λ m. subcommand_rows_of m ≡ subcommand_of command_line (map S.text words.entry.now)) }
{
    let command = dsmdb_command(alloc)?;
    Ok(command.try_get_matches_from(words)?)
}

/// Makes the whole command line. Each command is made where it is added, so that few have to be let go where memory is
/// wanting.
fn dsmdb_command<'a>(alloc: Global) -> Result<Command<'a>, AllocError>
    ensures { IfOk result (λ c. app_of c ≡ command_line) }
{
    let dsmdb = Command::new(alloc, "dsmdb")
        .about("A multi-master row database with verified BPF procedures")
        .version(VERSION)
        .subcommand_required(true);
    let with_list = dsmdb.subcommand(list_command(alloc)?)?;
    let with_check = with_list.subcommand(check_command(alloc)?)?;
    let with_replay = with_check.subcommand(replay_command(alloc)?)?;
    let with_run = with_replay.subcommand(run_command(alloc)?)?;
    let with_site = with_run.subcommand(site_command(alloc)?)?;
    with_site.subcommand(explain_command(alloc)?)
}

fn list_command<'a>(alloc: Global) -> Result<Command<'a>, AllocError>
    ensures { IfOk result (λ c. app_of c ≡ list_line) }
{
    Command::new(alloc, "list")
        .about("Prints a line for each instruction of a program")
        .arg(file(alloc))
}

fn check_command<'a>(alloc: Global) -> Result<Command<'a>, AllocError>
    ensures { IfOk result (λ c. app_of c ≡ check_line) }
{
    let command = Command::new(alloc, "check")
        .about("Says whether a program is accepted as a procedure")
        .arg(file(alloc))?;
    let command = command.arg(args(alloc))?;
    command.arg(tables_arg(alloc))
}

fn replay_command<'a>(alloc: Global) -> Result<Command<'a>, AllocError>
    ensures { IfOk result (λ c. app_of c ≡ replay_line) }
{
    Command::new(alloc, "replay")
        .about("Runs a script on a world of replicas, and prints what each line answers")
        .after_help(SCRIPT_HELP)
        .arg(script(alloc))
}

fn run_command<'a>(alloc: Global) -> Result<Command<'a>, AllocError>
    ensures { IfOk result (λ c. app_of c ≡ run_line) }
{
    let command = Command::new(alloc, "run")
        .about("Takes the calls of a script on threads, and prints what each is answered")
        .after_help(RUN_HELP)
        .arg(script(alloc))?;
    let command = command.arg(executors_arg(alloc))?;
    command.arg(log_arg(alloc))
}

fn site_command<'a>(alloc: Global) -> Result<Command<'a>, AllocError>
    ensures { IfOk result (λ c. app_of c ≡ site_line) }
{
    Command::new(alloc, "site")
        .about("Holds one replica of an order that its input gives, and answers each line")
        .after_help(SITE_HELP)
        .arg(settings(alloc))
}

fn explain_command<'a>(alloc: Global) -> Result<Command<'a>, AllocError>
    ensures { IfOk result (λ c. app_of c ≡ explain_line) }
{
    Command::new(alloc, "explain")
        .about("Says what a refusal's number means, and what to do")
        .arg(number(alloc))
}

fn number<'a>(alloc: Global) -> Arg<'a>
    ensures rule { rule_of result ≡ number_rule }
    ensures local { result.global ≡ false }
{
    Arg::new(alloc, "NUMBER")
        .help("The letter and number of a refusal, as V5")
        .required(true)
        .action(ArgAction::Set)
}

fn script<'a>(alloc: Global) -> Arg<'a>
    ensures rule { rule_of result ≡ script_rule }
    ensures local { result.global ≡ false }
{
    Arg::new(alloc, "SCRIPT")
        .help("A file with the lines of a script")
        .required(true)
        .action(ArgAction::Set)
}

fn settings<'a>(alloc: Global) -> Arg<'a>
    ensures rule { rule_of result ≡ settings_rule }
    ensures local { result.global ≡ false }
{
    Arg::new(alloc, "SETTINGS")
        .help("A file with the settings that all sites of the order have")
        .required(true)
        .action(ArgAction::Set)
}

fn executors_arg<'a>(alloc: Global) -> Arg<'a>
    ensures rule { rule_of result ≡ executors_rule }
    ensures local { result.global ≡ false }
{
    Arg::new(alloc, "executors")
        .long("executors")
        .value_name("N")
        .help("How many threads run the calls of each replica, 1 to 16")
        .default_value("4")
        .action(ArgAction::Set)
}

fn log_arg<'a>(alloc: Global) -> Arg<'a>
    ensures rule { rule_of result ≡ log_rule }
    ensures local { result.global ≡ false }
{
    Arg::new(alloc, "log")
        .long("log")
        .value_name("N")
        .help("How many entries the log has at most, 1 to 1048576")
        .default_value("1048576")
        .action(ArgAction::Set)
}

fn file<'a>(alloc: Global) -> Arg<'a>
    ensures rule { rule_of result ≡ file_rule }
    ensures local { result.global ≡ false }
{
    Arg::new(alloc, "FILE")
        .help("A file with the program's bytes")
        .required(true)
        .action(ArgAction::Set)
}

fn args<'a>(alloc: Global) -> Arg<'a>
    ensures rule { rule_of result ≡ args_rule }
    ensures local { result.global ≡ false }
{
    Arg::new(alloc, "ARGS")
        .help("How many bytes the arguments have, 0 to 256")
        .required(true)
        .action(ArgAction::Set)
}

fn tables_arg<'a>(alloc: Global) -> Arg<'a>
    ensures rule { rule_of result ≡ table_rule }
    ensures local { result.global ≡ false }
{
    Arg::new(alloc, "T:W")
        .help("A table, 1 to 64, and how many bytes its rows have, 1 to 128")
        .action(ArgAction::Append)
}
