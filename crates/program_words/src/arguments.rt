//! The arguments of the command line.
ghost use Rattle.std.specs.Prelude.{◌≡◌, ◌≢◌, ◌<◌, ◌≤◌, ℕ, ◌^◌, [], is_some, map, length, option_map, None, IfSome, IfOk, OnOk, codes};
ghost use Rattle.std.specs.String.{string_bytes};
ghost use Rattle.std.specs.Vec.Iter.{into_iter_items};
ghost use Rattle.clap.specs.Words.{IsAmong, app_of, fault_of, first_value, found_of, kind_of, one_text, rule_of, with_rule};
ghost use Rattle.clap.specs.declared.error.kind.ErrorKind.TheVariants.{OutOfMemory};
ghost use Rattle.program_words.specs.Arguments.{program, number_rule, default_rule, flag_rule, words_rule, refusals, given, said, files_named, number_or, is_true, is_set, OnUsage};
ghost use Rattle.program_words.specs.Arguments.{file_of as the_file_of};
ghost use Rattle.program_words.specs.Arguments.{IsOwn, IsOwnArg, IsOtherName, HoldsFrom, IsUsage, kinds_of, wrong_together};

use crate::chosen::{MAX_THREADS, Options, OptionsFault};
use crate::version::RELEASE;
use clap::error::ErrorKind;
use clap::{Arg, ArgAction, ArgMatches, Command};
use limits::{MAX_SHARDS, MAX_WORKERS};
use plain_run::MAX_FILES;
use std::alloc::{AllocError, Global};
use std::convert::AsStr;
use std::env::Args;

const ABOUT: &str = "Compute the minimum spanning forest of a weighted graph in DIMACS .gr format.";

const THREADS_ALONE: &str = "--threads needs --plain";

const FILES_ALONE: &str = "several FILEs need --plain";

const TOO_MANY_FILES: &str = "at most 65536 FILEs";

const AFTER_THE_OPTIONS: &str = "Exit status:
  0  Success
  1  FILE is malformed, doesn't match the FILEs before it, or needs more shards
  2  Invalid arguments
  3  FILE can't be opened, or a read or a write failed
  4  Out of memory
  5  The workers' answers don't form a spanning forest

Without --plain, each round sends 4 bytes per vertex and shard to the workers:
17 GB for 67108864 vertices and 64 shards.

Examples:
  boruvka --plain net.gr > forest.gr
  gzip -t net.gr.gz && gzip -dc net.gr.gz | boruvka --plain > forest.gr

The manual page boruvka(1) has the file format and its errors.";

fn workers_arg<'a>(alloc: Global) -> Arg<'a>
    ensures own { IsOwnArg result }
    ensures rule { rule_of result ≡ default_rule (codes "workers") (codes "2") 0 MAX_WORKERS }
{
    Arg::new(alloc, "workers")
        .long("workers")
        .value_name("N")
        .help("Number of workers that scan the shards: 0 to 64")
        .default_value("2")
        .value_parser(clap::value_parser!(u32).range(0..=MAX_WORKERS as i64))
}

fn shards_arg<'a>(alloc: Global) -> Arg<'a>
    ensures own { IsOwnArg result }
    ensures rule { rule_of result ≡ default_rule (codes "shards") (codes "64") 1 MAX_SHARDS }
{
    Arg::new(alloc, "shards")
        .long("shards")
        .value_name("S")
        .help("Number of shards that the edges are split into: 1 to 4096")
        .default_value("64")
        .value_parser(clap::value_parser!(u32).range(1..=MAX_SHARDS as i64))
}

fn threads_arg<'a>(alloc: Global) -> Arg<'a>
    ensures own { IsOwnArg result }
    ensures rule { rule_of result ≡ number_rule (codes "threads") 1 MAX_THREADS }
{
    Arg::new(alloc, "threads")
        .long("threads")
        .value_name("N")
        .help("With --plain, use up to N threads: 1 to 64 [default: 1]")
        .value_parser(clap::value_parser!(u32).range(1..=MAX_THREADS as i64))
}

fn flag<'a>(alloc: Global, name: &'a str, help: &'a str) -> Arg<'a>
    requires { IsOtherName name.now }
    ensures own { IsOwnArg result }
    ensures rule { rule_of result ≡ flag_rule name.entry.now }
{
    Arg::new(alloc, name)
        .long(name)
        .help(help)
        .action(ArgAction::SetTrue)
}

fn file_arg<'a>(alloc: Global) -> Arg<'a>
    ensures own { IsOwnArg result }
    ensures rule { rule_of result ≡ words_rule (codes "file") }
{
    Arg::new(alloc, "file")
        .value_name("FILE")
        .help("Input graph; standard input if omitted or -; with --plain, several are joined")
        .action(ArgAction::Append)
}

fn with<'a>(command: Command<'a>, arg: Arg<'a>) -> Result<Command<'a>, AllocError>
    requires command { IsOwn command }
    requires arg { IsOwnArg arg }
    ensures own { IfOk result IsOwn }
    ensures app { IfOk result (λ c. app_of c ≡ with_rule (app_of command.entry) (rule_of arg.entry)) }
{
    let longer = command.arg(arg)?;
    Ok(longer)
}

fn the_command<'a>(alloc: Global) -> Result<Command<'a>, AllocError>
    ensures own { IfOk result IsOwn }
    ensures app { IfOk result (λ c. app_of c ≡ program) }
{
    let mut command = Command::new(alloc, "boruvka")
        .version(RELEASE)
        .about(ABOUT)
        .after_help(AFTER_THE_OPTIONS);
    command = with(
        command,
        flag(
            alloc,
            "plain",
            "Solve without workers: the fastest mode, and the one for untrusted files",
        ),
    )?;
    command = with(command, threads_arg(alloc))?;
    command = with(command, workers_arg(alloc))?;
    command = with(command, shards_arg(alloc))?;
    command = with(
        command,
        flag(
            alloc,
            "report",
            "Print counts and the forest's total weight to standard error",
        ),
    )?;
    command = with(
        command,
        flag(
            alloc,
            "progress",
            "Show on standard error how much was read, after every 16 MB",
        ),
    )?;
    with(command, file_arg(alloc))
}

// The number under a name, or the default if there is none.
fn number<'a>(matches: &ArgMatches<'a>, name: &str, default: u32) -> u32
    ensures range { (low high : ℕ) → HoldsFrom matches.now name.now low high
        → low ≤ default → default ≤ high → high < 2 ^ 32 → (low ≤ result) × (result ≤ high) }
    ensures value { (low high : ℕ) → HoldsFrom matches.now name.now low high → high < 2 ^ 32
        → result ≡ number_or (one_text (found_of matches.now) name.now) default }
{
    matches.get_one::<u32>(name).unwrap_or(default)
}

// Whether the flag with this name is set; clap stores a flag as a text.
fn is_set(matches: &ArgMatches<'_>, name: &str) -> bool
    ensures { result ≡ is_true (first_value (found_of matches.now) name.now) }
{
    match matches.get_str(name) {
        Some(text) => text == "true",
        None => false,
    }
}

// What is wrong with arguments that are each valid alone, and the message about it.
fn told_together(
    names_threads: bool,
    files: usize,
    plain: bool,
) -> Option<(ErrorKind, &'static str)>
    ensures kinds { kinds_of result ≡ wrong_together names_threads files plain }
    ensures memory { IfSome result (λ told. told.0 ≢ OutOfMemory) }
    ensures few { result ≡ None → files ≤ MAX_FILES }
{
    if names_threads && !plain {
        return Some((ErrorKind::MissingRequiredArgument, THREADS_ALONE));
    }
    if files > 1 && !plain {
        return Some((ErrorKind::MissingRequiredArgument, FILES_ALONE));
    }
    if files > MAX_FILES as usize {
        return Some((ErrorKind::TooManyValues, TOO_MANY_FILES));
    }
    None
}

// The error for arguments that are wrong together.
fn wrong_words(alloc: Global, kind: ErrorKind, text: &'static str) -> OptionsFault
    ensures { IsUsage result (λ error. kind_of error ≡ kind) }
{
    match the_command(alloc) {
        Ok(mut command) => match command.error(kind, text) {
            Ok(error) => OptionsFault::Usage(error),
            Err(AllocError) => OptionsFault::Memory,
        },
        Err(AllocError) => OptionsFault::Memory,
    }
}

// The file with a name; `-` isn't a file but standard input.
fn file_of(alloc: Global, name: &str) -> Result<Option<String>, AllocError>
    ensures { IfOk result (λ file. option_map string_bytes file ≡ the_file_of name.now) }
{
    if name == "-" {
        return Ok(None);
    }
    let name = String::from_str(alloc, name)?;
    Ok(Some(name))
}

fn files_of(alloc: Global, names: &[&str]) -> Result<Vec<Option<String>>, AllocError>
    ensures { IfOk result (λ files. map (option_map string_bytes) files.items
        ≡ map the_file_of (map (λ name. name.now) names.now)) }
{
    let mut files = Vec::new(alloc);
    for name in names {
        let file = file_of(alloc, name)?;
        files.push(file)?;
    }
    Ok(files)
}

/// Returns all arguments of the command line, in their order.
///
/// The only error is out of memory. The time and the memory are linear in the total length of the arguments.
pub fn all_words(alloc: Global, words: Args) -> Result<Vec<String>, AllocError>
    ensures { IfOk result (λ all. all.items ≡ into_iter_items words) }
{
    let all = words.collect(alloc)?;
    Ok(all)
}

// What the arguments ask for, each taken alone, and whether they give a number of threads.
fn options_of<'a, S: AsStr>(alloc: Global, words: &'a [S]) -> Result<(Options, bool), OptionsFault>
    ensures lawful { OnOk result (fault_of program (map S.text words.entry.now) ≡ []) }
    ensures names_threads { IfOk result (λ o.
        o.1 ≡ is_some (said (map S.text words.entry.now) (codes "threads"))) }
    ensures workers { IfOk result (λ o.
        o.0.workers ≡ number_or (given (map S.text words.entry.now) (codes "workers")) 2) }
    ensures shards { IfOk result (λ o.
        o.0.shards ≡ number_or (given (map S.text words.entry.now) (codes "shards")) 64) }
    ensures plain { IfOk result (λ o.
        o.0.plain ≡ is_set (map S.text words.entry.now) (codes "plain")) }
    ensures threads { IfOk result (λ o.
        o.0.threads ≡ number_or (given (map S.text words.entry.now) (codes "threads")) 1) }
    ensures report { IfOk result (λ o.
        o.0.report ≡ is_set (map S.text words.entry.now) (codes "report")) }
    ensures progress { IfOk result (λ o.
        o.0.progress ≡ is_set (map S.text words.entry.now) (codes "progress")) }
    ensures files { IfOk result (λ o.
        map (option_map string_bytes) o.0.files.items ≡ files_named (map S.text words.entry.now)) }
    ensures few_workers { IfOk result (λ o. o.0.workers ≤ MAX_WORKERS) }
    ensures some_shards { IfOk result (λ o. 1 ≤ o.0.shards) }
    ensures few_shards { IfOk result (λ o. o.0.shards ≤ MAX_SHARDS) }
    ensures some_threads { IfOk result (λ o. 1 ≤ o.0.threads) }
    ensures few_threads { IfOk result (λ o. o.0.threads ≤ MAX_THREADS) }
    ensures refused { OnUsage result (λ error.
        IsAmong (kind_of error) (fault_of program (map S.text words.entry.now))) }
    ensures memory { OnUsage result (λ error. kind_of error ≢ OutOfMemory) }
{
    let command = the_command(alloc)?;
    let matches = command.try_get_matches_from(words)?;
    let workers = number(&matches, "workers", 2);
    let shards = number(&matches, "shards", 64);
    let threads = number(&matches, "threads", 1);
    let files = match matches.get_strs("file") {
        Some(names) => files_of(alloc, names)?,
        None => Vec::new(alloc),
    };
    let chosen = Options {
        workers,
        shards,
        plain: is_set(&matches, "plain"),
        threads,
        report: is_set(&matches, "report"),
        progress: is_set(&matches, "progress"),
        files,
    };
    Ok((chosen, matches.get_str("threads").is_some()))
}

/// What the arguments ask for. The first one is the program's name.
///
/// Returns `Usage` if an argument is unknown or a number is out of range, and for threads or several files without
/// `--plain`, or more than [`MAX_FILES`] files. It also returns `Usage` if the arguments ask for the help or the
/// version. FILE `-` is standard input. clap decides what each argument means, for the arguments defined above. The
/// time and the memory are linear in the total length of the arguments.
pub fn options<'a, S: AsStr>(alloc: Global, words: &'a [S]) -> Result<Options, OptionsFault>
    // If this succeeds, nothing is wrong with the arguments, and each sets what it names.
    ensures lawful { OnOk result (refusals (map S.text words.entry.now) ≡ []) }
    ensures workers { IfOk result (λ o.
        o.workers ≡ number_or (given (map S.text words.entry.now) (codes "workers")) 2) }
    ensures shards { IfOk result (λ o.
        o.shards ≡ number_or (given (map S.text words.entry.now) (codes "shards")) 64) }
    ensures plain { IfOk result (λ o.
        o.plain ≡ is_set (map S.text words.entry.now) (codes "plain")) }
    ensures threads { IfOk result (λ o.
        o.threads ≡ number_or (given (map S.text words.entry.now) (codes "threads")) 1) }
    ensures report { IfOk result (λ o.
        o.report ≡ is_set (map S.text words.entry.now) (codes "report")) }
    ensures progress { IfOk result (λ o.
        o.progress ≡ is_set (map S.text words.entry.now) (codes "progress")) }
    ensures files { IfOk result (λ o.
        map (option_map string_bytes) o.files.items ≡ files_named (map S.text words.entry.now)) }

    // The numbers are in their ranges.
    ensures few_workers { IfOk result (λ o. o.workers ≤ MAX_WORKERS) }
    ensures some_shards { IfOk result (λ o. 1 ≤ o.shards) }
    ensures few_shards { IfOk result (λ o. o.shards ≤ MAX_SHARDS) }
    ensures some_threads { IfOk result (λ o. 1 ≤ o.threads) }
    ensures few_threads { IfOk result (λ o. o.threads ≤ MAX_THREADS) }
    ensures few_files { IfOk result (λ o. length o.files.items ≤ MAX_FILES) }

    // A usage error is about something that is wrong with the arguments. Out of memory is always reported as `Memory`.
    ensures refused { OnUsage result (λ error.
        IsAmong (kind_of error) (refusals (map S.text words.entry.now))) }
    ensures memory { OnUsage result (λ error. kind_of error ≢ OutOfMemory) }
{
    let (chosen, names_threads) = match options_of(alloc, words) {
        Ok(found) => found,
        Err(fault) => return Err(fault),
    };
    match told_together(names_threads, chosen.files.len(), chosen.plain) {
        Some((kind, text)) => Err(wrong_words(alloc, kind, text)),
        None => Ok(chosen),
    }
}
