//! What the program does, in order.
ghost use Rattle.std.specs.Prelude.{◌≡◌, ◌≢◌, ◌≤◌, [], map, length, All, IsSome, OnOk, true, false, codes};
ghost use Rattle.std.specs.IoError.{error_kind};
ghost use Rattle.limits.specs.declared.TheConstants.{MAX_WORKERS};
ghost use Rattle.byte_streams.specs.Streams.{IsFlushed};
ghost use Rattle.clap.specs.Words.{kind_of};
ghost use Rattle.clap.specs.declared.error.kind.ErrorKind.TheVariants.{DisplayHelp, DisplayVersion};
ghost use Rattle.wires.specs.Lines.{HasRoom};
ghost use Rattle.plain_run.specs.Outcomes.{known};
ghost use Rattle.plain_run.specs.PlainRun.{RanPlain};
ghost use Rattle.plain_run.specs.declared.parts.TheConstants.{MAX_FILES};
ghost use Rattle.forest_run.specs.WiredLines.{AreServed};
ghost use Rattle.tcp_lines.specs.Lines.{tcp_line, unused};
ghost use Rattle.program_words.specs.Arguments.{IsMistake, files_named, is_set, refusals};
ghost use Rattle.program_words.specs.Messages.{IsWritten, message_line, no_text_line};
ghost use Rattle.boruvka.specs.Streams.{AreReady, IsUntold, OnStreams, left_errors, left_output, standard};
ghost use Rattle.boruvka.specs.Asked.{asked_by, asked_of, EndsAs, Obeys};
ghost use Rattle.boruvka.specs.Asked.{AskFor, AreWrong, HelpEnds, RefusesWords, EndsRefused};
ghost use Rattle.boruvka.specs.Status.{report_of, JudgesFile, KeepsStreams, EndsOver, RefusesNoGraph, IsDoneOrHindered, LeavesOutput, IsUntouched};

use crate::ends::write_end;
use crate::joined::run_joined;
use crate::progress::Watched;
use crate::standard::{StandardStreams, workers_beside};
use byte_streams::{Sink, Source, Uncounted, put};
use forest_run::{Cutting, Report, RunFault, run_lines, run_plain, run_threads};
use program_words::{
    DEVICE, MEMORY, Options, OptionsFault, USAGE, options, usage_text, write_fault, write_no_text,
    write_text, write_unopened,
};
use std::alloc::{Alloc, AllocError, Global};
use std::convert::AsStr;
use std::fs::{File, Files};
use std::io::{self, ErrorKind, Write};
use std::net::{Net, TcpListener, TcpStream};
use std::sync::Wait;
use std::thread::Threads;
use tcp_lines::{TcpLine, Workers};
use wires::Line;

// The result of a run, without its lines, which are closed.
fn without_lines<L: Drop>(ended: Result<(Report, Vec<L>), RunFault>) -> Result<Report, RunFault>
    ensures { result ≡ report_of ended }
{
    match ended {
        Ok((report, _lines)) => Ok(report),
        Err(fault) => Err(fault),
    }
}

/// Runs over these lines, with the edges split into `shards` shards, and returns the exit status. A line is a
/// connection to a worker, and the worker's number is the index of the line.
///
/// The forest is written to the output. If the run succeeds and the report is wanted, that is written to the errors; if
/// the run fails, the errors get the reason. The lines are dropped.
///
/// It waits for the workers' answers. [`run_lines`] documents the costs.
pub fn run_over<
    R: Alloc<A = Global> + Threads + Wait + Sync,
    L: Line + Send + Drop,
    I: Source,
    O: Sink,
    E: Sink,
>(rt: &R, shards: u32, wants_report: bool, lines: Vec<L>, io: StandardStreams<I, O, E>) -> u8
    requires few { length lines.items ≤ MAX_WORKERS }
    requires room { All (λ line. HasRoom (L.state line)) lines.items }
    requires streams { AreReady I.Source O.Sink E.Sink io }

    // This holds whatever the workers answer. It says more if each line is new and carries its worker's session.
    ensures ends { OnStreams I.Source O.Sink E.Sink (EndsOver L.Line lines.items shards wants_report result)
        io.entry io.exit }
    ensures kept { KeepsStreams O.Sink false wants_report result io.entry.output.now io.entry.errors.now (left_output io.exit) (left_errors io.exit) }

    // An invalid file gives an error.
    ensures malformed { OnStreams I.Source O.Sink E.Sink (RefusesNoGraph result) io.entry io.exit }

    // Over such lines the workers are never blamed. A file whose edges can be split like this gets its forest, unless
    // memory or the sink fails.
    ensures blameless { AreServed L.Line lines.items → result ≢ 5 }
    ensures done { AreServed L.Line lines.items → OnStreams I.Source O.Sink E.Sink (IsDoneOrHindered shards result) io.entry io.exit }
{
    let StandardStreams {
        input,
        output,
        errors,
    } = io;
    let cutting = Cutting::Even(shards);
    let ended = without_lines(run_lines(rt, rt.alloc(), input, cutting, lines, output));
    write_end(wants_report, &ended, errors)
}

// Runs as the arguments ask, over one line to each of the workers that were started. Every worker has ended when this
// returns.
fn run_started<R: Alloc<A = Global> + Threads + Wait + Sync, I: Source, O: Sink, E: Sink>(
    rt: &R,
    chosen: &Options,
    started: (Vec<TcpLine>, Workers),
    io: StandardStreams<I, O, E>,
) -> u8
    requires few { length started.0.items ≤ MAX_WORKERS }
    requires new { All (λ line. line ≡ unused) started.0.items }
    requires all { started.1 ≡ length started.0.items }
    requires streams { AreReady I.Source O.Sink E.Sink io }

    // It runs over exactly these lines, whatever comes over them.
    ensures ends { OnStreams I.Source O.Sink E.Sink
        (EndsOver tcp_line started.0.items chosen.now.shards chosen.now.report result) io.entry io.exit }
    ensures kept { KeepsStreams O.Sink false chosen.now.report result io.entry.output.now io.entry.errors.now (left_output io.exit) (left_errors io.exit) }
{
    let (lines, workers) = started;
    let status = run_over(rt, chosen.shards, chosen.report, lines, io);
    workers.join(rt);
    status
}

// Runs without workers, with up to this many threads.
fn run_here<R: Alloc<A = Global> + Threads + Sync, I: Source, O: Sink>(
    rt: &R,
    threads: u32,
    input: &mut I,
    output: &mut O,
) -> Result<Report, RunFault>
    requires input { I.can_read input.old }
    requires output { O.can_write output.old }
    ensures ran { RanPlain result
        (known I.state O.state input.old output.old) (known I.state O.state input.new output.new) }
    ensures judged { JudgesFile result (I.state input.old) (I.state input.new) }
    ensures flushed { OnOk result (IsFlushed (O.unflushed output.new)) }
{
    if threads < 2 {
        return run_plain(rt.alloc(), input, output);
    }
    run_threads(rt, threads as usize, rt.alloc(), input, output)
}

// Runs as the arguments ask, on the input. If it runs with workers, every worker has ended when this returns.
fn run_on<R, I, O, E>(rt: &R, chosen: &Options, io: StandardStreams<I, O, E>) -> u8
where
    R: Files<File = File>
        + Alloc<A = Global>
        + Net<Listener = TcpListener, Stream = TcpStream>
        + Threads
        + Wait
        + Sync
        + Copy
        + Send
        + 'static,
    I: Source,
    O: Sink,
    E: Sink,
    requires workers { chosen.now.workers ≤ MAX_WORKERS }
    requires streams { AreReady I.Source O.Sink E.Sink io }
    ensures ends { OnStreams I.Source O.Sink E.Sink (EndsAs chosen.now.plain (asked_of chosen.now) result) io.entry io.exit }
    ensures kept { KeepsStreams O.Sink chosen.now.plain chosen.now.report result io.entry.output.now io.entry.errors.now (left_output io.exit) (left_errors io.exit) }
{
    if chosen.plain {
        let StandardStreams {
            input,
            output,
            errors,
        } = io;
        let ended = run_here(rt, chosen.threads, input, output);
        return write_end(chosen.report, &ended, errors);
    }
    let (_reserved, count) = workers_beside(rt, chosen.workers);
    let Ok(started) = Workers::start(rt, rt.alloc(), count) else {
        write_fault(io.errors, &RunFault::Memory);
        return MEMORY;
    };
    run_started(rt, chosen, started, io)
}

// Runs as the arguments ask, on the input, and prints how much of it was read if they ask for that.
fn run_told<R, I, W, O, E>(
    rt: &R,
    chosen: &Options,
    input: &mut Watched<I, W>,
    output: &mut O,
    errors: &mut E,
) -> u8
where
    R: Files<File = File>
        + Alloc<A = Global>
        + Net<Listener = TcpListener, Stream = TcpStream>
        + Threads
        + Wait
        + Sync
        + Copy
        + Send
        + 'static,
    I: Source,
    W: Write,
    O: Sink,
    E: Sink,
    requires workers { chosen.now.workers ≤ MAX_WORKERS }
    requires input { I.can_read input.old.source }
    requires output { O.can_write output.old }
    requires errors { E.can_write errors.old }
    ensures ends { EndsAs chosen.now.plain (asked_of chosen.now) result
        (standard I.Source O.Sink E.Sink input.old.source output.old errors.old)
        (standard I.Source O.Sink E.Sink input.new.source output.new errors.new) }
    ensures kept { KeepsStreams O.Sink chosen.now.plain chosen.now.report result output.old errors.old output.new errors.new }
    ensures untold { chosen.now.progress ≡ false → IsUntold input.old input.new }
{
    if chosen.progress {
        input.progress.want(true);
        let told = StandardStreams {
            input,
            output,
            errors,
        };
        return run_on(rt, chosen, told);
    }
    let untold = StandardStreams {
        input: &mut input.source,
        output,
        errors,
    };
    run_on(rt, chosen, untold)
}

/// Does what valid arguments ask for, and returns the exit status.
///
/// Without FILE it reads the input. A single FILE is opened before the run begins. The edges of several files are
/// joined.
///
/// The forest is written to the output. The errors get the reason for a failure, and the report if it is requested. The
/// writer next to the input gets how much was read, if that is requested.
///
/// With `--plain` it runs with up to the requested number of threads. Without `--plain` it starts the requested workers
/// as threads of this process, connected by sockets, and ends them.
pub fn obey<R, I, W, O, E>(
    rt: &R,
    chosen: &Options,
    input: &mut Watched<I, W>,
    output: &mut O,
    errors: &mut E,
) -> u8
where
    R: Files<File = File>
        + Alloc<A = Global>
        + Net<Listener = TcpListener, Stream = TcpStream>
        + Threads
        + Wait
        + Sync
        + Copy
        + Send
        + 'static,
    I: Source,
    W: Write,
    O: Sink,
    E: Sink,
    requires workers { chosen.now.workers ≤ MAX_WORKERS }
    requires input { I.can_read input.old.source }
    requires output { O.can_write output.old }
    requires errors { E.can_write errors.old }
    requires few { length chosen.now.files.items ≤ MAX_FILES }

    // It does what is asked for, on the input, on one FILE or on several. If every file is a FILE, the input isn't
    // read.
    ensures obeys { Obeys (asked_of chosen.now) result
        (standard I.Source O.Sink E.Sink input.old.source output.old errors.old)
        (standard I.Source O.Sink E.Sink input.new.source output.new errors.new) }
    ensures leaves_input { chosen.now.files.items ≢ [] → All IsSome chosen.now.files.items
        → input.new.source ≡ input.old.source }

    // If the file is invalid or can't be split, memory runs out, or the answers make no forest, nothing is written to
    // the output. If the run succeeds, no output byte waits for a flush, as far as the sink shows, and the errors get
    // only the report.
    ensures kept { KeepsStreams O.Sink chosen.now.plain chosen.now.report result output.old errors.old output.new errors.new }
    ensures untold { chosen.now.progress ≡ false → IsUntold input.old input.new }
{
    if chosen.files.len() > 1 {
        return run_joined(rt, chosen, input, output, errors);
    }
    let Some(Some(name)) = chosen.files.first() else {
        return run_told(rt, chosen, input, output, errors);
    };
    let Ok(file) = File::open(rt, name) else {
        write_unopened(errors, name.as_str());
        return DEVICE;
    };
    if !chosen.progress {
        let untold = StandardStreams {
            input: &mut Uncounted(file),
            output,
            errors,
        };
        return run_on(rt, chosen, untold);
    }
    let mut from_file = Watched {
        source: Uncounted(file),
        progress: &mut *input.progress,
    };
    run_told(rt, chosen, &mut from_file, output, errors)
}

// Prints the help or the version to the output, or what is wrong with the arguments to the errors.
fn print_usage<O: Sink, E: Sink>(
    alloc: Global,
    error: &clap::Error,
    output: &mut O,
    errors: &mut E,
) -> u8
    requires output { O.can_write output.old }
    requires errors { E.can_write errors.old }
    ensures status { result ≤ 4 }
    ensures silent { LeavesOutput result → IsUntouched (O.state output.old) (O.state output.new) }
    ensures quiet { result ≡ 0 → errors.new ≡ errors.old }

    // Wrong arguments write nothing to the output; only the help and the version do.
    ensures wrong { IsMistake (kind_of error.now) → RefusesWords result × (output.new ≡ output.old) }
    ensures help { ¬ IsMistake (kind_of error.now) → HelpEnds result (O.state output.old) (O.state output.new) }
    ensures refused { EndsRefused O.state result output.old output.new }
{
    let Ok(text) = usage_text(alloc, error) else {
        write_fault(errors, &RunFault::Memory);
        return MEMORY;
    };
    if error.use_stderr() {
        write_text(errors, text.as_bytes());
        return USAGE;
    }
    match put(output, text.as_bytes()) {
        Ok(()) => 0,
        Err(fault) => {
            write_fault(
                errors,
                &RunFault::Write {
                    written: fault.written,
                },
            );
            DEVICE
        }
    }
}

/// Does everything that the program does, and returns its exit status.
///
/// The first of `words` is the program's name. [`options`] checks the arguments. Then [`obey`] carries them out, or the
/// program prints what is wrong with them. Messages are written to the errors, and only the help and the version to the
/// output. A failed write to the errors is ignored. If the arguments ask for it, the writer next to the input gets how
/// much was read; it may be another handle of the errors' stream.
///
/// The exit statuses:
/// - 0: success.
/// - 1: the file is invalid, or can't be split into so few shards.
/// - 2: the arguments are invalid.
/// - 3: FILE can't be opened, or a read or a write failed.
/// - 4: out of memory.
/// - 5: the workers' answers make no forest.
///
/// It waits for the workers, and every worker has ended when it returns.
pub fn command<R, S, I, W, O, E>(
    rt: &R,
    words: &[S],
    input: &mut Watched<I, W>,
    output: &mut O,
    errors: &mut E,
) -> u8
where
    R: Files<File = File>
        + Alloc<A = Global>
        + Net<Listener = TcpListener, Stream = TcpStream>
        + Threads
        + Wait
        + Sync
        + Copy
        + Send
        + 'static,
    S: AsStr,
    I: Source,
    W: Write,
    O: Sink,
    E: Sink,
    requires input { I.can_read input.old.source }
    requires output { O.can_write output.old }
    requires errors { E.can_write errors.old }

    // It does what valid arguments ask for, on the input, on one FILE or on several. If every file is a FILE, the input
    // isn't touched.
    ensures obeys { refusals (map S.text words.now) ≡ [] → Obeys (asked_by (map S.text words.now)) result
        (standard I.Source O.Sink E.Sink input.old.source output.old errors.old)
        (standard I.Source O.Sink E.Sink input.new.source output.new errors.new) }
    ensures leaves_input { files_named (map S.text words.now) ≢ []
        → All IsSome (files_named (map S.text words.now)) → input.new.source ≡ input.old.source }

    // If the file is invalid or can't be split, the arguments are wrong, memory runs out, or the answers make no
    // forest, nothing is written to the output. If everything succeeds, no byte of the forest waits for a flush, as far
    // as the sink shows, and the errors get only the report. (The help is written, but not flushed.)
    ensures status { result ≤ 5 }
    ensures silent { LeavesOutput result → IsUntouched (O.state output.old) (O.state output.new) }
    ensures flushed { refusals (map S.text words.now) ≡ [] → result ≡ 0 → IsFlushed (O.unflushed output.new) }
    ensures quiet { is_set (map S.text words.now) (codes "report") ≡ false → result ≡ 0 → errors.new ≡ errors.old }
    ensures untold { is_set (map S.text words.now) (codes "progress") ≡ false → IsUntold input.old input.new }

    // The help and the version are written to the output, and wrong arguments touch nothing. Invalid arguments that
    // also ask for the help end in one of these two ways.
    ensures help { AskFor DisplayHelp (map S.text words.now)
        → (input.new ≡ input.old) × HelpEnds result (O.state output.old) (O.state output.new) }
    ensures version { AskFor DisplayVersion (map S.text words.now)
        → (input.new ≡ input.old) × HelpEnds result (O.state output.old) (O.state output.new) }
    ensures wrong { AreWrong (map S.text words.now)
        → RefusesWords result × (input.new ≡ input.old) × (output.new ≡ output.old) }
    ensures refused { refusals (map S.text words.now) ≢ []
        → (input.new ≡ input.old) × EndsRefused O.state result output.old output.new }
{
    match options(rt.alloc(), words) {
        Ok(chosen) => { obey(rt, &chosen, input, output, errors) }
        Err(OptionsFault::Usage(error)) => print_usage(rt.alloc(), &error, output, errors),
        Err(OptionsFault::Memory) => {
            write_fault(errors, &RunFault::Memory);
            MEMORY
        }
    }
}

/// Writes why the arguments of the command line couldn't be read, and returns the exit status: 4 for out of memory, and
/// otherwise 2, for an argument that isn't UTF-8.
pub fn without_words<E: Sink>(error: &io::Error, errors: &mut E) -> u8
    requires { E.can_write errors.old }
    ensures memory { error_kind error.now ≡ ErrorKind.OutOfMemory
        → (result ≡ 4) × IsWritten (message_line (codes "no memory")) (E.state errors.old) (E.state errors.new) }
    ensures wrong { error_kind error.now ≢ ErrorKind.OutOfMemory
        → (result ≡ 2) × IsWritten no_text_line (E.state errors.old) (E.state errors.new) }
{
    if error.kind() == ErrorKind::OutOfMemory {
        write_fault(errors, &RunFault::Memory);
        return MEMORY;
    }
    write_no_text(errors);
    USAGE
}
