//! Runs on several files, whose edges are joined.
ghost use Rattle.std.specs.Prelude.{◌≡◌, ◌+◌, ◌<◌, ◌≤◌, ◌||◌, not, is_some, All, IsSome, IfOk, IfErr, false, length, option_map, string_bytes};
ghost use Rattle.plain_run.specs.declared.parts.TheConstants.{MAX_FILES};
ghost use Rattle.program_words.specs.Messages.{IsWritten};
ghost use Rattle.boruvka.specs.Asked.{files_of};
ghost use Rattle.boruvka.specs.Joined.{AddsFile, AddsFrom, AreAdded, EndsOnSeveral, StopsAt, not_opened_line, status_for_stop, stop_line};
ghost use Rattle.boruvka.specs.Joined.{name_of as the_name_of};
ghost use Rattle.boruvka.specs.Status.{KeepsStreams};
ghost use Rattle.boruvka.specs.Streams.{IsUntold, standard};

use crate::ends::write_end;
use crate::progress::Watched;
use byte_streams::{Sink, Source, Uncounted};
use plain_run::{Crew, ManyThreads, PartFault, Parts};
use program_words::{
    DEVICE, Options, status_of_part, write_given_twice, write_part_fault, write_unopened,
};
use std::alloc::{Alloc, Global};
use std::fs::{File, Files};
use std::io::Write;
use std::thread::Threads;

/// Why one of several files stops the run.
#[derive(Clone, Copy, Debug, PartialEq, Eq)]
pub enum JoinFault {
    /// The file can't be opened, or it is standard input and was already read as one of the others.
    Unopened,
    /// The file can't be joined with those before it.
    Part(PartFault),
}

// Adds one more part from a source.
fn add_source<C: Crew, I: Source>(
    crew: &C,
    parts: Parts,
    source: &mut I,
) -> Result<Parts, JoinFault>
    requires ready { C.ready }
    requires source { I.can_read source.old }
    requires room { parts.files < MAX_FILES }
    ensures added { AddsFrom (I.state source.old) (I.state source.new) parts result }
    ensures files { IfOk result (λ more. more.files ≡ parts.files + 1) }
{
    parts.add(crew, source).map_err(JoinFault::Part)
}

// Adds one more part from a file, and prints how much was read if that is wanted. A FILE is opened; the input is read
// only once.
fn add_file<R: Files<File = File>, C: Crew, I: Source, W: Write>(
    rt: &R,
    crew: &C,
    parts: Parts,
    file: &Option<String>,
    input: &mut Watched<I, W>,
    was_read: bool,
) -> Result<Parts, JoinFault>
    requires ready { C.ready }
    requires input { was_read ≡ false → I.can_read input.old.source }
    requires room { parts.files < MAX_FILES }
    ensures added { AddsFile (option_map string_bytes file.now) was_read (I.state input.old.source) (I.state input.new.source) parts result }
    ensures files { IfOk result (λ more. more.files ≡ parts.files + 1) }
    ensures leaves_input { IsSome file.now → input.new.source ≡ input.old.source }
    ensures untold { input.old.progress.now.is_wanted ≡ false → IsUntold input.old input.new × (input.new.progress.now.is_wanted ≡ false) }
{
    match file {
        Some(name) => {
            let Ok(file) = File::open(rt, name) else {
                return Err(JoinFault::Unopened);
            };
            if !input.progress.is_wanted {
                return add_source(crew, parts, &mut Uncounted(file));
            }
            let mut from_file = Watched {
                source: Uncounted(file),
                progress: &mut *input.progress,
            };
            add_source(crew, parts, &mut from_file)
        }
        None => {
            if was_read {
                return Err(JoinFault::Unopened);
            }
            if !input.progress.is_wanted {
                return add_source(crew, parts, &mut input.source);
            }
            add_source(crew, parts, input)
        }
    }
}

// Whether the input has been read, after this file and those before it.
fn is_read_by(was_read: bool, file: &Option<String>) -> bool
    ensures { result ≡ (was_read || not (is_some file.now)) }
{
    was_read || file.is_none()
}

// Adds the files as parts, in their order, or returns the first file that can't be added.
fn add_files<'a, R: Files<File = File> + Alloc<A = Global> + Threads + Sync, I: Source, W: Write>(
    rt: &R,
    chosen: &'a Options,
    input: &mut Watched<I, W>,
) -> Result<Parts, (&'a Option<String>, JoinFault)>
    requires input { I.can_read input.old.source }
    requires few { length chosen.now.files.items ≤ MAX_FILES }
    ensures joined { IfOk result (λ parts. AreAdded (files_of chosen.now) parts (I.state input.old.source) (I.state input.new.source)) }
    ensures stopped { IfErr result (λ (file, why). StopsAt (files_of chosen.now) (option_map string_bytes file.now) why
        (I.state input.old.source) (I.state input.new.source)) }
    ensures leaves_input { All IsSome chosen.now.files.items → input.new.source ≡ input.old.source }
    ensures untold { chosen.now.progress ≡ false → IsUntold input.old input.new }
{
    let crew = ManyThreads {
        rt,
        threads: chosen.threads as usize,
    };
    let files = chosen.files.as_slice();
    input.progress.want(chosen.progress);
    let mut parts = Parts::new(rt.alloc());
    let mut was_read = false;
    for file in files {
        input.progress.is_last = parts.files() as usize + 1 == files.len();
        match add_file(rt, &crew, parts, file, input, was_read) {
            Ok(more) => parts = more,
            Err(fault) => return Err((file, fault)),
        }
        was_read = is_read_by(was_read, file);
    }
    Ok(parts)
}

// The name of a file in messages.
fn name_of(file: &Option<String>) -> &str
    ensures { result.now ≡ the_name_of (option_map string_bytes file.now) }
{
    match file {
        Some(name) => name.as_str(),
        None => "-",
    }
}

// Writes that a file can't be opened, or that standard input is named a second time.
fn write_not_opened<E: Sink>(file: &Option<String>, errors: &mut E)
    requires { E.can_write errors.old }
    ensures { IsWritten (not_opened_line (option_map string_bytes file.now)) (E.state errors.old) (E.state errors.new) }
{
    match file {
        Some(name) => write_unopened(errors, name.as_str()),
        None => write_given_twice(errors),
    }
}

// Writes why a file stopped the run, and returns the exit status.
fn write_stop<E: Sink>(file: &Option<String>, fault: &JoinFault, errors: &mut E) -> u8
    requires { E.can_write errors.old }
    ensures status { result ≡ status_for_stop fault.now }
    ensures told { IsWritten (stop_line (option_map string_bytes file.now) fault.now)
        (E.state errors.old) (E.state errors.new) }
{
    match fault {
        JoinFault::Unopened => {
            write_not_opened(file, errors);
            DEVICE
        }
        JoinFault::Part(fault) => {
            write_part_fault(errors, name_of(file), fault);
            status_of_part(fault)
        }
    }
}

/// Writes the text of the forest of all edges of the requested files, and returns the exit status.
///
/// The files are read in their order; `None` is the input. If a file can't be joined, only the reason is written. No
/// worker is started. The writer next to the input gets how much was read in total, if the arguments ask for that.
pub fn run_joined<
    R: Files<File = File> + Alloc<A = Global> + Threads + Sync,
    I: Source,
    W: Write,
    O: Sink,
    E: Sink,
>(rt: &R, chosen: &Options, input: &mut Watched<I, W>, output: &mut O, errors: &mut E) -> u8
    requires several { 2 ≤ length chosen.now.files.items }
    requires few { length chosen.now.files.items ≤ MAX_FILES }
    requires input { I.can_read input.old.source }
    requires output { O.can_write output.old }
    requires errors { E.can_write errors.old }
    ensures ends { EndsOnSeveral (files_of chosen.now) chosen.now.report result
        (standard I.Source O.Sink E.Sink input.old.source output.old errors.old)
        (standard I.Source O.Sink E.Sink input.new.source output.new errors.new) }
    ensures leaves_input { All IsSome chosen.now.files.items → input.new.source ≡ input.old.source }
    ensures kept { KeepsStreams O.Sink chosen.now.plain chosen.now.report result output.old errors.old output.new errors.new }
    ensures plain { result ≤ 4 }
    ensures untold { chosen.now.progress ≡ false → IsUntold input.old input.new }
{
    match add_files(rt, chosen, input) {
        Ok(parts) => {
            let ended = parts.write_threads(rt, chosen.threads as usize, output);
            write_end(chosen.report, &ended, errors)
        }
        Err((file, fault)) => write_stop(file, &fault, errors),
    }
}
