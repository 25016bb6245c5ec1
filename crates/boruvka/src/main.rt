//! The program. It reads a graph in the `.gr` format and writes the text of its minimum spanning forest. It runs with
//! workers, which are threads at the far ends of loopback connections, or without them, with one thread or several.
//!
//! ```text
//! arguments --program_words::options--> Options --command::obey--> a run over FILE or standard input --> status
//!                                                   \--program_words::write_..--> standard error
//!   a run: tcp_lines::Workers::start, command::run_over, Workers::join;
//!          with --plain forest_run::run_plain, run_threads, of several files joined::run_joined
//! ```
//!
//! What it promises:
//! - The output gets a prefix of the forest's text, and the whole text if the status is 0; or it gets the help. The
//!   exit status is one of six ([`command::obey`]).
//! - Standard error gets the requested report, or the line that says why the run failed. The usage message and the
//!   progress that `--progress` asks for are only tested.
//! - Without workers the forest is the minimum one. With workers it is, if they answer as the engine does, which no
//!   contract can see for sockets. Whatever they answer, the forest spans the graph ([`command::run_over`]).
//!
//! To change what the program does, and in which order, start with `command` and `specs/Asked`. To change how a run
//! ends, start with `specs/Status`, and for several files with `joined` and `specs/Joined`. `standard` keeps the
//! standard streams apart from sockets, and `progress` prints how much was read. The arguments, the messages and the
//! exit statuses are in `program_words`.
#![tactic(auto)]

mod command;
mod ends;
mod joined;
mod progress;
mod standard;
#[cfg(test)]
mod tests;

use byte_streams::Uncounted;
use progress::{OwnLine, Progress, Watched};
use std::cell::Cell;
use std::process::ExitCode;
use std::{env, io};

fn main(rt: HostRuntime) -> ExitCode {
    let is_line_open = Cell::new(false);
    let mut errors = OwnLine::new(Uncounted(rt.stderr()), rt.stderr(), &is_line_open);
    let words = match env::args(&rt) {
        Ok(words) => program_words::all_words(rt.alloc(), words).map_err(io::Error::from),
        Err(error) => Err(error),
    };
    let status = match words {
        Ok(words) => command::command(
            &rt,
            words.as_slice(),
            &mut Watched {
                source: Uncounted(rt.stdin()),
                progress: &mut Progress::new(rt.stderr(), &is_line_open),
            },
            &mut Uncounted(rt.stdout()),
            &mut errors,
        ),
        Err(error) => command::without_words(&error, &mut errors),
    };
    ExitCode::from(status)
}
