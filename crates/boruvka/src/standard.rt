//! The standard streams, also if some of them are closed when the program starts.
ghost use Rattle.std.specs.Prelude.{◌≤◌};

use std::fs::{File, Files};
use std::os::fd::AsRawFd;

/// What the program reads, what it writes, and where it writes errors.
#[derive(Drop)]
pub struct StandardStreams<'i, 'o, 'e, I, O, E> {
    /// The text of the graph, if no FILE is named.
    pub input: &'i mut I,
    /// Gets the text of the forest, or the help.
    pub output: &'o mut O,
    /// Gets the report, or what went wrong.
    pub errors: &'e mut E,
}

/// Holds the standard descriptors that weren't open.
#[derive(Drop)]
pub struct ReservedDescriptors {
    _files: [Option<File>; 3],
}

// Holds each of the three standard descriptors that isn't open. Returns `None` if one of them may still be free.
fn hold_closed<R: Files<File = File>>(rt: &R) -> Option<ReservedDescriptors> {
    let mut files = [None, None, None];
    for place in &mut files {
        let folder = File::open(rt, "/").ok()?;
        if folder.as_raw_fd() > 2 {
            break;
        }
        *place = Some(folder);
    }
    Some(ReservedDescriptors { _files: files })
}

/// Returns how many of `workers` workers may be started while the first part of the result is kept.
///
/// It reserves each of the three standard descriptors that isn't open, so that no file or socket opened later gets its
/// number. The descriptor gets a directory, which can be neither read nor written, so the stream fails like a closed
/// one. If one of the descriptors may still be free, no worker may be started; otherwise all may.
pub fn workers_beside<R: Files<File = File>>(
    rt: &R,
    workers: u32,
) -> (Option<ReservedDescriptors>, u32)
    ensures { result.1 ≤ workers }
{
    match hold_closed(rt) {
        Some(reserved) => (Some(reserved), workers),
        None => (None, 0),
    }
}
