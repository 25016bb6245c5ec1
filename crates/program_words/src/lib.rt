//! The program's arguments, messages and exit statuses: what is between a run and its user.
//!
//! ```text
//!     arguments of the command line --options--> Options, or OptionsFault
//!     Report, RunFault, FILE's name --write_report, write_fault, write_unopened--> a line on standard error
//!     RunFault --status_of--> status            PartFault --write_part_fault, status_of_part--> the same
//! ```
//!
//! What it promises:
//! - Arguments are accepted only if nothing is wrong with them, and each sets what it names. Numbers are in their
//!   ranges.
//! - A message is written whole, or until the sink first fails. A report and an error are written with their texts, and
//!   each error has its exit status.
//! - The name of a file is written in a message with its control characters escaped.
//!
//! To add an option, change `arguments` and `chosen`, with the table in `specs/Arguments`. To change a message, start
//! with `messages` and `specs/Messages`, and for names with `escapes`. To change an exit status, start with `statuses`
//! and `specs/Statuses`.
#![tactic(auto)]

mod arguments;
mod chosen;
mod escapes;
mod messages;
mod statuses;
mod usage;
mod version;

pub use arguments::{all_words, options};
pub use chosen::{MAX_THREADS, Options, OptionsFault};
pub use messages::{
    write_fault, write_given_twice, write_no_text, write_part_fault, write_progress, write_report,
    write_text, write_unopened,
};
pub use statuses::{ANSWERS, DEVICE, MEMORY, USAGE, status_of, status_of_part};
pub use usage::usage_text;
pub use version::RELEASE;
