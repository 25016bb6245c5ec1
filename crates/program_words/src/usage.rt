//! The text of an error of the arguments.

use clap::error::ErrorKind;
use std::alloc::{AllocError, Global};

/// The text that is printed for an error of the arguments, or for the help.
///
/// It is clap's, but it doesn't advise to pass an unknown option as a FILE, and it says in words what is wrong with a
/// number. It takes time and memory linear in clap's text.
pub fn usage_text(alloc: Global, error: &clap::Error) -> Result<String, AllocError> {
    let text = format!(in alloc; "{error}")?;
    match error.kind() {
        ErrorKind::UnknownArgument => without_tip(alloc, text.as_str()),
        ErrorKind::ValueValidation => in_words(alloc, text.as_str()),
        _ => Ok(text),
    }
}

// The tip stands between the first line and the usage.
fn without_tip(alloc: Global, text: &str) -> Result<String, AllocError> {
    let Some((front, rest)) = text.split_once("\n\n  tip: to pass '") else {
        return String::from_str(alloc, text);
    };
    let Some((_, usage)) = rest.rsplit_once("\n\nUsage: ") else {
        return String::from_str(alloc, text);
    };
    format!(in alloc; "{front}\n\nUsage: {usage}")
}

// The reason is what follows the last `': `, so that a value of the user stays as it was typed.
fn in_words(alloc: Global, text: &str) -> Result<String, AllocError> {
    let Some((front, reason)) = text.rsplit_once("': ") else {
        return String::from_str(alloc, text);
    };
    let reason = reason.replace(alloc, "..=", " to ")?;
    let reason = reason.as_str().replace(
        alloc,
        "invalid digit found in string",
        "not a whole number",
    )?;
    let reason = reason
        .as_str()
        .replace(alloc, "number too", "the number is too")?;
    let reason = reason
        .as_str()
        .replace(alloc, " to fit in target type", "")?;
    format!(in alloc; "{front}': {reason}")
}
