//! Writes lines for the user to standard error without allocating. Failed writes are ignored.
ghost use Rattle.std.specs.Prelude.{◌+◌, ◌≤◌, ◌++◌, length, OnOk, IfErr};
ghost use Rattle.program_words.specs.declared.escapes.TheConstants.{END_ROOM, NAMED_LINE_ROOM};
ghost use Rattle.arrayvec.specs.ArrayString.{array_string_len};
ghost use Rattle.byte_streams.specs.Streams.{Took, WentOut};
ghost use Rattle.program_words.specs.Messages.{IsWritten, IsPartWritten, escaped, escaped_char};
ghost use Rattle.program_words.specs.Messages.{report_line, fault_line, part_line, progress_line, no_text_line, given_twice_line, unopened_line};

use crate::escapes::{END_ROOM, ESCAPED_ROOM, NAMED_LINE_ROOM, push_escaped};
use arrayvec::ArrayString;
use byte_streams::{PutFault, Sink, put};
use itoa::Buffer;
use plain_run::{LINE_ROOM, PartFault, Report, RunFault};

/// Writes a text, until the sink first fails.
pub fn write_text<S: Sink>(sink: &mut S, text: &[u8])
    requires { S.can_write sink.old }
    ensures { IsWritten text.now (S.state sink.old) (S.state sink.new) }
{
    match put(sink, text) {
        Ok(()) => {}
        Err(_) => {}
    }
}

/// Writes a report as a line, with the text of [`Report`], in one write if the sink takes it whole.
pub fn write_report<S: Sink>(sink: &mut S, report: &Report)
    requires { S.can_write sink.old }
    ensures { IsWritten (report_line report.now) (S.state sink.old) (S.state sink.new) }
{
    let mut line = ArrayString::<LINE_ROOM>::new();
    line.push_str(report.text().as_str());
    line.push_str("\n");
    write_text(sink, line.as_str().as_bytes());
}

// The size of the buffer for the line that says how much was read. A number has at most 40 digits.
const PROGRESS_ROOM: usize = 64;

/// Writes `read` in millions of bytes, and this end of the line, in one write if the sink takes it whole.
pub fn write_progress<S: Sink>(sink: &mut S, read: u64, end: &str) -> Result<(), PutFault>
    requires sink { S.can_write sink.old }
    requires end { length end.now ≤ 2 }
    ensures whole { OnOk result (Took 0 (progress_line read end.now) (S.state sink.old) (S.state sink.new)) }
    ensures part { IfErr result (λ fault. WentOut fault.written (progress_line read end.now)
        (S.state sink.old) (S.state sink.new)) }
    ensures again { OnOk result (S.can_write sink.new) }
{
    let mut digits = Buffer::new();
    let mut line = ArrayString::<PROGRESS_ROOM>::new();
    line.push_str("read ");
    line.push_str(digits.format(read / 1_000_000));
    line.push_str(" MB");
    line.push_str(end);
    put(sink, line.as_str().as_bytes())
}

/// Writes why a run failed as a line after the program's name, with the text of [`RunFault`], in one write if the sink
/// takes it whole.
pub fn write_fault<S: Sink>(sink: &mut S, fault: &RunFault)
    requires { S.can_write sink.old }
    ensures { IsWritten (fault_line fault.now) (S.state sink.old) (S.state sink.new) }
{
    let mut line = ArrayString::<LINE_ROOM>::new();
    line.push_str("boruvka: ");
    line.push_str(fault.text().as_str());
    line.push_str("\n");
    write_text(sink, line.as_str().as_bytes());
}

/// Writes that an argument of the command line isn't UTF-8, as a line after the program's name.
pub fn write_no_text<S: Sink>(sink: &mut S)
    requires { S.can_write sink.old }
    ensures { IsWritten no_text_line (S.state sink.old) (S.state sink.new) }
{
    write_text(sink, b"boruvka: an argument is not UTF-8\n");
}

/// Writes that `-` is given twice, as a line after the program's name: standard input is read only once.
pub fn write_given_twice<S: Sink>(sink: &mut S)
    requires { S.can_write sink.old }
    ensures { IsWritten given_twice_line (S.state sink.old) (S.state sink.new) }
{
    write_text(sink, b"boruvka: - is given twice\n");
}

// Appends a character to a line, escaped. If too little space may be left for it and an end, the line so far is written
// first.
fn push_or_write<S: Sink>(
    sink: &mut S,
    line: &mut ArrayString<NAMED_LINE_ROOM>,
    c: char,
) -> Result<(), PutFault>
    requires { S.can_write sink.old }
    ensures went { OnOk result (IsPartWritten (line.old.bytes ++ escaped_char c) line.new.bytes
        (S.state sink.old) (S.state sink.new)) }
    ensures room { OnOk result (array_string_len line.new + END_ROOM ≤ NAMED_LINE_ROOM) }
    ensures again { OnOk result (S.can_write sink.new) }
    ensures part { IfErr result (λ fault. WentOut fault.written line.old.bytes
        (S.state sink.old) (S.state sink.new)) }
{
    if line.remaining_capacity() <= ESCAPED_ROOM + END_ROOM {
        put(sink, line.as_str().as_bytes())?;
        line.clear();
    }
    push_escaped(line, c);
    Ok(())
}

// Writes a name between two texts, in one write if all have at most 4200 bytes.
//
// Control characters in the name could fake a line on a terminal, so they are escaped: each of their bytes is written
// as `\x` and two hex digits. All other characters stay as they are, even a backslash.
fn write_named<S: Sink>(sink: &mut S, front: &str, name: &str, end: &str)
    requires can { S.can_write sink.old }
    requires front { length front.now ≤ 64 }
    requires end { length end.now ≤ END_ROOM }
    ensures { IsWritten (front.now ++ (escaped name.now ++ end.now)) (S.state sink.old) (S.state sink.new) }
{
    let mut line = ArrayString::<NAMED_LINE_ROOM>::new();
    line.push_str(front);
    for c in name.chars() {
        match push_or_write(sink, &mut line, c) {
            Ok(()) => {}
            Err(_) => return,
        }
    }
    line.push_str(end);
    write_text(sink, line.as_str().as_bytes());
}

/// Writes that a file can't be opened, in one write if the line has at most 4200 bytes.
///
/// The control characters of its name are written as the hex digits of their bytes.
pub fn write_unopened<S: Sink>(sink: &mut S, name: &str)
    requires { S.can_write sink.old }
    ensures { IsWritten (unopened_line name.now) (S.state sink.old) (S.state sink.new) }
{
    write_named(sink, "boruvka: cannot open ", name, "\n");
}

/// Writes a file's name, as [`write_unopened`] does, and why the file can't be part of the graph, with the text of
/// [`PartFault`].
pub fn write_part_fault<S: Sink>(sink: &mut S, name: &str, fault: &PartFault)
    requires { S.can_write sink.old }
    ensures { IsWritten (part_line name.now fault.now) (S.state sink.old) (S.state sink.new) }
{
    let mut end = ArrayString::<LINE_ROOM>::new();
    end.push_str(": ");
    end.push_str(fault.text().as_str());
    end.push_str("\n");
    write_named(sink, "boruvka: ", name, end.as_str());
}
