ghost use Rattle.std.specs.Prelude.{◌≡◌, ◌≤◌, length, All, IfOk};
ghost use Rattle.limits.specs.declared.TheConstants.{MAX_WORKERS};
ghost use Rattle.wires.specs.Lines.{HasRoom};
ghost use Rattle.ports.specs.Testing.{line_of_script};

use crate::command::{command, run_over, without_words};
use crate::progress::{OwnLine, Progress, Watched};
use crate::standard::{StandardStreams, workers_beside};
use byte_streams::{FusedSink, FusedSource, Uncounted, put};
use forest_run::{Report, RunFault};
use gr_text::{GrFault, GrKind, ReadFault};
use links::{CutFault, Link};
use ports::ScriptLine;
use program_words::{
    OptionsFault, all_words, options, status_of, write_fault, write_report, write_text,
};
use std::alloc::{Alloc, AllocError, Global};
use std::cell::Cell;
use std::env;
use std::fmt::Debug;
use std::fs::{self, File, Files};
use std::io::{self, ErrorKind, Write};
use std::net::{Net, TcpListener, TcpStream};
use std::process::Abort;
use std::sync::Wait;
use std::thread::Threads;
use wires::Line;

const SMALL_NET: &[u8; 108] =
    b"c a small net\np sp 6 8\na 1 2 17\nc the usual shape\na 1 3 10\na 2 4 2\na 3 5 0\na 4 3 0\na 4 6 3\na 5 2 0\na 5 6 20\n";

const SMALL_FOREST: &[u8; 50] = b"p sp 6 5\na 2 5 0\na 3 4 0\na 3 5 0\na 4 6 3\na 1 3 10\n";

const HELP: &str = "Compute the minimum spanning forest of a weighted graph in DIMACS .gr format.

Usage: boruvka [OPTIONS] [FILE]...

Arguments:
  [FILE]...  Input graph; standard input if omitted or -; with --plain, several are joined

Options:
      --plain        Solve without workers: the fastest mode, and the one for untrusted files
      --threads <N>  With --plain, use up to N threads: 1 to 64 [default: 1]
      --workers <N>  Number of workers that scan the shards: 0 to 64 [default: 2]
      --shards <S>   Number of shards that the edges are split into: 1 to 4096 [default: 64]
      --report       Print counts and the forest's total weight to standard error
      --progress     Show on standard error how much was read, after every 16 MB
  -h, --help         Print help
  -V, --version      Print version

Exit status:
  0  Success
  1  FILE is malformed, doesn't match the FILEs before it, or needs more shards
  2  Invalid arguments
  3  FILE can't be opened, or a read or a write failed
  4  Out of memory
  5  The workers' answers don't form a spanning forest

Without --plain, each round sends 4 bytes per vertex and shard to the workers:
17 GB for 67108864 vertices and 64 shards.

Examples:
  boruvka --plain net.gr > forest.gr
  gzip -t net.gr.gz && gzip -dc net.gr.gz | boruvka --plain > forest.gr

The manual page boruvka(1) has the file format and its errors.
";

// Both values are the same. A call of this function costs less in the caller's proof than an assertion does. For the
// same reason the tests expect every allocation to succeed: where a `?` returns an error, the proof has to drop
// everything that is alive. If many values are compared in turn, both sides include the index.
fn expect_same<T: PartialEq + Debug + Drop>(rt: &impl Abort, found: T, expected: T) {
    assert_eq!(rt; found, expected);
}

// The program returns this status for these arguments and this input, and writes exactly these texts.
fn expect(
    rt: &(impl Abort
        + Files<File = File>
        + Alloc<A = Global>
        + Net<Listener = TcpListener, Stream = TcpStream>
        + Threads
        + Wait
        + Sync
        + Copy
        + Send
        + 'static),
    words: &[&str],
    input: &[u8],
    status: u8,
    output: &[u8],
    errors: &[u8],
) {
    let mut out = Vec::new(rt.alloc());
    let mut err = Vec::new(rt.alloc());
    let is_line_open = Cell::new(false);
    let mut told = Progress::new(Vec::new(rt.alloc()), &is_line_open);
    let mut source = Watched {
        source: input,
        progress: &mut told,
    };
    let ended = command(rt, words, &mut source, &mut out, &mut err);
    expect_same(rt, told.writer.0.is_empty(), true);
    expect_same(rt, ended, status);
    expect_same(rt, out.as_slice(), output);
    expect_same(rt, err.as_slice(), errors);
}

#[test]
fn writes_the_forest(rt: HostRuntime) {
    let report =
        b"vertices=6 links=8 rounds=0 shards=0 asked=0 answered=0 alone=0 closed=0 total=13\n".as_slice();
    let words = ["boruvka", "--plain"];
    expect(&rt, &words, SMALL_NET, 0, SMALL_FOREST, b"");
    let words = ["boruvka", "--plain", "--report"];
    expect(&rt, &words, SMALL_NET, 0, SMALL_FOREST, report);
}

#[test]
fn reads_a_named_file(rt: HostRuntime) {
    let name = "small_net_for_a_test.gr";
    let mut file = File::create(&rt, name).expect(&rt, "a file");
    file.write_all(SMALL_NET).expect(&rt, "bytes written");
    drop(file);
    let words = ["boruvka", "--plain", name];
    expect(&rt, &words, b"", 0, SMALL_FOREST, b"");
    fs::remove_file(&rt, name).expect(&rt, "a file");
}

// The arcs of the small graph in two files, and each of them again: FILE and standard input, in either order.
#[test]
fn joins_several_files(rt: HostRuntime) {
    let name = "half_a_net_for_a_test.gr";
    let one = b"p sp 6 4\na 1 2 17\na 1 3 10\na 2 4 2\na 3 5 0\n";
    let two = b"p sp 6 4\na 4 3 0\na 4 6 3\na 5 2 0\na 5 6 20\n";
    let mut file = File::create(&rt, name).expect(&rt, "a file");
    file.write_all(one).expect(&rt, "bytes written");
    drop(file);
    let report =
        b"vertices=6 links=12 rounds=0 shards=0 asked=0 answered=0 alone=0 closed=0 total=13\n";
    let words = ["boruvka", "--plain", "--report", name, "-", name];
    expect(&rt, &words, two, 0, SMALL_FOREST, report);
    let words = ["boruvka", "--plain", "--threads", "2", "-", name];
    expect(&rt, &words, two, 0, SMALL_FOREST, b"");
    let words = ["boruvka", "--plain", name, "-"];
    let other = b"boruvka: -: 5 vertices in place of 6\n";
    expect(&rt, &words, b"p sp 5 0\n", 1, b"", other);
    let early = b"boruvka: -: line 1: NoProblemYet\n";
    expect(&rt, &words, b"a 1 2 3\n", 1, b"", early);
    let again = b"boruvka: - is given twice\n";
    let words = ["boruvka", "--plain", "-", name, "-", "no/such/file"];
    expect(&rt, &words, two, 3, b"", again);
    fs::remove_file(&rt, name).expect(&rt, "a file");
}

// No file after the first one that can't be joined is opened or read.
#[test]
fn stops_at_the_first_file_that_is_no_part(rt: HostRuntime) {
    let unopened = b"boruvka: cannot open no/such/file\n";
    let words = ["boruvka", "--plain", "no/such/file", "/", "-"];
    expect(&rt, &words, b"", 3, b"", unopened);
    let folder = b"boruvka: /: line 1: read failed\n";
    let words = ["boruvka", "--plain", "/", "no/such/file"];
    expect(&rt, &words, SMALL_NET, 3, b"", folder);
}

#[test]
fn refuses_several_files_without_the_plain_word(rt: HostRuntime) {
    let without =
        b"error: several FILEs need --plain\n\nUsage: boruvka [OPTIONS] [FILE]...\n\nFor more information, try '--help'.\n";
    expect(&rt, &["boruvka", "-", "-"], SMALL_NET, 2, b"", without);
}

#[test]
fn refuses_a_file_by_its_first_fault(rt: HostRuntime) {
    let words = ["boruvka", "--plain"];
    let late = b"boruvka: line 1: NoProblemYet\n";
    expect(&rt, &words, b"a 1 2 3\np sp 2 1\n", 1, b"", late);
    let empty = b"boruvka: line 1: MissingProblem\n";
    expect(&rt, &words, b"", 1, b"", empty);
    let missing = b"boruvka: line 3: MissingArcs\n";
    expect(&rt, &words, b"p sp 2 2\na 1 2 5", 1, b"", missing);
    expect(&rt, &words, b"p sp 2 2\na 1 2 5\n", 1, b"", missing);
}

#[test]
fn prints_a_file_that_cannot_be_read(rt: HostRuntime) {
    let unopened = b"boruvka: cannot open no/such/file\n";
    let words = ["boruvka", "--plain", "no/such/file"];
    expect(&rt, &words, SMALL_NET, 3, b"", unopened);
    let folder = b"boruvka: line 1: read failed\n";
    expect(&rt, &["boruvka", "--plain", "/"], SMALL_NET, 3, b"", folder);
}

// With workers the forest is the same, whatever their number.
#[test]
fn runs_over_workers(rt: HostRuntime) {
    let report =
        b"vertices=6 links=8 rounds=2 shards=2 asked=6 answered=6 alone=0 closed=0 total=13\n";
    let words = ["boruvka", "--workers", "2", "--shards", "2", "--report"];
    expect(&rt, &words, SMALL_NET, 0, SMALL_FOREST, report);
    let report =
        b"vertices=6 links=8 rounds=2 shards=2 asked=0 answered=0 alone=6 closed=0 total=13\n";
    let words = ["boruvka", "--workers", "0", "--shards", "2", "--report"];
    expect(&rt, &words, SMALL_NET, 0, SMALL_FOREST, report);
    expect(&rt, &["boruvka"], SMALL_NET, 0, SMALL_FOREST, b"");
}

// The workers also end if the run fails.
#[test]
fn refuses_a_file_over_workers(rt: HostRuntime) {
    let late = b"boruvka: line 1: NoProblemYet\n";
    expect(&rt, &["boruvka"], b"a 1 2 3\np sp 2 1\n", 1, b"", late);
    let unopened = b"boruvka: cannot open no/such/file\n";
    let words = ["boruvka", "no/such/file"];
    expect(&rt, &words, SMALL_NET, 3, b"", unopened);
}

// With these arguments the output takes these ten bytes, and then a write fails.
fn expect_broken_off(
    rt: &(impl Abort
        + Files<File = File>
        + Alloc<A = Global>
        + Net<Listener = TcpListener, Stream = TcpStream>
        + Threads
        + Wait
        + Sync
        + Copy
        + Send
        + 'static),
    words: &[&str],
    held: &[u8],
) {
    let is_line_open = Cell::new(false);
    let mut input = Watched {
        source: SMALL_NET.as_slice(),
        progress: &mut Progress::new(Vec::new(rt.alloc()), &is_line_open),
    };
    let mut output = FusedSink::new(rt.alloc(), 10, 7).expect(rt, "memory");
    let mut errors = Vec::new(rt.alloc());
    let ended = command(rt, words, &mut input, &mut output, &mut errors);
    expect_same(rt, ended, 3);
    expect_same(rt, output.held(), held);
    let line = b"boruvka: write failed after 10 bytes\n".as_slice();
    expect_same(rt, errors.as_slice(), line);
}

#[test]
fn prints_how_much_was_written(rt: HostRuntime) {
    expect_broken_off(&rt, &["boruvka", "--plain"], b"p sp 6 5\na");
    expect_same(&rt, status_of(&RunFault::Memory), 4);
}

// An error has this line and this exit status.
fn expect_line(rt: &(impl Abort + Alloc<A = Global>), fault: RunFault, status: u8, line: &[u8]) {
    let mut errors = Vec::new(rt.alloc());
    write_fault(&mut errors, &fault);
    expect_same(rt, errors.as_slice(), line);
    expect_same(rt, status_of(&fault), status);
}

#[test]
fn prints_what_the_cut_and_the_workers_made_impossible(rt: HostRuntime) {
    let link = Link::of_arc(1, 2, 17).expect(&rt, "a link");
    let missed = b"boruvka: link 1 2 17 was missed\n";
    expect_line(&rt, RunFault::Missed { link }, 5, missed);
    let late = b"boruvka: round 2 is past the bound\n";
    expect_line(&rt, RunFault::Rounds { round: 2 }, 5, late);
    let large = b"boruvka: cut refused: ShardTooLarge\n";
    expect_line(&rt, RunFault::Cut(CutFault::ShardTooLarge), 1, large);
}

// Each error is printed with the library's text.
#[test]
fn prints_each_fault_in_its_own_text(rt: HostRuntime) {
    let kinds = [
        GrKind::UnknownLine,
        GrKind::NoProblemYet,
        GrKind::SecondProblem,
        GrKind::BadProblem,
        GrKind::TooLarge,
        GrKind::BadArc,
        GrKind::EndOutOfRange,
        GrKind::WeightOutOfRange,
        GrKind::TooManyArcs,
        GrKind::MissingProblem,
        GrKind::MissingArcs,
    ];
    let most = 18_446_744_073_709_551_615;
    let lowest = -2_147_483_648;
    let link = Link::of_arc(1, 67_108_864, lowest).expect(&rt, "a link");
    let others = [
        RunFault::Read(ReadFault::Source { line: most }),
        RunFault::Read(ReadFault::TooLong),
        RunFault::Read(ReadFault::Memory),
        RunFault::Cut(CutFault::NoShards),
        RunFault::Cut(CutFault::TooManyShards),
        RunFault::Cut(CutFault::ShardTooLarge),
        RunFault::Cut(CutFault::BadPlaces),
        RunFault::Cut(CutFault::Memory),
        RunFault::Rounds {
            round: 4_294_967_295,
        },
        RunFault::Missed { link },
        RunFault::Memory,
        RunFault::Write { written: most },
    ];
    let mut faults = Vec::from_array(rt.alloc(), others).expect(&rt, "memory");
    for kind in kinds {
        let fault = RunFault::Read(ReadFault::Gr(GrFault { line: most, kind }));
        faults.push(fault).expect(&rt, "memory");
    }
    for fault in &faults {
        let mut errors = Vec::new(rt.alloc());
        write_fault(&mut errors, fault);
        let line = format!(in rt.alloc(); "boruvka: {fault}\n").expect(&rt, "memory");
        expect_same(&rt, errors.as_slice(), line.as_str().as_bytes());
    }
}

#[test]
fn prints_the_help(rt: HostRuntime) {
    let words = ["boruvka", "--help"];
    expect(&rt, &words, SMALL_NET, 0, HELP.as_bytes(), b"");
}

#[test]
fn names_each_option_in_the_help(rt: HostRuntime) {
    let Err(OptionsFault::Usage(help)) = options(rt.alloc(), &["boruvka", "-h"]) else {
        panic!(rt; "the help was asked for");
    };
    let text = format!(in rt.alloc(); "{help}").expect(&rt, "memory");
    for option in [
        "--workers",
        "--shards",
        "--plain",
        "--threads",
        "--report",
        "--progress",
        "--help",
        "FILE",
    ] {
        let is_named = text.as_str().contains(option);
        expect_same(&rt, (option, is_named), (option, true));
    }
}

#[test]
fn ignores_errors_that_fail(rt: HostRuntime) {
    let words = ["boruvka", "--plain", "--report"];
    let late = b"a 1 2 3\np sp 2 1\n".as_slice();
    let files = [
        (SMALL_NET.as_slice(), 0, SMALL_FOREST.as_slice()),
        (late, 1, b"".as_slice()),
    ];
    for (file, status, text) in files {
        let is_line_open = Cell::new(false);
        let mut input = Watched {
            source: file,
            progress: &mut Progress::new(Vec::new(rt.alloc()), &is_line_open),
        };
        let mut output = Vec::new(rt.alloc());
        let mut errors = FusedSink::new(rt.alloc(), 0, 1).expect(&rt, "memory");
        let ended = command(&rt, &words, &mut input, &mut output, &mut errors);
        expect_same(&rt, ended, status);
        expect_same(&rt, output.as_slice(), text);
        expect_same(&rt, errors.held().is_empty(), true);
    }
}

#[test]
fn reports_only_what_ended_well(rt: HostRuntime) {
    let words = ["boruvka", "--plain", "--report"];
    let empty = b"boruvka: line 1: MissingProblem\n";
    expect(&rt, &words, b"", 1, b"", empty);
    expect_broken_off(&rt, &words, b"p sp 6 5\na");
}

// The source gives the first line and three bytes of the second, and then fails. With `--progress` the result is the
// same.
#[test]
fn prints_the_line_of_a_failed_read(rt: HostRuntime) {
    let words = ["boruvka", "--plain", "--progress"];
    for count in [2, 3] {
        let file = Vec::from_slice(rt.alloc(), b"p sp 2 2\na 1 2 5").expect(&rt, "memory");
        let is_line_open = Cell::new(false);
        let mut input = Watched {
            source: FusedSource::new(file, 12, 5),
            progress: &mut Progress::new(Vec::new(rt.alloc()), &is_line_open),
        };
        let mut output = Vec::new(rt.alloc());
        let mut errors = Vec::new(rt.alloc());
        let status = command(&rt, &words[..count], &mut input, &mut output, &mut errors);
        expect_same(&rt, status, 3);
        expect_same(&rt, output.is_empty(), true);
        expect_same(
            &rt,
            errors.as_slice(),
            b"boruvka: line 2: read failed\n".as_slice(),
        );
    }
}

// A progress line is ended once, before the error is written, and through the other handle.
#[test]
fn ends_an_open_line_before_it_writes(rt: HostRuntime) {
    let is_line_open = Cell::new(true);
    let mut handle = Vec::new(rt.alloc());
    let mut errors = OwnLine::new(Vec::new(rt.alloc()), &mut handle, &is_line_open);
    expect_same(&rt, put(&mut errors, b"boruvka: "), Ok(()));
    expect_same(&rt, put(&mut errors, b"no memory\n"), Ok(()));
    expect_same(&rt, is_line_open.get(), false);
    drop(errors);
    expect_same(&rt, handle.as_slice(), b"\n".as_slice());
}

// A writer that counts its writes.
#[derive(Drop)]
struct CountingWriter {
    writes: usize,
    taken: Vec<u8>,
}

impl Write for CountingWriter {
    fn write(&mut self, buf: &[u8]) -> io::Result<usize> {
        self.writes = self.writes.saturating_add(1);
        Write::write(&mut self.taken, buf)
    }

    fn flush(&mut self) -> io::Result<()> {
        Ok(())
    }
}

// The line for a file with this name that can't be opened is written in one write.
fn expect_one_write(
    rt: &(impl Abort
        + Files<File = File>
        + Alloc<A = Global>
        + Net<Listener = TcpListener, Stream = TcpStream>
        + Threads
        + Wait
        + Sync
        + Copy
        + Send
        + 'static),
    name: &str,
    line: &str,
) {
    let is_line_open = Cell::new(false);
    let mut input = Watched {
        source: SMALL_NET.as_slice(),
        progress: &mut Progress::new(Vec::new(rt.alloc()), &is_line_open),
    };
    let mut output = Vec::new(rt.alloc());
    let mut errors = Uncounted(CountingWriter {
        writes: 0,
        taken: Vec::new(rt.alloc()),
    });
    let words = ["boruvka", "--plain", name];
    let ended = command(rt, &words, &mut input, &mut output, &mut errors);
    expect_same(rt, ended, 3);
    expect_same(rt, output.is_empty(), true);
    expect_same(rt, errors.0.taken.as_slice(), line.as_bytes());
    expect_same(rt, errors.0.writes, 1);
}

#[test]
fn prints_a_long_name_in_one_write(rt: HostRuntime) {
    for length in [200, 300, 4095, 4096, 4178] {
        let name = "n".repeat(rt.alloc(), length).expect(&rt, "memory");
        let line = format!(in rt.alloc(); "boruvka: cannot open {name}\n").expect(&rt, "memory");
        expect_one_write(&rt, name.as_str(), line.as_str());
    }
}

// A name whose line is longer is written in several writes, and completely.
#[test]
fn prints_each_byte_of_a_longer_name(rt: HostRuntime) {
    for (part, escaped) in [("n", "n"), ("\u{1b}", "\\x1b"), ("\u{20ac}", "\u{20ac}")] {
        for length in [4162, 4163, 4164, 9000] {
            let name = part.repeat(rt.alloc(), length).expect(&rt, "memory");
            let shown = escaped.repeat(rt.alloc(), length).expect(&rt, "memory");
            let line = format!(in rt.alloc(); "boruvka: cannot open {shown}\n").expect(
                &rt, "memory",
            );
            let words = ["boruvka", "--plain", name.as_str()];
            expect(&rt, &words, SMALL_NET, 3, b"", line.as_bytes());
        }
    }
}

#[test]
fn escapes_the_control_characters_of_a_name(rt: HostRuntime) {
    expect_one_write(
        &rt,
        "no/such\n\tfile\u{0}\u{1}\u{1f}\u{7f}",
        "boruvka: cannot open no/such\\x0a\\x09file\\x00\\x01\\x1f\\x7f\n",
    );
    expect_one_write(
        &rt,
        "\u{1b}[2K\r\u{9b}A\u{80}\u{9f}",
        "boruvka: cannot open \\x1b[2K\\x0d\\xc2\\x9bA\\xc2\\x80\\xc2\\x9f\n",
    );
}

// A backslash and the neighbours of control characters stay as they are.
#[test]
fn prints_all_other_characters_of_a_name_as_they_are(rt: HostRuntime) {
    expect_one_write(
        &rt,
        "no/such \\x1b~\u{a0}\u{f9}\u{20ac}\u{1f600}",
        "boruvka: cannot open no/such \\x1b~\u{a0}\u{f9}\u{20ac}\u{1f600}\n",
    );
}

// An empty argument is a file name like any other. A single minus is the input.
#[test]
fn opens_the_name_that_it_is_given(rt: HostRuntime) {
    let empty = b"boruvka: cannot open \n";
    expect(&rt, &["boruvka", "--plain", ""], SMALL_NET, 3, b"", empty);
    let named = b"boruvka: cannot open ./-\n";
    let words = ["boruvka", "--plain", "./-"];
    expect(&rt, &words, SMALL_NET, 3, b"", named);
    let minus = ["boruvka", "--plain", "-"];
    expect(&rt, &minus, SMALL_NET, 0, SMALL_FOREST, b"");
}

#[test]
fn prints_the_version(rt: HostRuntime) {
    let version = b"boruvka 1.1.0\n";
    for word in ["--version", "-V"] {
        expect(&rt, &["boruvka", word], SMALL_NET, 0, version, b"");
    }
}

#[test]
fn prints_a_help_that_cannot_be_written(rt: HostRuntime) {
    expect_broken_off(&rt, &["boruvka", "--help"], b"Compute th");
}

// The tests of the built program cover longer files.
#[test]
fn tells_nothing_of_a_short_file(rt: HostRuntime) {
    let words = ["boruvka", "--plain", "--progress"];
    expect(&rt, &words, SMALL_NET, 0, SMALL_FOREST, b"");
}

// The arguments are valid, and ask for this many workers and shards, and for this file.
fn expect_options(
    rt: &(impl Abort + Alloc<A = Global>),
    words: &[&str],
    workers: u32,
    shards: u32,
    file: Option<&str>,
) {
    let chosen = options(rt.alloc(), words).expect(rt, "lawful words");
    expect_same(rt, chosen.workers, workers);
    expect_same(rt, chosen.shards, shards);
    let first = match chosen.files.first() {
        Some(first) => first.as_deref(),
        None => None,
    };
    expect_same(rt, first, file);
}

#[test]
fn takes_numbers_within_their_ranges(rt: HostRuntime) {
    expect_options(&rt, &["boruvka"], 2, 64, None);
    expect_options(&rt, &["boruvka", "a.gr"], 2, 64, Some("a.gr"));
    expect_options(&rt, &["boruvka", "--workers", "0"], 0, 64, None);
    expect_options(&rt, &["boruvka", "--workers", "64"], 64, 64, None);
    expect_options(&rt, &["boruvka", "--shards", "1"], 2, 1, None);
    expect_options(&rt, &["boruvka", "--shards", "4096"], 2, 4096, None);
    let between = ["boruvka", "--workers=7", "--shards", "100", "a.gr"];
    expect_options(&rt, &between, 7, 100, Some("a.gr"));
    let most = ["boruvka", "--workers", "64", "--shards=4096", "--report"];
    expect_options(&rt, &most, 64, 4096, None);
    expect_options(&rt, &["boruvka", "--plain"], 2, 64, None);
}

#[test]
fn takes_the_words_for_what_they_ask(rt: HostRuntime) {
    let plain = options(rt.alloc(), &["boruvka", "--plain"]).expect(&rt, "lawful words");
    expect_same(&rt, (plain.plain, plain.report), (true, false));
    let report = options(rt.alloc(), &["boruvka", "--report"]).expect(&rt, "lawful words");
    expect_same(&rt, (report.report, report.plain), (true, false));
}

// The arguments are valid, and ask for this many threads.
fn expect_threads(rt: &(impl Abort + Alloc<A = Global>), words: &[&str], threads: u32) {
    let chosen = options(rt.alloc(), words).expect(rt, "lawful words");
    expect_same(rt, chosen.threads, threads);
}

#[test]
fn takes_threads_beside_the_plain_word(rt: HostRuntime) {
    expect_threads(&rt, &["boruvka"], 1);
    expect_threads(&rt, &["boruvka", "--plain"], 1);
    expect_threads(&rt, &["boruvka", "--plain", "--threads", "1"], 1);
    expect_threads(&rt, &["boruvka", "--threads=64", "--plain"], 64);
    let words = ["boruvka", "--plain", "--threads", "2"];
    expect(&rt, &words, SMALL_NET, 0, SMALL_FOREST, b"");
    let without =
        b"error: --threads needs --plain\n\nUsage: boruvka [OPTIONS] [FILE]...\n\nFor more information, try '--help'.\n";
    let words = ["boruvka", "--threads", "2"];
    expect(&rt, &words, SMALL_NET, 2, b"", without);
}

// These arguments give a usage error, and nothing is written to the output.
fn expect_refused(
    rt: &(impl Abort
        + Files<File = File>
        + Alloc<A = Global>
        + Net<Listener = TcpListener, Stream = TcpStream>
        + Threads
        + Wait
        + Sync
        + Copy
        + Send
        + 'static),
    words: &[&str],
) {
    let is_usage = matches!(options(rt.alloc(), words), Err(OptionsFault::Usage(_)));
    expect_same(rt, is_usage, true);
    let is_line_open = Cell::new(false);
    let mut input = Watched {
        source: SMALL_NET.as_slice(),
        progress: &mut Progress::new(Vec::new(rt.alloc()), &is_line_open),
    };
    let mut errors = Vec::new(rt.alloc());
    let mut output = Vec::new(rt.alloc());
    let status = command(rt, words, &mut input, &mut output, &mut errors);
    expect_same(rt, status, 2);
    expect_same(rt, (output.is_empty(), errors.is_empty()), (true, false));
}

#[test]
fn refuses_wrong_words(rt: HostRuntime) {
    for wrong in ["--workers=65", "--shards=0", "--shards=4097", "--wrong"] {
        expect_refused(&rt, &["boruvka", wrong]);
    }
    for wrong in ["--threads=0", "--threads=65", "--threads=x", "--threads"] {
        expect_refused(&rt, &["boruvka", "--plain", wrong]);
    }
    expect_refused(&rt, &["boruvka", "--threads=1", "--workers", "0"]);
    expect_refused(&rt, &["boruvka", "--workers", "65"]);
    expect_refused(&rt, &["boruvka", "--shards", "0"]);
    expect_refused(&rt, &["boruvka", "a.gr", "b.gr"]);
    expect_refused(&rt, &["boruvka", "--workers", "0", "a.gr", "-"]);
    let wrong =
        b"error: unexpected argument '--wrong' found\n\nUsage: boruvka [OPTIONS] [FILE]...\n\nFor more information, try '--help'.\n";
    expect(&rt, &["boruvka", "--wrong"], SMALL_NET, 2, b"", wrong);
}

#[test]
fn prints_why_there_are_no_words(rt: HostRuntime) {
    let mut errors = Vec::new(rt.alloc());
    let memory = io::Error::from(ErrorKind::OutOfMemory);
    expect_same(&rt, without_words(&memory, &mut errors), 4);
    expect_same(&rt, errors.as_slice(), b"boruvka: no memory\n".as_slice());
    errors.clear();
    let no_text = io::Error::from(ErrorKind::InvalidData);
    expect_same(&rt, without_words(&no_text, &mut errors), 2);
    expect_same(
        &rt,
        errors.as_slice(),
        b"boruvka: an argument is not UTF-8\n".as_slice(),
    );
    let given = env::args(&rt).expect(&rt, "words");
    let words = all_words(rt.alloc(), given).expect(&rt, "words");
    expect_same(&rt, words.is_empty(), false);
}

// The help is printed only if nothing before it is wrong.
#[test]
fn refuses_words_that_are_wrong_before_they_ask_for_the_help(rt: HostRuntime) {
    let help = ["boruvka", "--report", "--help", "--wrong"];
    expect(&rt, &help, SMALL_NET, 0, HELP.as_bytes(), b"");
    expect_refused(&rt, &["boruvka", "--wrong", "--help"]);
}

// A run over these lines, with the graph in one shard and with the report, returns this status and writes exactly these
// texts to the output and the errors.
fn expect_over<L: Line + Send + Drop>(
    rt: &(impl Abort + Alloc<A = Global> + Threads + Wait + Sync),
    net: &[u8],
    lines: Vec<L>,
    status: u8,
    texts: (&[u8], &[u8]),
)
    requires few { length lines.items ≤ MAX_WORKERS }
    requires room { All (λ line. HasRoom (L.state line)) lines.items }
{
    let mut source = net;
    let mut out = Vec::new(rt.alloc());
    let mut err = Vec::new(rt.alloc());
    let ended = run_over(
        rt,
        1,
        true,
        lines,
        StandardStreams {
            input: &mut source,
            output: &mut out,
            errors: &mut err,
        },
    );
    expect_same(rt, ended, status);
    expect_same(rt, out.as_slice(), texts.0);
    expect_same(rt, err.as_slice(), texts.1);
}

// A line that delivers these bytes.
fn scripted(alloc: Global, script: &[u8]) -> Result<Vec<ScriptLine>, AllocError>
    ensures one { IfOk result (λ lines. length lines.items ≡ 1) }
    ensures room { IfOk result (λ lines. All (λ line. HasRoom (line_of_script line)) lines.items) }
{
    let mut lines = Vec::new(alloc);
    lines.push(ScriptLine::new(Vec::from_slice(alloc, script)?))?;
    Ok(lines)
}

const HELLO: [u8; 11] = [1, 0, 0, 0, 6, 0, 1, 0, 0, 0, 0];

// The least edges of a triangle of three equal weights, for its vertices 1, 2 and 3.
const LEAST_OF_THREE: [u8; 41] = [
    4, 0, 0, 0, 36, 0, 0, 0, 1, 0, 0, 0, 0, 0, 0, 0, 3, 0, 0, 0, 1, 0, 0, 0, 0, 0, 0, 0, 2, 0, 0,
    0, 0, 0, 0, 0, 3, 0, 0, 0, 2,
];

// Answers in the first and the second round that offer no edge.
const NONE_AT_FIRST: [u8; 17] = [4, 0, 0, 0, 12, 0, 0, 0, 1, 0, 0, 0, 0, 0, 0, 0, 0];

const NONE_LATER: [u8; 17] = [4, 0, 0, 0, 12, 0, 0, 0, 2, 0, 0, 0, 0, 0, 0, 0, 0];

// The answers of a correct worker are accepted, and a wrong answer gives its own error.
#[test]
fn runs_over_lines_in_memory(rt: HostRuntime) {
    let triangle = b"p sp 3 3\na 1 2 5\na 2 3 5\na 1 3 5\n".as_slice();
    let report =
        b"vertices=3 links=3 rounds=1 shards=1 asked=2 answered=2 alone=0 closed=0 total=10\n".as_slice();
    let mut script = Vec::from_slice(rt.alloc(), &HELLO).expect(&rt, "memory");
    script
        .extend_from_slice(&LEAST_OF_THREE)
        .expect(&rt, "memory");
    script.extend_from_slice(&NONE_LATER).expect(&rt, "memory");
    let lines = scripted(rt.alloc(), script.as_slice()).expect(&rt, "memory");
    let forest = b"p sp 3 2\na 1 2 5\na 1 3 5\n".as_slice();
    expect_over(&rt, triangle, lines, 0, (forest, report));
    let missed = b"boruvka: link 1 2 17 was missed\n".as_slice();
    let mut lie = Vec::from_slice(rt.alloc(), &HELLO).expect(&rt, "memory");
    lie.extend_from_slice(&NONE_AT_FIRST).expect(&rt, "memory");
    let lines = scripted(rt.alloc(), lie.as_slice()).expect(&rt, "memory");
    expect_over(&rt, SMALL_NET, lines, 5, (b"", missed));
}

// The line of the longest report, and one that is cut off.
#[test]
fn writes_a_report_of_the_largest_numbers(rt: HostRuntime) {
    let most = 18_446_744_073_709_551_615;
    let report = Report {
        vertices: 4_294_967_295,
        links: most,
        rounds: 4_294_967_295,
        shards: 4_294_967_295,
        asked: most,
        answered: most,
        alone: most,
        closed: most,
        total: i128::MIN,
    };
    let line =
        b"vertices=4294967295 links=18446744073709551615 rounds=4294967295 shards=4294967295 asked=18446744073709551615 answered=18446744073709551615 alone=18446744073709551615 closed=18446744073709551615 total=-170141183460469231731687303715884105728\n";
    let mut errors = Vec::new(rt.alloc());
    write_report(&mut errors, &report);
    expect_same(&rt, errors.as_slice(), line.as_slice());
    let mut short = FusedSink::new(rt.alloc(), 9, 7).expect(&rt, "memory");
    write_report(&mut short, &report);
    expect_same(&rt, short.held(), b"vertices=".as_slice());
    write_text(&mut errors, b"");
    expect_same(&rt, errors.len(), line.len());
}

#[test]
fn starts_as_many_workers_as_are_asked_for(rt: HostRuntime) {
    let (reserved, count) = workers_beside(&rt, 3);
    expect_same(&rt, reserved.is_some(), true);
    expect_same(&rt, count, 3);
}
