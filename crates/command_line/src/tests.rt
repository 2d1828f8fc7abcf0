//! Tests of what words ask for.

use super::{Form, Task, WordsFault, read_words};
use std::alloc::{AllocError, Global};
use std::test::Fail;

/// What a command line asks for.
#[derive(Clone, Copy, Debug, PartialEq, Eq)]
enum Request {
    Workers(u32, Form),
    Cert,
    Verify,
    Live(u32),
    Usage,
    Help,
    Memory,
}

/// The words of a line, which stand between blanks.
fn words_of(alloc: Global, line: &str) -> Result<Vec<String>, AllocError> {
    let mut words = Vec::new(alloc);
    for word in line.split_whitespace() {
        words.push(String::from_str(alloc, word)?)?;
    }
    Ok(words)
}

/// What a task asks for, and whether the file is the one that was meant. A certificate is to be `c`.
fn task_asks(task: &Task, meant: &str) -> (Request, bool) {
    match task {
        Task::Verdict {
            workers,
            form,
            file,
        } => (Request::Workers(*workers, *form), file.as_str() == meant),
        Task::Live { workers, file } => (Request::Live(*workers), file.as_str() == meant),
        Task::Cert { file } => (Request::Cert, file.as_str() == meant),
        Task::Verify { file, cert } => (
            Request::Verify,
            file.as_str() == meant && cert.as_str() == "c",
        ),
    }
}

/// What words that are no task ask for, and whether there is a text of help.
fn fault_asks(fault: &WordsFault) -> (Request, bool) {
    match fault {
        WordsFault::Usage => (Request::Usage, true),
        WordsFault::Memory => (Request::Memory, true),
        WordsFault::Help { text } => (Request::Help, !text.is_empty()),
    }
}

/// What the words ask for, and whether the file is the one that was meant.
fn asked_once(alloc: Global, words: &[String], file: &str) -> (Request, bool) {
    match read_words(alloc, words) {
        Ok(task) => task_asks(&task, file),
        Err(fault) => fault_asks(&fault),
    }
}

/// The same; where the first call finds no memory, what the second says.
fn asked(alloc: Global, words: &[String], file: &str) -> (Request, bool) {
    match asked_once(alloc, words, file) {
        (Request::Memory, _) => asked_once(alloc, words, file),
        answer => answer,
    }
}

/// The words of a line; where the first try finds no memory, by a second.
fn words_in(alloc: Global, line: &str) -> Result<Vec<String>, AllocError> {
    match words_of(alloc, line) {
        Ok(words) => Ok(words),
        Err(_) => words_of(alloc, line),
    }
}

fn line_asks(alloc: Global, line: &str, file: &str) -> Result<(Request, bool), AllocError> {
    let words = words_in(alloc, line)?;
    Ok(asked(alloc, words.as_slice(), file))
}

/// The first of the lines that does not ask for this of this file; none where all do.
fn first_wrong(
    alloc: Global,
    rows: &[(&'static str, Request, &'static str)],
) -> Result<Option<&'static str>, AllocError> {
    for (line, request, file) in rows {
        if line_asks(alloc, line, file)? != (*request, true) {
            return Ok(Some(*line));
        }
    }
    Ok(None)
}

/// The same, where all the lines are to ask for one thing.
fn first_other(
    alloc: Global,
    lines: &[&'static str],
    request: Request,
) -> Result<Option<&'static str>, AllocError> {
    for line in lines {
        if line_asks(alloc, line, "t")? != (request, true) {
            return Ok(Some(*line));
        }
    }
    Ok(None)
}

const CERTIFICATES: &[(&str, Request, &str)] = &[
    ("cert t", Request::Cert, "t"),
    ("cert -- --json", Request::Cert, "--json"),
    ("verify t c", Request::Verify, "t"),
    ("verify - c", Request::Verify, "-"),
    ("cert", Request::Usage, ""),
    ("cert t u", Request::Usage, ""),
    ("verify t", Request::Usage, ""),
    ("verify --json t c", Request::Usage, ""),
];

#[test]
fn words_of_certificates(rt: HostRuntime) -> Result<(), Fail> {
    assert_eq!(rt; first_wrong(rt.alloc(), CERTIFICATES)?, None);
    Ok(())
}

/// Verdicts as text by four workers and by seven, and as JSON by four.
const TEXT: Request = Request::Workers(4, Form::Text);

const BY_SEVEN: Request = Request::Workers(7, Form::Text);

const JSON: Request = Request::Workers(4, Form::Json);

const VERDICTS: &[(&str, Request, &str)] = &[
    ("", TEXT, "-"),
    ("verdict t", TEXT, "t"),
    ("verdict -", TEXT, "-"),
    ("verdict -- --json", TEXT, "--json"),
    ("verdict --workers 7 t", BY_SEVEN, "t"),
    ("verdict --workers=7 t", BY_SEVEN, "t"),
    ("verdict t --workers 7", BY_SEVEN, "t"),
    (
        "verdict --workers 1 t",
        Request::Workers(1, Form::Text),
        "t",
    ),
    ("verdict -- --workers", TEXT, "--workers"),
    (
        "verdict --workers 64 -",
        Request::Workers(64, Form::Text),
        "-",
    ),
    ("verdict --json t", JSON, "t"),
    ("verdict t --json", JSON, "t"),
    (
        "verdict --workers 2 --json -",
        Request::Workers(2, Form::Json),
        "-",
    ),
];

#[test]
fn words_of_a_command_line(rt: HostRuntime) -> Result<(), Fail> {
    assert_eq!(rt; first_wrong(rt.alloc(), VERDICTS)?, None);
    Ok(())
}

const REHEARSALS: &[(&str, Request, &str)] = &[
    ("live t", Request::Live(4), "t"),
    ("live -", Request::Live(4), "-"),
    ("live --workers 64 t", Request::Live(64), "t"),
    ("live t --workers 1", Request::Live(1), "t"),
    ("live -- --workers", Request::Live(4), "--workers"),
];

#[test]
fn words_of_a_rehearsal(rt: HostRuntime) -> Result<(), Fail> {
    assert_eq!(rt; first_wrong(rt.alloc(), REHEARSALS)?, None);
    Ok(())
}

const NO_COMMAND_LINES: &[&str] = &[
    "verdict",
    "verdict --workers 7",
    "verdict --workers",
    "verdict --workers 0 t",
    "verdict --workers 65 t",
    "verdict --workers 07 t",
    "verdict --workers +7 t",
    "verdict --workers -7 t",
    "verdict --workers 7x t",
    "verdict --workers seven t",
    "verdict --workers 4294967303 t",
    "verdict --workers 7 --workers 8 t",
    "verdict t u",
    "verdict --json",
    "verdict --json=yes t",
    "verdict --quick t",
    "live",
    "live --workers 0 t",
    "live --workers 65 t",
    "live --json t",
    "live t u",
    "alive t",
    "t",
    "-",
    "--workers 7 t",
    "help t",
];

#[test]
fn no_command_line(rt: HostRuntime) -> Result<(), Fail> {
    assert_eq!(rt;
        first_other(rt.alloc(), NO_COMMAND_LINES, Request::Usage)?,
        None
    );
    Ok(())
}

const HELP_LINES: &[&str] = &[
    "--help",
    "-h",
    "help",
    "verdict --help",
    "verdict -h",
    "help verdict",
    "live --help",
    "--version",
    "-V",
];

#[test]
fn help_is_asked_for(rt: HostRuntime) -> Result<(), Fail> {
    assert_eq!(rt; first_other(rt.alloc(), HELP_LINES, Request::Help)?, None);
    Ok(())
}
