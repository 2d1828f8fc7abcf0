//! The words of the command line.

ghost use Rattle.std.specs.Prelude.{◌≡◌, ◌≢◌, [], Some, IfOk, MatchResult, codes, false, map, string_bytes};
ghost use Rattle.std.specs.Prelude.{true};
ghost use Rattle.clap.specs.Words.{first_value, found_of, kind_of, one_text, rows_of};
ghost use Rattle.clap.specs.Words.{subcommand_rows_of, takes};
ghost use Rattle.command_line.specs.Answers.{IsAnswerToWords, IsFaultOf, given_by};
ghost use Rattle.command_line.specs.Commands.{IsArgOf, IsCommandOf, cert_app, certificate_rule};
ghost use Rattle.command_line.specs.Commands.{file_rule, finder_app, json_rule, live_app, required_rule};
ghost use Rattle.command_line.specs.Commands.{verdict_app, verify_app, workers_rule};
ghost use Rattle.command_line.specs.Tasks.{HasWorkers, IsAnswerToSubcommand, IsDefault, IsFormOf};
ghost use Rattle.command_line.specs.Tasks.{IsAnswerWhereTaken, IsWordOf};
ghost use Rattle.command_line.specs.Workers.{IsPositiveOf, IsWorkersOf};

use super::task::{Form, Task, Word};
use clap::error::ErrorKind;
use clap::{Arg, ArgAction, ArgMatches, Command};
use std::alloc::{AllocError, Global};
use std::error::Error;
use std::fmt;

/// How many workers search where the words give no number.
pub const WORKERS: u32 = 4;
/// The most workers that may search; the fewest is 1. The number is that of `level_search`, on which this
/// crate does not stand.
pub const MOST_WORKERS: u32 = 64;

/// The version of the program, which `--version` prints after its name.
pub const VERSION: &str = "0.2.0";

/// Why the words of a command line give no task.
#[derive(Debug, Drop)]
pub enum WordsFault {
    /// They are no command, or give a number of workers that is none.
    Usage,
    /// They ask for help, or for the version: its text, which is not empty.
    Help { text: String },
    /// An allocation failed.
    Memory,
}

/// One word: `usage`, `help` or `memory`.
impl fmt::Display for WordsFault {
    ghost use Rattle.std.specs.Prelude.{Some};
    ghost use Rattle.command_line.specs.FaultWords.{fault_word};

    ghost output = { λ fault. Some (fault_word fault) };

    fn fmt<W: fmt::Write>(&self, f: &mut fmt::Formatter<W>) -> fmt::Result {
        f.write_str(match self {
            WordsFault::Usage => "usage",
            WordsFault::Help { text: _ } => "help",
            WordsFault::Memory => "memory",
        })
    }
}

impl Error for WordsFault {}

impl From<AllocError> for WordsFault {
    ghost use Rattle.command_line.specs.declared.words.WordsFault.TheVariants.{Memory};

    ghost from_gives = { λ _ fault. fault ≡ Memory };

    fn from(_error: AllocError) -> WordsFault {
        WordsFault::Memory
    }
}

/// The task that the words ask for: those after the program's name.
///
/// The commands are `verdict [--workers N] [--json] FILE`, `cert FILE`, `verify FILE CERT` and `live
/// [--workers N] FILE`; N is 1 to 64, in digits and without leading zeros, and 4 where it is not given. No
/// words mean `verdict -`.
///
/// What other words mean is what `clap` makes of them for `finder_app`, which writes these commands out: the
/// task has what they give for each argument, `Help` comes only where they ask for help or for the version,
/// and `Usage` only where `clap` may find a mistake, or finds none and the number of workers is none. Where
/// the commands take the words, there is a task unless that number is none. No clause says the text of help,
/// or that memory suffices; and where `help` stands as a command, `clap` leaves open whether it is answered
/// by help or by a usage fault.
pub fn read_words(alloc: Global, words: &[String]) -> Result<Task, WordsFault>
    ensures workers { IfOk result HasWorkers }
    ensures none { words.now ≡ [] → MatchResult result IsDefault (λ fault. fault ≡ WordsFault.Memory) }
    ensures answer { words.now ≢ [] → IsAnswerToWords (map string_bytes words.now) result }
    ensures taken { words.now ≢ [] → takes finder_app (map string_bytes words.now) ≡ true
        → IsAnswerWhereTaken (given_by (map string_bytes words.now)) result }
{
    if words.is_empty() {
        return default_task(alloc);
    }
    match finder_command(alloc)?.try_get_matches_from(words) {
        Ok(matches) => task_of(alloc, &matches),
        Err(error) => Err(fault_of(alloc, &error)),
    }
}

/// The task of a command line without words.
fn default_task(alloc: Global) -> Result<Task, WordsFault>
    ensures { MatchResult result (λ task. HasWorkers task × IsDefault task)
        (λ fault. fault ≡ WordsFault.Memory) }
{
    let file = Word::new(alloc, "-")?;
    Ok(Task::Verdict {
        workers: WORKERS,
        form: Form::Text,
        file,
    })
}

/// What `verdict` does.
const VERDICT: &str =
    "Judges a recording: its first fault, the order that all responses follow, or the least conflict";

/// What `live` does.
const LIVE: &str =
    "Replays a recording by threads in one session beside a watcher, and judges what the session has";

fn finder_command<'a>(alloc: Global) -> Result<Command<'a>, AllocError>
    ensures { IfOk result (IsCommandOf finder_app) }
{
    Command::new(alloc, "domepeeler")
        .version(VERSION)
        .no_binary_name(true)
        .subcommand_required(true)
        .subcommand(verdict_command(alloc)?)?
        .subcommand(cert_command(alloc)?)?
        .subcommand(verify_command(alloc)?)?
        .subcommand(live_command(alloc)?)
}

fn verdict_command<'a>(alloc: Global) -> Result<Command<'a>, AllocError>
    ensures { IfOk result (IsCommandOf verdict_app) }
{
    Command::new(alloc, "verdict")
        .about(VERDICT)
        .arg(workers_word(alloc))?
        .arg(json_word(alloc))?
        .arg(trace_word(alloc))
}

fn cert_command<'a>(alloc: Global) -> Result<Command<'a>, AllocError>
    ensures { IfOk result (IsCommandOf cert_app) }
{
    Command::new(alloc, "cert")
        .about("Writes the certificate of the verdict, which shows why it is right")
        .arg(trace_word(alloc))
}

fn verify_command<'a>(alloc: Global) -> Result<Command<'a>, AllocError>
    ensures { IfOk result (IsCommandOf verify_app) }
{
    Command::new(alloc, "verify")
        .about("Says whether a certificate is valid for a recording, without a search")
        .arg(trace_word(alloc))?
        .arg(certificate_word(alloc))
}

fn live_command<'a>(alloc: Global) -> Result<Command<'a>, AllocError>
    ensures { IfOk result (IsCommandOf live_app) }
{
    Command::new(alloc, "live")
        .about(LIVE)
        .arg(workers_word(alloc))?
        .arg(trace_word(alloc))
}

fn workers_word<'a>(alloc: Global) -> Arg<'a>
    ensures { IsArgOf workers_rule result }
{
    Arg::new(alloc, "workers")
        .long("workers")
        .value_name("N")
        .help("How many workers search: 1 to 64, and 4 where it is not said")
        .action(ArgAction::Set)
}

fn json_word<'a>(alloc: Global) -> Arg<'a>
    ensures { IsArgOf json_rule result }
{
    Arg::new(alloc, "json")
        .long("json")
        .help("Writes the report as JSON")
        .action(ArgAction::SetTrue)
}

/// A file that is to be given, by the name that usage calls it.
fn file_word<'a>(alloc: Global, name: &'a str, help: &'a str) -> Arg<'a>
    ensures { IsArgOf (required_rule name.now) result }
{
    Arg::new(alloc, name)
        .help(help)
        .required(true)
        .action(ArgAction::Set)
}

fn trace_word<'a>(alloc: Global) -> Arg<'a>
    ensures { IsArgOf file_rule result }
{
    file_word(alloc, "FILE", "The trace; - is standard input")
}

fn certificate_word<'a>(alloc: Global) -> Arg<'a>
    ensures { IsArgOf certificate_rule result }
{
    file_word(alloc, "CERT", "The certificate; - is standard input")
}

/// The task of words that `clap` has read.
fn task_of(alloc: Global, matches: &ArgMatches<'_>) -> Result<Task, WordsFault>
    ensures { IsAnswerToSubcommand (subcommand_rows_of matches.now) result }
{
    let (name, given) = matches.subcommand().ok_or(WordsFault::Usage)?;
    task_given(alloc, name, given)
}

/// The task of a subcommand and its arguments.
fn task_given(alloc: Global, name: &str, given: &ArgMatches<'_>) -> Result<Task, WordsFault>
    ensures { IsAnswerToSubcommand (Some (name.now, rows_of (found_of given.now))) result }
{
    match name {
        "verdict" => Ok(Task::Verdict {
            workers: workers_of(given)?,
            form: form_of(given),
            file: word_of(alloc, given, "FILE")?,
        }),
        "cert" => Ok(Task::Cert {
            file: word_of(alloc, given, "FILE")?,
        }),
        "verify" => Ok(Task::Verify {
            file: word_of(alloc, given, "FILE")?,
            cert: word_of(alloc, given, "CERT")?,
        }),
        "live" => Ok(Task::Live {
            workers: workers_of(given)?,
            file: word_of(alloc, given, "FILE")?,
        }),
        _ => Err(WordsFault::Usage),
    }
}

/// The number of workers that was given, or `WORKERS`.
fn workers_of(given: &ArgMatches<'_>) -> Result<u32, WordsFault>
    ensures { IsWorkersOf (first_value (found_of given.now) (codes "workers")) result }
{
    let Some(word) = given.get_str("workers") else {
        return Ok(WORKERS);
    };
    let Some(n) = number_of(word) else {
        return Err(WordsFault::Usage);
    };
    if n > MOST_WORKERS {
        return Err(WordsFault::Usage);
    }
    Ok(n)
}

/// JSON where it was asked for, else text.
fn form_of(given: &ArgMatches<'_>) -> Form
    ensures { IsFormOf (one_text (found_of given.now) (codes "json")) result }
{
    match given.get_one::<bool>("json") {
        Some(true) => Form::Json,
        _ => Form::Text,
    }
}

/// The number from 1 below 2^32 that the word is: digits, the first of them not 0.
fn number_of(word: &str) -> Option<u32>
    ensures { IsPositiveOf word.now result }
{
    let [b'1'..=b'9', ..] = word.as_bytes() else {
        return None;
    };
    word.parse().ok()
}

/// The word that was given for this argument.
fn word_of(alloc: Global, given: &ArgMatches<'_>, name: &str) -> Result<Word, WordsFault>
    ensures { IsWordOf (first_value (found_of given.now) name.now) result }
{
    let word = given.get_str(name).ok_or(WordsFault::Usage)?;
    Ok(Word::new(alloc, word)?)
}

/// What `clap` found wrong, or the help or version that was asked for.
fn fault_of(alloc: Global, error: &clap::Error) -> WordsFault
    ensures { IsFaultOf (kind_of error.now) result }
{
    match error.kind() {
        ErrorKind::DisplayHelp | ErrorKind::DisplayVersion => match error.to_string(alloc) {
            Ok(text) => WordsFault::Help { text },
            Err(_) => WordsFault::Memory,
        },
        ErrorKind::OutOfMemory => WordsFault::Memory,
        _ => WordsFault::Usage,
    }
}
