ghost use Rattle.std.specs.Prelude.{◌≡◌, ◌≤◌, Some};
ghost use Rattle.flow_top.specs.Words.{command_named, reads_records, writes_trace, has_workers, takes, with_file, with_value, options_in};
ghost use Rattle.flow_top.specs.Words.{bare_request, most_workers, worker_count, up_to, count_in, demo_in, request_in};
ghost use Rattle.flow_top.specs.Steps.{place_after, IsAsked};

use flow_edge::Word;
use lines::number_at;

/// What the program does.
#[derive(Clone, Copy, Debug, PartialEq, Eq)]
pub enum Command {
    /// The interval run of a plant, by relaxing it window by window.
    Run,
    /// The same, by stepping the whole plant tick by tick.
    Direct,
    /// The units of a plant, with their ranks.
    Check,
    /// The summary of the generated plant of so many stages, 1 to 80.
    Demo { stages: u32 },
}

/// The most stages of a generated plant.
const MOST_STAGES: u32 = 80;

/// The most workers that can be asked for.
const MOST_WORKERS: u32 = 32;

/// How many workers there are where the words do not say it.
const USUAL_WORKERS: u32 = 4;

/// What the words ask for.
#[derive(Clone, Copy, Debug, PartialEq, Eq)]
pub struct Request {
    pub command: Command,
    /// The position of the word that names the file of feed records, counted from 1.
    pub feeds: Option<u32>,
    /// The position of the word that names the file of the trace, counted from 1.
    pub journal: Option<u32>,
    /// How many workers relax, 1 to 32.
    pub workers: Option<u32>,
}

/// The positions of the words that name files, counted from 1.
#[derive(Clone, Copy, Debug, PartialEq, Eq)]
pub struct Files {
    /// The file of feed records.
    pub extra: Option<u32>,
    /// The file that is given the trace.
    pub trace: Option<u32>,
}

/// The command of this name, where it needs no word behind it.
fn command_named(word: &[u8]) -> Option<Command>
    ensures { result ≡ command_named word.now }
{
    if word == b"run".as_slice() {
        return Some(Command::Run);
    }
    if word == b"direct".as_slice() {
        return Some(Command::Direct);
    }
    if word == b"check".as_slice() {
        return Some(Command::Check);
    }
    None
}

/// Whether a command reads records of the feeds.
fn reads_records(command: Command) -> bool
    ensures { result ≡ reads_records command }
{
    match command {
        Command::Run | Command::Direct => true,
        Command::Check | Command::Demo { .. } => false,
    }
}

/// Whether a command writes a trace.
pub fn writes_trace(command: Command) -> bool
    ensures { result ≡ writes_trace command }
{
    match command {
        Command::Run => true,
        Command::Direct | Command::Check | Command::Demo { .. } => false,
    }
}

/// Whether a command relaxes with workers.
fn has_workers(command: Command) -> bool
    ensures { result ≡ has_workers command }
{
    match command {
        Command::Run | Command::Demo { .. } => true,
        Command::Direct | Command::Check => false,
    }
}

/// Whether an option is one that the command has, and that is not given yet.
#[tactic(auto, unfolding(crate::specs::Words::takes))]
fn takes(request: Request, name: &[u8]) -> bool
    ensures { result ≡ takes request name.now }
{
    if name == b"--feeds".as_slice() {
        reads_records(request.command) && request.feeds.is_none()
    } else if name == b"--journal".as_slice() {
        writes_trace(request.command) && request.journal.is_none()
    } else {
        name == b"--workers".as_slice() && has_workers(request.command) && request.workers.is_none()
    }
}

/// The request with the file of an option at this position.
#[tactic(auto, unfolding(crate::specs::Words::with_file))]
fn with_file(request: Request, name: &[u8], at: u32) -> Request
    ensures { result ≡ with_file name.now at request }
{
    if name == b"--feeds".as_slice() {
        Request {
            feeds: Some(at),
            ..request
        }
    } else {
        Request {
            journal: Some(at),
            ..request
        }
    }
}

/// The request with the value of an option, the word at this position, where it is one: a number of workers, or the name of a
/// file, which is any word that is not empty.
#[tactic(auto, unfolding(crate::specs::Words::with_value))]
fn with_value(request: Request, name: &[u8], value: &[u8], at: u32) -> Option<Request>
    ensures { result ≡ with_value name.now at value.now request }
{
    if name == b"--workers".as_slice() {
        let workers = Some(count_in(value, MOST_WORKERS)?);
        return Some(Request { workers, ..request });
    }
    if value.is_empty() {
        return None;
    }
    Some(with_file(request, name, at))
}

/// The request with these options, the first of which begins at this position; or the position of the first word that does not fit,
/// or one past the last where a word is missing.
fn options_in(options: &[Word], at: u32, request: Request) -> Result<Request, u32>
    requires { at ≡ place_after request }
    ensures { result ≡ options_in at request options.now }
{
    match options {
        [] => Ok(request),
        [name, ..] if !takes(request, name.as_bytes()) => Err(at),
        [_] => Err(at + 1),
        [name, value, rest @ ..] => {
            match with_value(request, name.as_bytes(), value.as_bytes(), at + 1) {
                None => Err(at + 1),
                Some(more) => options_in(rest, at + 2, more),
            }
        }
    }
}

/// A request with no option.
fn bare_request(command: Command) -> Request
    ensures { result ≡ bare_request command }
{
    Request {
        command,
        feeds: None,
        journal: None,
        workers: None,
    }
}

/// How many workers relax: as many as are asked for, or the usual number.
pub fn worker_count(request: Request) -> u32
    requires { IsAsked request }
    ensures count { result ≡ worker_count request }
    ensures some { 1 ≤ result }
    ensures few { result ≤ most_workers }
{
    request.workers.unwrap_or(USUAL_WORKERS)
}

/// A number from 1 to `most`.
fn up_to(most: u32, number: i64) -> Option<u32>
    ensures { result ≡ up_to most (Some number) }
{
    match u32::try_from(number) {
        Ok(count) if 1 <= count && count <= most => Some(count),
        _ => None,
    }
}

/// The number that a word writes: 1 to 6 decimal digits without a leading zero, from 1 to `most`.
fn count_in(word: &[u8], most: u32) -> Option<u32>
    ensures { result ≡ count_in most word.now }
{
    match word {
        [] | [b'0', ..] => None,
        _ => up_to(most, number_at(word, 6, false)?),
    }
}

/// What the words behind `demo` ask for: the number of stages, and then options.
fn demo_in(words: &[Word]) -> Result<Request, u32>
    ensures { result ≡ demo_in words.now }
{
    match words {
        [] => Err(2),
        [word, rest @ ..] => match count_in(word.as_bytes(), MOST_STAGES) {
            None => Err(2),
            Some(stages) => options_in(rest, 3, bare_request(Command::Demo { stages })),
        },
    }
}

/// What the words ask for; or the position of the first word that does not fit, counted from 1, or one past the last where a
/// word is missing.
#[tactic(auto, unfolding(crate::specs::Words::request_in))]
pub fn request_in(words: &[Word]) -> Result<Request, u32>
    ensures { result ≡ request_in words.now }
{
    match words {
        [] => Err(1),
        [word, rest @ ..] if word.as_bytes() == b"demo".as_slice() => demo_in(rest),
        [word, rest @ ..] => match command_named(word.as_bytes()) {
            None => Err(1),
            Some(command) => options_in(rest, 2, bare_request(command)),
        },
    }
}
