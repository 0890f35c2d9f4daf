//! The arguments of the program.

ghost use Rattle.std.specs.Prelude.{◌≡◌, ℕ, IfOk, IfSome, string_bytes};
ghost use Rattle.std.specs.Option.{option_copied, option_map};
ghost use Rattle.descriptor_check.specs.Arguments as spec;

use crate::answer::Wanted;
use plain_data::{Items, Text, parse_int32};
use pool_changes::{Compatibility, Level};
use std::alloc::{AllocError, Global};
use verdict_texts::Format;

/// The version of the program.
pub const VERSION: &str = "check_descriptors 0.3.0\n";

/// The arguments that there are.
pub(crate) const USAGE: &str = "\
usage: check_descriptors [--strict] [--json] [--max-faults N] [--linked OUT] FILE...
       check_descriptors [--list] [--describe NAME]... [--linked OUT] FILE...
       check_descriptors --against OLD... [--compatibility WHICH] [--level LEVEL] .. FILE...
";

/// What the program does, and what its arguments mean.
pub(crate) const HELP: &str = "
Links descriptor sets as one batch. Reports what breaks a rule, and what changes of older versions.

    protoc --include_imports --include_source_info -o set.pb shop/order.proto
    check_descriptors set.pb
    check_descriptors --against main.pb set.pb

FILE             a descriptor set, as protoc writes it; - is the standard input. Files of one name
                 that are equal but for their source info count once
--format FORMAT  one of text, json, github, gitlab, sarif: the form of the report (text)
--json           the same as --format json
--strict         also refuse what protoc refuses by its own rules, where the rules of the linker
                 are kept
--max-faults N   report at most N faults, and as many changes of each older version (100)
--first          of files of one name that differ take the first, as protoc does, and list on the
                 standard error which are passed over
--list           of an accepted batch, list each declaration: its kind and its full name
--describe NAME  show what a full name, or the name of a file, means in it; may be repeated
--linked OUT     write the set of its linked files to OUT, whole or not at all
--against OLD    report what it changes of an older version, the set OLD; may be repeated
--compatibility WHICH  backward (the default): it reads what the older version writes; forward:
                 the older version reads what it writes; full: both
--level LEVEL    report changes by which bytes or calls are read otherwise: wire (the default);
                 also texts of JSON: json; also code that is made of the schema: source
--OPTION=VALUE   is the same as --OPTION VALUE
--               what follows it is a FILE, also if it begins with a dash
--help           print this, as -h does
--version        print the version

exit status: 0 accepted, and nothing changes; 1 refused, or something changes; 2 no verdict, as of
wrong arguments, what is no set, or an older version that is refused; 3 out of memory; 4 the
output could not be written
";

/// What the program does, and its arguments.
///
/// # Errors
/// `AllocError` where memory was refused.
pub fn help(alloc: Global) -> Result<String, AllocError>
    ensures { IfOk result (λ text. string_bytes text ≡ spec.help) }
{
    let mut text = String::from_str(alloc, USAGE)?;
    text.push_str(HELP)?;
    Ok(text)
}

/// What is to be checked, and what is wanted of it.
#[derive(Drop)]
pub struct Job {
    pub wanted: Wanted,
    /// The names of the sets of older versions, in order.
    pub against: Items<Text>,
    /// Names of files, in order; `-` is the standard input.
    pub files: Items<Text>,
}

/// What the arguments ask.
#[derive(Drop)]
pub enum Request {
    Check(Job),
    Help,
    Version,
    /// They ask nothing, and why.
    Wrong(Text),
}

/// An option that has a value behind it.
#[derive(Clone, Copy)]
enum Valued {
    Format,
    MaxFaults,
    Describe,
    Linked,
    Against,
    Compatibility,
    Level,
}

/// What the words so far ask.
#[derive(Drop)]
enum Reading {
    Reads(Job),
    /// Behind `--`: each word is the name of a file.
    Files(Job),
    /// The next word is the value of an option.
    Awaits(Valued, Job),
    Done(Request),
}

/// What some arguments ask, without the name of the program. Of an option that stands twice the
/// last counts; each `--describe` adds a name, and each `--against` an older version.
///
/// # Errors
/// `AllocError` where memory was refused.
pub fn read_arguments(alloc: Global, words: &[Text]) -> Result<Request, AllocError>
    ensures { IfOk result (λ request. request ≡ spec.request_of words.now) }
{
    let mut reading = Reading::Reads(no_job(alloc));
    for word in words {
        reading = step(alloc, reading, word.as_str())?;
    }
    finished(alloc, reading)
}

/// Nothing wanted but lines for people, of a hundred faults at most.
fn no_job(alloc: Global) -> Job
    ensures { result ≡ spec.no_job }
{
    Job {
        wanted: Wanted {
            format: Format::Text,
            most: 100,
            strict: false,
            first_counts: false,
            lists: false,
            names: Items::new(alloc),
            linked: None,
            compatibility: None,
            level: None,
        },
        against: Items::new(alloc),
        files: Items::new(alloc),
    }
}

/// One word further.
fn step(alloc: Global, reading: Reading, word: &str) -> Result<Reading, AllocError>
    ensures { IfOk result (λ further. further ≡ spec.step reading word.now) }
{
    match reading {
        Reading::Reads(job) => with_word(alloc, job, word),
        Reading::Files(job) => Ok(Reading::Files(with_file(alloc, job, word)?)),
        Reading::Awaits(option, job) => with_value(alloc, option, job, word),
        Reading::Done(request) => Ok(Reading::Done(request)),
    }
}

/// A word where no value is awaited.
fn with_word(alloc: Global, job: Job, word: &str) -> Result<Reading, AllocError>
    ensures { IfOk result (λ further. further ≡ spec.with_word job word.now) }
{
    match word {
        "--" => Ok(Reading::Files(job)),
        "-h" | "--help" => Ok(Reading::Done(Request::Help)),
        "--version" => Ok(Reading::Done(Request::Version)),
        "--json" => Ok(Reading::Reads(with_format(job, Format::Json))),
        "--strict" => Ok(Reading::Reads(with_strict(job))),
        "--list" => Ok(Reading::Reads(with_list(job))),
        "--first" => Ok(Reading::Reads(with_first(job))),
        _ => match valued_named(word) {
            Some(option) => Ok(Reading::Awaits(option, job)),
            None => with_assigned(alloc, job, word),
        },
    }
}

/// The option and the value of a word that has both, with a `=` between them.
fn assigned(word: &str) -> Option<(Valued, &str)>
    ensures { option_map (λ x. (x.0, x.1.now)) result ≡ spec.assigned word.now }
{
    let (name, value) = word.split_once('=')?;
    let option = valued_named(name)?;
    Some((option, value))
}

/// An option with its value, or another word.
fn with_assigned(alloc: Global, job: Job, word: &str) -> Result<Reading, AllocError>
    ensures { IfOk result (λ further. further
        ≡ spec.with_assigned job word.now (spec.assigned word.now)) }
{
    match assigned(word) {
        Some((option, value)) => with_value(alloc, option, job, value),
        None => with_other(alloc, job, word),
    }
}

/// The option that has a name, and a value behind it.
fn valued_named(name: &str) -> Option<Valued>
    ensures { result ≡ spec.valued_named name.now }
{
    match name {
        "--format" => Some(Valued::Format),
        "--max-faults" => Some(Valued::MaxFaults),
        "--describe" => Some(Valued::Describe),
        "--linked" => Some(Valued::Linked),
        "--against" => Some(Valued::Against),
        "--compatibility" => Some(Valued::Compatibility),
        "--level" => Some(Valued::Level),
        _ => None,
    }
}

/// A job whose verdict is told in a format.
fn with_format(mut job: Job, format: Format) -> Job
    ensures { result ≡ spec.with_format job format }
{
    job.wanted.format = format;
    job
}

/// A job that refuses besides what `protoc` refuses.
fn with_strict(mut job: Job) -> Job
    ensures { result ≡ spec.with_strict job }
{
    job.wanted.strict = true;
    job
}

/// A job of which each declaration is told.
fn with_list(mut job: Job) -> Job
    ensures { result ≡ spec.with_list job }
{
    job.wanted.lists = true;
    job
}

/// A job in which the first of unequal files of one name counts.
fn with_first(mut job: Job) -> Job
    ensures { result ≡ spec.with_first job }
{
    job.wanted.first_counts = true;
    job
}

/// A word that is the value of an option.
fn with_value(alloc: Global, option: Valued, job: Job, word: &str) -> Result<Reading, AllocError>
    ensures { IfOk result (λ further. further ≡ spec.with_value option job word.now) }
{
    match option {
        Valued::Format => with_named_format(alloc, job, word),
        Valued::MaxFaults => with_most(alloc, job, word),
        Valued::Describe => Ok(Reading::Reads(with_name(alloc, job, word)?)),
        Valued::Linked => Ok(Reading::Reads(with_linked(alloc, job, word)?)),
        Valued::Against => Ok(Reading::Reads(with_older(alloc, job, word)?)),
        Valued::Compatibility => with_compatibility(alloc, job, word),
        Valued::Level => with_level(alloc, job, word),
    }
}

/// The format that a word names.
fn format_named(word: &str) -> Option<Format>
    ensures { result ≡ spec.format_named word.now }
{
    match word {
        "text" => Some(Format::Text),
        "json" => Some(Format::Json),
        "github" => Some(Format::GitHub),
        "gitlab" => Some(Format::GitLab),
        "sarif" => Some(Format::Sarif),
        _ => None,
    }
}

/// A word that is to name a format.
fn with_named_format(alloc: Global, job: Job, word: &str) -> Result<Reading, AllocError>
    ensures { IfOk result (λ further. further ≡ spec.with_named_format job word.now
        (spec.format_named word.now)) }
{
    match format_named(word) {
        Some(format) => Ok(Reading::Reads(with_format(job, format))),
        None => {
            let words = format!(in alloc;
                "--format '{word}': give text, json, github, gitlab or sarif"
            )?;
            Ok(Reading::Done(Request::Wrong(Text::from_string(words))))
        }
    }
}

/// The number of `--max-faults`, if a word is one.
fn max_faults(word: &str) -> Option<usize>
    ensures { result ≡ spec.max_faults word.now }
{
    usize::try_from(parse_int32(word)?).ok()
}

/// A word that is to be the number of `--max-faults`.
fn with_most(alloc: Global, mut job: Job, word: &str) -> Result<Reading, AllocError>
    ensures { IfOk result (λ further. further ≡ spec.with_most job word.now
        (spec.max_faults word.now)) }
{
    match max_faults(word) {
        Some(most) => {
            job.wanted.most = most;
            Ok(Reading::Reads(job))
        }
        None => {
            let words = format!(in alloc; "--max-faults '{word}': give a number from 0 on")?;
            Ok(Reading::Done(Request::Wrong(Text::from_string(words))))
        }
    }
}

/// A job with one name more.
fn with_name(alloc: Global, job: Job, word: &str) -> Result<Job, AllocError>
    ensures { IfOk result (λ further. further ≡ spec.with_name job word.now) }
{
    let name = Text::from_str(alloc, word)?;
    let mut job = job;
    job.wanted.names.push(name)?;
    Ok(job)
}

/// A job whose linked files go to a file.
fn with_linked(alloc: Global, job: Job, word: &str) -> Result<Job, AllocError>
    ensures { IfOk result (λ further. further ≡ spec.with_linked job word.now) }
{
    let name = Text::from_str(alloc, word)?;
    let mut job = job;
    job.wanted.linked = Some(name);
    Ok(job)
}

/// A job with one older version more.
fn with_older(alloc: Global, job: Job, word: &str) -> Result<Job, AllocError>
    ensures { IfOk result (λ further. further ≡ spec.with_older job word.now) }
{
    let name = Text::from_str(alloc, word)?;
    let mut job = job;
    job.against.push(name)?;
    Ok(job)
}

/// Which version is to read what the other writes, if a word says it.
fn compatibility(word: &str) -> Option<Compatibility>
    ensures { result ≡ spec.compatibility word.now }
{
    match word {
        "backward" => Some(Compatibility::Backward),
        "forward" => Some(Compatibility::Forward),
        "full" => Some(Compatibility::Full),
        _ => None,
    }
}

/// A word that is to be the value of `--compatibility`.
fn with_compatibility(alloc: Global, mut job: Job, word: &str) -> Result<Reading, AllocError>
    ensures { IfOk result (λ further. further ≡ spec.with_compatibility job word.now
        (spec.compatibility word.now)) }
{
    let which = compatibility(word);
    if which.is_some() {
        job.wanted.compatibility = which;
        return Ok(Reading::Reads(job));
    }
    let words = format!(in alloc; "--compatibility '{word}': give backward, forward or full")?;
    Ok(Reading::Done(Request::Wrong(Text::from_string(words))))
}

/// The level that a word names.
fn level_named(word: &str) -> Option<Level>
    ensures { result ≡ spec.level_named word.now }
{
    match word {
        "wire" => Some(Level::Wire),
        "json" => Some(Level::Json),
        "source" => Some(Level::Source),
        _ => None,
    }
}

/// A word that is to be the value of `--level`.
fn with_level(alloc: Global, mut job: Job, word: &str) -> Result<Reading, AllocError>
    ensures { IfOk result (λ further. further ≡ spec.with_level job word.now
        (spec.level_named word.now)) }
{
    let level = level_named(word);
    if level.is_some() {
        job.wanted.level = level;
        return Ok(Reading::Reads(job));
    }
    let words = format!(in alloc; "--level '{word}': give wire, json or source")?;
    Ok(Reading::Done(Request::Wrong(Text::from_string(words))))
}

/// A job with one file more.
fn with_file(alloc: Global, job: Job, word: &str) -> Result<Job, AllocError>
    ensures { IfOk result (λ further. further ≡ spec.with_file job word.now) }
{
    let name = Text::from_str(alloc, word)?;
    let mut job = job;
    job.files.push(name)?;
    Ok(job)
}

/// Whether a word begins with a dash and goes on.
fn is_option(word: &str) -> bool
    ensures { result ≡ spec.is_option word.now }
{
    matches!(word.as_bytes(), [b'-', _, ..])
}

/// An option that is not known, or the name of a file.
fn with_other(alloc: Global, job: Job, word: &str) -> Result<Reading, AllocError>
    ensures { IfOk result (λ further. further ≡ spec.with_other job word.now) }
{
    if is_option(word) {
        let words = format!(in alloc; "unknown option '{word}'")?;
        return Ok(Reading::Done(Request::Wrong(Text::from_string(words))));
    }
    Ok(Reading::Reads(with_file(alloc, job, word)?))
}

/// What is asked where the words end.
fn finished(alloc: Global, reading: Reading) -> Result<Request, AllocError>
    ensures { IfOk result (λ request. request ≡ spec.finished reading) }
{
    match reading {
        Reading::Reads(job) | Reading::Files(job) => with_files(alloc, job),
        Reading::Awaits(option, _) => wrong(alloc, awaited_words(option)),
        Reading::Done(request) => Ok(request),
    }
}

/// What is wanted behind an option that is the last word.
fn awaited_words(option: Valued) -> &'static str
    ensures { result.now ≡ spec.awaited_words option }
{
    match option {
        Valued::Format => "--format: give text, json, github, gitlab or sarif",
        Valued::MaxFaults => "--max-faults: give a number from 0 on",
        Valued::Describe => "--describe: give a full name or the name of a file",
        Valued::Linked => "--linked: give the name of the file to write",
        Valued::Against => "--against: give the name of the set of an older version",
        Valued::Compatibility => "--compatibility: give backward, forward or full",
        Valued::Level => "--level: give wire, json or source",
    }
}

/// Whether a format for programs is wanted, and something that it does not tell.
fn asks_too_much(wanted: &Wanted) -> bool
    ensures { result ≡ spec.asks_too_much wanted.now }
{
    !wanted.format.is_for_people() && (wanted.lists || !wanted.names.as_slice().is_empty())
}

/// Whether it is said which version is to read, or at which level, and there is none to compare
/// with.
fn compares_nothing(job: &Job) -> bool
    ensures { result ≡ spec.compares_nothing job.now }
{
    (job.wanted.compatibility.is_some() || job.wanted.level.is_some())
        && job.against.as_slice().is_empty()
}

/// A job that has files, asks nothing of a format that it does not tell, and compares something
/// where it says how.
fn with_files(alloc: Global, job: Job) -> Result<Request, AllocError>
    ensures { IfOk result (λ request. request ≡ spec.with_files job) }
{
    if job.files.as_slice().is_empty() {
        return wrong(alloc, "no file is named");
    }
    if asks_too_much(&job.wanted) {
        return wrong(
            alloc,
            "a format for programs shows the verdict alone: leave out --list and --describe",
        );
    }
    if compares_nothing(&job) {
        return wrong(
            alloc,
            "--compatibility and --level are about older versions: give --against",
        );
    }
    Ok(Request::Check(job))
}

/// Arguments that ask nothing, and why.
fn wrong(alloc: Global, words: &str) -> Result<Request, AllocError>
    ensures { IfOk result (λ request. request ≡ spec.wrong words.now) }
{
    Ok(Request::Wrong(Text::from_str(alloc, words)?))
}
