// The words of `reconstruct`, `unexpunge`, `ipurge` and `chk_cyrus`.
ghost use Rattle.std.specs.Prelude.{◌≡◌, IfOk, None, Some, Err, map, option_and_then, option_map, string_bytes};
ghost use Rattle.tool_words.specs.Commands.{check_app, purge_app, reconstruct_app, unexpunge_app};
ghost use Rattle.tool_words.specs.JobOf.{check_of, measure_in, options_in, purge_of};
ghost use Rattle.tool_words.specs.JobOf.{reconstruct_of, test_in, uids_of, unexpunge_of, what_in};
ghost use Rattle.tool_words.specs.Reading.{rows_by, rows_in};
ghost use Rattle.tool_words.specs.declared.jobs.WordFault.TheVariants.{Usage};

use crate::numbers::{number, uid};
use crate::reading::{has, read, rest, text, word};
use crate::{Job, Measure, Test, UidList, What, WordFault, commands};
use base_bytes::Bytes;
use base_notes::Options;
use clap::ArgMatches;
use std::alloc::Global;

fn options(matches: &ArgMatches<'_>) -> Options
    ensures { result ≡ options_in (rows_in matches.now) }
{
    Options {
        dry: has(matches, "dry"),
        quiet: has(matches, "quiet"),
        skip_odd: has(matches, "skip_odd"),
        force: has(matches, "force"),
    }
}

/// The job of `reconstruct ..`: with `-r` of two words, and without it of one.
pub(crate) fn reconstruct(alloc: Global, words: &[String]) -> Result<Job, WordFault>
    ensures job { IfOk result (λ job. option_and_then reconstruct_of
        (rows_by reconstruct_app (map string_bytes words.now)) ≡ Some job) }
    ensures usage { result ≡ Err Usage → option_and_then reconstruct_of
        (rows_by reconstruct_app (map string_bytes words.now)) ≡ None }
{
    let matches = read(commands::reconstruct(alloc)?, words)?;
    let options = options(&matches);
    let folder = text(alloc, &matches, "folder")?;
    match (has(&matches, "recurse"), word(&matches, "prefix")) {
        (false, None) => Ok(Job::Reconstruct { options, folder }),
        (true, Some(prefix)) => Ok(Job::Recurse {
            options,
            list: folder,
            prefix: Bytes::of(alloc, prefix.as_bytes())?,
        }),
        _ => Err(WordFault::Usage),
    }
}

fn uids(alloc: Global, words: &[&str]) -> Result<UidList, WordFault>
    ensures uids { IfOk result (λ uids. uids_of (map (λ word. word.now) words.now) ≡ Some uids) }
    ensures usage { result ≡ Err Usage → uids_of (map (λ word. word.now) words.now) ≡ None }
{
    let mut uids = Vec::new(alloc);
    for word in words {
        uids.push(uid(word)?)?;
    }
    Ok(UidList::of(alloc, &uids)?)
}

// Just one of `-l`, `-a` and `-u`, and uids with `-u` alone.
fn what(alloc: Global, matches: &ArgMatches<'_>) -> Result<What, WordFault>
    ensures what { IfOk result (λ what. what_in (rows_in matches.now) ≡ Some what) }
    ensures usage { result ≡ Err Usage → what_in (rows_in matches.now) ≡ None }
{
    let flags = (
        has(matches, "list"),
        has(matches, "all"),
        has(matches, "by_uid"),
    );
    match (flags, rest(matches, "uids")) {
        ((true, false, false), None) => Ok(What::List),
        ((false, true, false), None) => Ok(What::All),
        ((false, false, true), Some(words)) => Ok(What::Uids {
            uids: uids(alloc, words)?,
        }),
        _ => Err(WordFault::Usage),
    }
}

/// The job of `unexpunge ..`.
pub(crate) fn unexpunge(alloc: Global, words: &[String]) -> Result<Job, WordFault>
    ensures job { IfOk result (λ job. option_and_then unexpunge_of
        (rows_by unexpunge_app (map string_bytes words.now)) ≡ Some job) }
    ensures usage { result ≡ Err Usage → option_and_then unexpunge_of
        (rows_by unexpunge_app (map string_bytes words.now)) ≡ None }
{
    let matches = read(commands::unexpunge(alloc)?, words)?;
    Ok(Job::Unexpunge {
        folder: text(alloc, &matches, "folder")?,
        what: what(alloc, &matches)?,
    })
}

// Just one of `-d`, `-b`, `-k` and `-m`, with its value.
fn measure<'a>(matches: &ArgMatches<'a>) -> Option<(Measure, &'a str)>
    ensures { option_map (λ m. (m.0, m.1.now)) result ≡ measure_in (rows_in matches.now) }
{
    let days = word(matches, "days");
    let bytes = word(matches, "bytes");
    let kilo = word(matches, "kilo");
    let mega = word(matches, "mega");
    match (days, bytes, kilo, mega) {
        (Some(number), None, None, None) => Some((Measure::Days, number)),
        (None, Some(number), None, None) => Some((Measure::Bytes, number)),
        (None, None, Some(number), None) => Some((Measure::Kilo, number)),
        (None, None, None, Some(number)) => Some((Measure::Mega, number)),
        _ => None,
    }
}

fn test(matches: &ArgMatches<'_>) -> Result<Test, WordFault>
    ensures test { IfOk result (λ test. test_in (rows_in matches.now) ≡ Some test) }
    ensures usage { result ≡ Err Usage → test_in (rows_in matches.now) ≡ None }
{
    let Some((by, word)) = measure(matches) else {
        return Err(WordFault::Usage);
    };
    Ok(Test {
        by,
        number: number(word)?,
        invert: has(matches, "invert"),
        exact: has(matches, "exact"),
        skip_flagged: has(matches, "skip_flagged"),
    })
}

/// The job of `ipurge ..`.
pub(crate) fn purge(alloc: Global, words: &[String]) -> Result<Job, WordFault>
    ensures job { IfOk result (λ job.
        option_and_then purge_of (rows_by purge_app (map string_bytes words.now)) ≡ Some job) }
    ensures usage { result ≡ Err Usage
        → option_and_then purge_of (rows_by purge_app (map string_bytes words.now)) ≡ None }
{
    let matches = read(commands::purge(alloc)?, words)?;
    Ok(Job::Purge {
        folder: text(alloc, &matches, "folder")?,
        test: test(&matches)?,
    })
}

/// The job of `chk_cyrus ..`, which the flag `-M` has to be given.
pub(crate) fn check(alloc: Global, words: &[String]) -> Result<Job, WordFault>
    ensures job { IfOk result (λ job.
        option_and_then check_of (rows_by check_app (map string_bytes words.now)) ≡ Some job) }
    ensures usage { result ≡ Err Usage
        → option_and_then check_of (rows_by check_app (map string_bytes words.now)) ≡ None }
{
    let matches = read(commands::check(alloc)?, words)?;
    if !has(&matches, "mailbox") {
        return Err(WordFault::Usage);
    }
    Ok(Job::Check {
        folder: text(alloc, &matches, "folder")?,
    })
}
