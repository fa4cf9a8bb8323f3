// The words of `cyr_dbtool` and `cvt_cyrusdb`, with backends and actions.
ghost use Rattle.std.specs.Prelude.{◌≡◌, IfOk, [], ◌∷◌, None, Some, Err, map, option_and_then, string_bytes};
ghost use Rattle.tool_words.specs.Commands.{convert_app, dbtool_app};
ghost use Rattle.tool_words.specs.JobOf.{action_in, action_of, backend_in, convert_of, dbtool_of};
ghost use Rattle.tool_words.specs.Reading.{rows_by, rows_in};
ghost use Rattle.tool_words.specs.declared.jobs.WordFault.TheVariants.{Usage};

use crate::numbers::rounds;
use crate::reading::{has, read, rest, text, word};
use crate::{Job, WordFault, commands};
use base_bytes::{Bytes, NoMemory};
use base_notes::{Action, Backend};
use clap::ArgMatches;
use std::alloc::Global;

fn bytes_of(alloc: Global, word: &str) -> Result<Bytes, NoMemory>
    ensures { IfOk result (λ bytes. bytes ≡ word.now) }
{
    Bytes::of(alloc, word.as_bytes())
}

// The action of a name with no words behind it.
fn action_without_words(alloc: Global, name: &str) -> Result<Action, WordFault>
    ensures action { IfOk result (λ action. action_of name.now [] ≡ Some action) }
    ensures usage { result ≡ Err Usage → action_of name.now [] ≡ None }
{
    match name {
        "show" => Ok(Action::Show {
            prefix: bytes_of(alloc, "")?,
        }),
        "consistent" => Ok(Action::Consistent),
        "repack" => Ok(Action::Repack),
        "batch" => Ok(Action::Batch),
        _ => Err(WordFault::Usage),
    }
}

// The action of a name with one word behind it.
fn action_with_word(alloc: Global, name: &str, word: &str) -> Result<Action, WordFault>
    ensures action { IfOk result (λ action. action_of name.now (word.now ∷ []) ≡ Some action) }
    ensures usage { result ≡ Err Usage → action_of name.now (word.now ∷ []) ≡ None }
{
    match name {
        "show" => Ok(Action::Show {
            prefix: bytes_of(alloc, word)?,
        }),
        "get" => Ok(Action::Get {
            key: bytes_of(alloc, word)?,
        }),
        "delete" => Ok(Action::Delete {
            key: bytes_of(alloc, word)?,
        }),
        "exercise" => Ok(Action::Exercise {
            rounds: rounds(word)?,
        }),
        _ => Err(WordFault::Usage),
    }
}

// The action of a name with two words behind it.
fn action_with_two_words(
    alloc: Global,
    name: &str,
    key: &str,
    value: &str,
) -> Result<Action, WordFault>
    ensures action { IfOk result (λ action.
        action_of name.now (key.now ∷ value.now ∷ []) ≡ Some action) }
    ensures usage { result ≡ Err Usage → action_of name.now (key.now ∷ value.now ∷ []) ≡ None }
{
    if name != "set" {
        return Err(WordFault::Usage);
    }
    Ok(Action::Set {
        key: bytes_of(alloc, key)?,
        value: bytes_of(alloc, value)?,
    })
}

fn action(alloc: Global, matches: &ArgMatches<'_>) -> Result<Action, WordFault>
    ensures action { IfOk result (λ action. action_in (rows_in matches.now) ≡ Some action) }
    ensures usage { result ≡ Err Usage → action_in (rows_in matches.now) ≡ None }
{
    let Some(name) = word(matches, "action") else {
        return Err(WordFault::Usage);
    };
    match rest(matches, "operands") {
        None | Some([]) => action_without_words(alloc, name),
        Some([word]) => action_with_word(alloc, name, word),
        Some([key, value]) => action_with_two_words(alloc, name, key, value),
        _ => Err(WordFault::Usage),
    }
}

fn backend(matches: &ArgMatches<'_>, id: &str) -> Result<Backend, WordFault>
    ensures backend { IfOk result (λ backend.
        backend_in id.now (rows_in matches.now) ≡ Some backend) }
    ensures usage { result ≡ Err Usage → backend_in id.now (rows_in matches.now) ≡ None }
{
    match word(matches, id) {
        Some("twoskip") => Ok(Backend::Twoskip),
        Some("flat") => Ok(Backend::Flat),
        _ => Err(WordFault::Usage),
    }
}

/// The job of `cyr_dbtool ..`.
pub(crate) fn dbtool(alloc: Global, words: &[String]) -> Result<Job, WordFault>
    ensures job { IfOk result (λ job.
        option_and_then dbtool_of (rows_by dbtool_app (map string_bytes words.now)) ≡ Some job) }
    ensures usage { result ≡ Err Usage
        → option_and_then dbtool_of (rows_by dbtool_app (map string_bytes words.now)) ≡ None }
{
    let matches = read(commands::dbtool(alloc)?, words)?;
    Ok(Job::Dbtool {
        make: has(&matches, "make"),
        file: text(alloc, &matches, "file")?,
        backend: backend(&matches, "backend")?,
        action: action(alloc, &matches)?,
    })
}

/// The job of `cvt_cyrusdb ..`.
pub(crate) fn convert(alloc: Global, words: &[String]) -> Result<Job, WordFault>
    ensures job { IfOk result (λ job.
        option_and_then convert_of (rows_by convert_app (map string_bytes words.now)) ≡ Some job) }
    ensures usage { result ≡ Err Usage
        → option_and_then convert_of (rows_by convert_app (map string_bytes words.now)) ≡ None }
{
    let matches = read(commands::convert(alloc)?, words)?;
    Ok(Job::Convert {
        from: text(alloc, &matches, "old")?,
        from_kind: backend(&matches, "old_backend")?,
        to: text(alloc, &matches, "new")?,
        to_kind: backend(&matches, "new_backend")?,
    })
}
