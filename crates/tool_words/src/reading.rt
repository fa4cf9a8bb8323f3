// Clap's answer to a command line, flag by flag and word by word.
ghost use Rattle.std.specs.Prelude.{◌≡◌, IfOk, None, Some, Err, map, option_map, string_bytes, true};
ghost use Rattle.clap.specs.Words.{all_of, app_of, first_of, is_simple_and_free};
ghost use Rattle.tool_words.specs.Reading.{has_flag, rows_by, rows_in};
ghost use Rattle.tool_words.specs.declared.jobs.WordFault.TheVariants.{Usage};

use crate::WordFault;
use base_bytes::Text;
use clap::{ArgMatches, Command};
use std::alloc::Global;

/// What clap makes of a command line, the tool's name included. All that it refuses is `Usage`.
pub(crate) fn read<'a>(
    command: Command<'a>,
    words: &'a [String],
) -> Result<ArgMatches<'a>, WordFault>
    requires { is_simple_and_free (app_of command) ≡ true }
    ensures rows { IfOk result (λ matches.
        rows_by (app_of command.entry) (map string_bytes words.entry.now) ≡ Some (rows_in matches)) }
    ensures usage { result ≡ Err Usage
        → rows_by (app_of command.entry) (map string_bytes words.entry.now) ≡ None }
{
    Ok(command.try_get_matches_from(words)?)
}

/// Whether a flag was given.
pub(crate) fn has(matches: &ArgMatches<'_>, flag: &str) -> bool
    ensures { result ≡ has_flag flag.now (rows_in matches.now) }
{
    matches.get_one::<bool>(flag).unwrap_or(false)
}

/// The word of a positional or the value of an option.
pub(crate) fn word<'a>(matches: &ArgMatches<'a>, id: &str) -> Option<&'a str>
    ensures { option_map (λ word. word.now) result ≡ first_of id.now (rows_in matches.now) }
{
    matches.get_str(id)
}

/// The words of a positional that takes several, where there are any.
pub(crate) fn rest<'m, 'a>(matches: &'m ArgMatches<'a>, id: &str) -> Option<&'m [&'a str]>
    ensures { option_map (λ words. map (λ word. word.now) words.now) result
        ≡ all_of id.now (rows_in matches.entry.now) }
{
    matches.get_raw(id)
}

/// A copy of the word of a positional. It is `Usage` that it is not there.
pub(crate) fn text(alloc: Global, matches: &ArgMatches<'_>, id: &str) -> Result<Text, WordFault>
    ensures text { IfOk result (λ text. first_of id.now (rows_in matches.now) ≡ Some text) }
    ensures usage { result ≡ Err Usage → first_of id.now (rows_in matches.now) ≡ None }
{
    let Some(word) = word(matches, id) else {
        return Err(WordFault::Usage);
    };
    Ok(Text::of(alloc, word)?)
}
