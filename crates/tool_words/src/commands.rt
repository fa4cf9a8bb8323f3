// Each tool's flags and positionals, as a command of clap.
ghost use Rattle.std.specs.Prelude.{◌≡◌, IfOk, [], ◌∷◌, false, true};
ghost use Rattle.clap.specs.Lexer.{usize_max};
ghost use Rattle.clap.specs.Words.{app_of, is_simple_and_free, rule_of};
ghost use Rattle.tool_words.specs.Commands.{command_of, flag_of, option_of, word_of, words_of};
ghost use Rattle.tool_words.specs.Commands.{dbtool_app, convert_app, reconstruct_app};
ghost use Rattle.tool_words.specs.Commands.{unexpunge_app, purge_app, check_app};

use clap::{Arg, ArgAction, Command};
use std::alloc::{AllocError, Global};

// A command with no arguments, not even `--help`.
fn bare<'a>(alloc: Global, name: &'a str) -> Command<'a>
    ensures { app_of result ≡ command_of name.entry.now [] }
{
    Command::new(alloc, name).disable_help_flag(true)
}

fn flag<'a>(alloc: Global, id: &'a str, letter: char) -> Arg<'a>
    ensures rule { rule_of result ≡ flag_of id.entry.now (letter ∷ []) }
    ensures local { result.global ≡ false }
{
    Arg::new(alloc, id).short(letter).action(ArgAction::SetTrue)
}

// A flag that takes a value.
fn option<'a>(alloc: Global, id: &'a str, letter: char) -> Arg<'a>
    ensures rule { rule_of result ≡ option_of id.entry.now (letter ∷ []) }
    ensures local { result.global ≡ false }
{
    Arg::new(alloc, id).short(letter)
}

// A word that has to stand there.
fn word<'a>(alloc: Global, id: &'a str) -> Arg<'a>
    ensures rule { rule_of result ≡ word_of id.entry.now }
    ensures local { result.global ≡ false }
{
    Arg::new(alloc, id).required(true)
}

// No, one or two words, which stand side by side.
fn up_to_two_words<'a>(alloc: Global, id: &'a str) -> Arg<'a>
    ensures rule { rule_of result ≡ words_of id.entry.now 0 2 }
    ensures local { result.global ≡ false }
{
    Arg::new(alloc, id).num_args(0..=2)
}

// Any number of words, or none.
fn any_words<'a>(alloc: Global, id: &'a str) -> Arg<'a>
    ensures rule { rule_of result ≡ words_of id.entry.now 1 usize_max }
    ensures local { result.global ≡ false }
{
    Arg::new(alloc, id).num_args(1..)
}

/// The last positional takes no to two words, which stand side by side.
pub(crate) fn dbtool<'a>(alloc: Global) -> Result<Command<'a>, AllocError>
    ensures app { IfOk result (λ command. app_of command ≡ dbtool_app) }
    ensures simple { IfOk result (λ command. is_simple_and_free (app_of command) ≡ true) }
{
    bare(alloc, "cyr_dbtool")
        .arg(flag(alloc, "make", 'n'))?
        .arg(word(alloc, "file"))?
        .arg(word(alloc, "backend"))?
        .arg(word(alloc, "action"))?
        .arg(up_to_two_words(alloc, "operands"))
}

/// Four words and no flag.
pub(crate) fn convert<'a>(alloc: Global) -> Result<Command<'a>, AllocError>
    ensures app { IfOk result (λ command. app_of command ≡ convert_app) }
    ensures simple { IfOk result (λ command. is_simple_and_free (app_of command) ≡ true) }
{
    bare(alloc, "cvt_cyrusdb")
        .arg(word(alloc, "old"))?
        .arg(word(alloc, "old_backend"))?
        .arg(word(alloc, "new"))?
        .arg(word(alloc, "new_backend"))
}

/// FOLDER stands for LIST too. PREFIX is a positional of its own, so a flag may stand before it.
pub(crate) fn reconstruct<'a>(alloc: Global) -> Result<Command<'a>, AllocError>
    ensures app { IfOk result (λ command. app_of command ≡ reconstruct_app) }
    ensures simple { IfOk result (λ command. is_simple_and_free (app_of command) ≡ true) }
{
    bare(alloc, "reconstruct")
        .arg(flag(alloc, "recurse", 'r'))?
        .arg(flag(alloc, "dry", 'n'))?
        .arg(flag(alloc, "quiet", 'q'))?
        .arg(flag(alloc, "skip_odd", 'o'))?
        .arg(flag(alloc, "force", 'G'))?
        .arg(word(alloc, "folder"))?
        .arg(Arg::new(alloc, "prefix"))
}

/// Any number of uids may follow FOLDER.
pub(crate) fn unexpunge<'a>(alloc: Global) -> Result<Command<'a>, AllocError>
    ensures app { IfOk result (λ command. app_of command ≡ unexpunge_app) }
    ensures simple { IfOk result (λ command. is_simple_and_free (app_of command) ≡ true) }
{
    bare(alloc, "unexpunge")
        .arg(flag(alloc, "list", 'l'))?
        .arg(flag(alloc, "all", 'a'))?
        .arg(flag(alloc, "by_uid", 'u'))?
        .arg(word(alloc, "folder"))?
        .arg(any_words(alloc, "uids"))
}

/// Three flags and four options with a number.
pub(crate) fn purge<'a>(alloc: Global) -> Result<Command<'a>, AllocError>
    ensures app { IfOk result (λ command. app_of command ≡ purge_app) }
    ensures simple { IfOk result (λ command. is_simple_and_free (app_of command) ≡ true) }
{
    bare(alloc, "ipurge")
        .arg(flag(alloc, "invert", 'i'))?
        .arg(flag(alloc, "skip_flagged", 's'))?
        .arg(flag(alloc, "exact", 'x'))?
        .arg(option(alloc, "days", 'd'))?
        .arg(option(alloc, "bytes", 'b'))?
        .arg(option(alloc, "kilo", 'k'))?
        .arg(option(alloc, "mega", 'm'))?
        .arg(word(alloc, "folder"))
}

/// One flag and FOLDER.
pub(crate) fn check<'a>(alloc: Global) -> Result<Command<'a>, AllocError>
    ensures app { IfOk result (λ command. app_of command ≡ check_app) }
    ensures simple { IfOk result (λ command. is_simple_and_free (app_of command) ≡ true) }
{
    bare(alloc, "chk_cyrus")
        .arg(flag(alloc, "mailbox", 'M'))?
        .arg(word(alloc, "folder"))
}
