// Counts and uids as words: decimal digits alone, with no sign.
ghost use Rattle.std.specs.Prelude.{◌≡◌, IfOk, None, Some, Err};
ghost use Rattle.tool_words.specs.Numbers.{count_of, is_digits, number_of, rounds_of, uid_of};
ghost use Rattle.tool_words.specs.declared.jobs.WordFault.TheVariants.{Usage};

use crate::WordFault;

/// The most rounds of `exercise`.
pub const ROUNDS_LIMIT: u32 = 10_000;

// The most digits of the rounds of `exercise`.
const ROUNDS_DIGITS: usize = 5;

// The most digits of a number of `ipurge` or a uid, which fits 32 bits.
const DIGITS: usize = 10;

fn has_only_digits(text: &str) -> bool
    ensures { result ≡ is_digits text.now }
{
    text.as_bytes().iter().all(|byte| byte.is_ascii_digit())
}

// The number that one to `digits` digits write, where it is at most `most`.
fn count(text: &str, digits: usize, most: u32) -> Option<u32>
    ensures { result ≡ count_of digits most text.now }
{
    if text.len() > digits || !has_only_digits(text) {
        return None;
    }
    match text.parse::<u32>() {
        Ok(number) if number <= most => Some(number),
        _ => None,
    }
}

/// The rounds of `exercise`, with any leading zeros.
pub(crate) fn rounds(word: &str) -> Result<u32, WordFault>
    ensures rounds { IfOk result (λ rounds. rounds_of word.now ≡ Some rounds) }
    ensures usage { result ≡ Err Usage → rounds_of word.now ≡ None }
{
    count(word, ROUNDS_DIGITS, ROUNDS_LIMIT).ok_or(WordFault::Usage)
}

/// A number of `ipurge`, with any leading zeros.
pub(crate) fn number(word: &str) -> Result<u32, WordFault>
    ensures number { IfOk result (λ number. number_of word.now ≡ Some number) }
    ensures usage { result ≡ Err Usage → number_of word.now ≡ None }
{
    count(word, DIGITS, u32::MAX).ok_or(WordFault::Usage)
}

/// A uid, with no leading zero.
pub(crate) fn uid(word: &str) -> Result<u32, WordFault>
    ensures uid { IfOk result (λ uid. uid_of word.now ≡ Some uid) }
    ensures usage { result ≡ Err Usage → uid_of word.now ≡ None }
{
    if word.as_bytes().starts_with(b"0") {
        return Err(WordFault::Usage);
    }
    number(word)
}
