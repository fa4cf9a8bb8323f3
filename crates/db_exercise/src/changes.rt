// The changes of a round, by their numbers.
ghost use Rattle.std.specs.Prelude.{◌≡◌, ◌<◌, IfOk};
ghost use Rattle.db_exercise.specs.Changes.{change_at, deletes, hex_digit, key_of, spread_of, transaction_at, words_behind, words_left};
ghost use Rattle.db_exercise.specs.declared.changes.TheConstants.{ROUND_LIMIT};
ghost use Rattle.rand_core.specs.Stream.{next_u32};

use base_bytes::{Bytes, NoMemory};
use db_core::Change;
use itoa::Buffer;
use rand_core::Rng;
use std::alloc::Global;

/// How many rounds an exercise may have.
pub const ROUND_LIMIT: u32 = 10_000;

// A number spread over 32 bits.
fn spread(number: u32) -> u64
    ensures value { result ≡ spread_of number }
    ensures within { result < 4294967296 }
{
    number as u64 * 2_654_435_761 % 4_294_967_296
}

// A hexadecimal digit.
fn digit(number: u64) -> u8
    requires { number < 16 }
    ensures { result ≡ hex_digit number }
{
    b"0123456789abcdef"[number as usize]
}

// The key of a change.
fn key_at(number: u32) -> [u8; 4]
    ensures { result ≡ key_of number }
{
    let head = spread(number) / 1_048_576;
    [
        b'k',
        digit(head / 256),
        digit(head / 16 % 16),
        digit(head % 16),
    ]
}

// Whether a change takes its key out.
fn is_delete(number: u32) -> bool
    ensures { result ≡ deletes number }
{
    spread(number) / 256 % 8 == 0
}

// A change with its random word. It takes memory for key and value.
fn change_of(alloc: Global, number: u32, word: u32) -> Result<Change, NoMemory>
    ensures { IfOk result (λ change. change ≡ change_at number word) }
{
    let key = Bytes::of(alloc, &key_at(number))?;
    if is_delete(number) {
        return Ok(Change::Del { key });
    }
    let mut buffer = Buffer::new();
    let value = Bytes::of(alloc, buffer.format(number).as_bytes())?;
    Ok(Change::Put { word, key, value })
}

// The random word of a change: only a pair that is to be put takes one.
fn word_for<R: Rng>(number: u32, rng: &mut R) -> u32
    ensures rest { R.stream rng.new ≡ words_behind number (R.stream rng.old) }
    ensures word { change_at number result ≡ change_at number (next_u32 (R.stream rng.old)).0 }
{
    if is_delete(number) {
        return 0;
    }
    rng.next_u32()
}

// The four changes of a round. Its words are drawn first, whether memory is there or not.
pub(crate) fn changes_of<R: Rng>(
    alloc: Global,
    round: u32,
    rng: &mut R,
) -> Result<[Change; 4], NoMemory>
    requires { round < ROUND_LIMIT }
    ensures changes { IfOk result (λ changes. changes ≡ transaction_at round (R.stream rng.old)) }
    ensures words { R.stream rng.new ≡ words_left round (R.stream rng.old) }
{
    let number = 4 * round;
    let first_word = word_for(number, rng);
    let second_word = word_for(number + 1, rng);
    let third_word = word_for(number + 2, rng);
    let fourth_word = word_for(number + 3, rng);
    let first = change_of(alloc, number, first_word)?;
    let second = change_of(alloc, number + 1, second_word)?;
    let third = change_of(alloc, number + 2, third_word)?;
    let fourth = change_of(alloc, number + 3, fourth_word)?;
    Ok([first, second, third, fourth])
}
