// What follows from lengths and levels alone.
ghost use Rattle.std.specs.Prelude.{◌≡◌, ◌+◌, ◌≤◌, ◌<◌, ◌^◌, min, length};
ghost use Rattle.std.specs.Int.{w32, trailing_ones};
ghost use Rattle.check_word.specs.CheckWord.{check_word};
ghost use Rattle.skip_form.specs.Sizes as sizes;
ghost use Rattle.skip_form.specs.Spelling.{body_bytes};

use check_word::Check;

const ZEROS: [u8; 8] = [0; 8];

/// How many bytes the head of a record takes, for a level of at most 31 and a key of at most 65,534
/// bytes.
pub fn head_size(level: u8, key_len: u64) -> u64
    requires level { level ≤ 31 }
    requires key { key_len ≤ 65534 }
    ensures { result ≡ sizes.head_size level key_len }
{
    8 + 8 * (level as u64 + 1) + 8
}

/// How many bytes a whole record takes, for a level of at most 31, a key of at most 65,534 bytes and
/// a value of at most 4,294,967,294.
pub fn record_size(level: u8, key_len: u64, value_len: u64) -> u64
    requires level { level ≤ 31 }
    requires key { key_len ≤ 65534 }
    requires value { value_len ≤ 4294967294 }
    ensures { result ≡ sizes.record_size level key_len value_len }
{
    head_size(level, key_len) + (key_len + value_len + 7) / 8 * 8
}

/// The check word over key, value and padding.
pub fn tail_check(key: &[u8], value: &[u8]) -> u32
    ensures { result ≡ check_word (body_bytes key.now value.now) }
{
    let padding = (8 - (key.len() % 8 + value.len() % 8) % 8) % 8;
    let mut word = Check::new();
    word.add(key);
    word.add(value);
    word.add(&ZEROS[..padding]);
    word.done()
}

/// The level that a random word gives to a record: one more than its trailing one bits, at most 31.
/// So each level is half as frequent as the one below it.
pub fn level_of(word: u32) -> u8
    ensures { result ≡ min (1 + trailing_ones w32 word) 31 }
{
    (1 + word.trailing_ones()).min(31) as u8
}
