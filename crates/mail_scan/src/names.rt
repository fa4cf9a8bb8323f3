// The names of message files.
ghost use Rattle.std.specs.Prelude.{◌≡◌, ℕ, MatchOption};
ghost use Rattle.mail_scan.specs.Names.{IsMessageName, name_of};

use arrayvec::ArrayString;
use base_devices::Name;
use itoa::Buffer;

/// The uid of a message file, from 1 to 4,294,967,295: its name is the uid in decimal without leading zeros, and one
/// dot. None for every other name.
pub fn uid_of_name(name: &str) -> Option<u32>
    ensures { MatchOption result ((uid : ℕ) → IsMessageName name.now uid → ⊥)
        (λ uid. IsMessageName name.now uid) }
{
    let digits = name.strip_suffix('.')?;
    match digits.as_bytes() {
        [b'1'..=b'9', ..] => digits.parse().ok(),
        _ => None,
    }
}

/// The name of the message with this uid: the uid in decimal, and one dot. It takes no memory.
pub fn message_name(uid: u32) -> Name
    ensures { result ≡ name_of uid }
{
    let mut buffer = Buffer::new();
    let mut text = ArrayString::<16>::new();
    text.push_str(buffer.format(uid));
    text.push('.');
    Name::of(text.as_str()).unwrap()
}
