// One key is looked for in a text, of which no map is made.
ghost use Rattle.std.specs.Prelude.{◌≡◌, ◌≢◌, ◌≤◌, cond, true, ℕ, Some, IfOk, IfErr, length};
ghost use Rattle.std.specs.BTreeMap.{is_at};
ghost use Rattle.std.specs.Option.{option_map};
ghost use Rattle.base_bytes.specs.OrderedMap.{key_order};
ghost use Rattle.flat_db.specs.Entries.{EndsBy, part_of};
ghost use Rattle.flat_db.specs.Finding.{FindsValue, IsSpanWithin};
ghost use Rattle.flat_db.specs.Reading.{IsFlatFault};

use crate::FlatFault;
use crate::lines::{any_line, unescaped_end};
use crate::pairs::{Entry, Span, part};
use base_bytes::{Damage, compare_keys};

// Whether the last bytes of two keys of one size differ.
fn ends_differ(key: &[u8], other: &[u8]) -> bool
    requires { length key.now ≡ length other.now }
    ensures { result ≡ true → key.now ≢ other.now }
{
    let size = key.len();
    size > 0 && key[size - 1] != other[size - 1]
}

// Whether two keys are the same. Most differ in size already or in their last byte, since neighbours begin alike.
fn is_same(key: &[u8], other: &[u8]) -> bool
    ensures { result ≡ is_at (key_order key.now) other.now }
{
    if key.len() != other.len() {
        return false;
    }
    if ends_differ(key, other) {
        return false;
    }
    compare_keys(key, other).is_eq()
}

// The value of a line that has the key, else the one that was found before.
fn later_value(text: &[u8], entry: Entry, key: &[u8], found: Option<Span>) -> Option<Span>
    ensures value { option_map (part_of text.now) result
        ≡ cond (is_at (key_order key.now) (part_of text.now entry.key))
        (Some (part_of text.now entry.value)) (option_map (part_of text.now) found) }
    ensures ends { (end : ℕ) → EndsBy end entry → IsSpanWithin end found → IsSpanWithin end result }
{
    if is_same(key, part(text, entry.key)) {
        Some(entry.value)
    } else {
        found
    }
}

// Looks all lines of a text through, and answers where the value of the last one with the key stands.
pub(crate) fn last_value(text: &mut [u8], key: &[u8]) -> Result<Option<Span>, FlatFault>
    requires short { length text.old ≤ 4294967295 }
    ensures found { IfOk result
        (λ value. FindsValue text.old key.now (option_map (part_of text.new) value)) }
    ensures fault { IfErr result (λ fault. IsFlatFault text.old fault) }
{
    let mut at = 0;
    let mut known = 0;
    let mut found = None;
    while at < text.len() {
        known = unescaped_end(text, at, known);
        let line = match any_line(text, at, known) {
            Ok(line) => line,
            Err(Damage { at, check }) => return Err(FlatFault::Damaged { at, check }),
        };
        found = later_value(text, line.entry, key, found);
        at = line.next;
    }
    Ok(found)
}
