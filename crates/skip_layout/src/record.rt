// One record, spelled where it stands.
ghost use Rattle.std.specs.Prelude.{◌≡◌, ◌≤◌, ◌+◌, length};
ghost use Rattle.skip_form.specs.Sizes as sizes;
ghost use Rattle.skip_form.specs.Spelling.{body_bytes, record_bytes};
ghost use Rattle.skip_spec.specs.Appending.{record_of};

use skip_form::{Head, Kind, head_size, tail_check, write_head_into};

// Writes a key, a value and zeros up to a multiple of eight bytes.
fn write_body(key: &[u8], value: &[u8], into: &mut [u8])
    requires { length into.old ≡ sizes.padded (length key.now + length value.now) }
    ensures { into.new ≡ body_bytes key.now value.now }
{
    let (first, others) = into.split_at_mut(key.len());
    first.copy_from_slice(key);
    let (second, padding) = others.split_at_mut(value.len());
    second.copy_from_slice(value);
    padding.fill(0);
}

// Writes a record of this type, level, pointers, key and value, with its check words.
#[tactic(auto, unfolding(skip_form::specs::Spelling::record_bytes))]
pub(crate) fn write_record(
    kind: Kind,
    level: u8,
    pointers: &[u64],
    key: &[u8],
    value: &[u8],
    into: &mut [u8],
)
    requires level { level ≤ 31 }
    requires key { length key.now ≤ 65534 }
    requires value { length value.now ≤ 4294967294 }
    requires pointers { length pointers.now ≡ level + 1 }
    requires size { length into.old
        ≡ sizes.record_size level (length key.now) (length value.now) }
    ensures { into.new ≡ record_bytes (record_of kind level pointers.now key.now value.now) }
{
    let head = Head {
        kind,
        level,
        key_len: key.len() as u64,
        value_len: value.len() as u64,
        size: into.len() as u64,
    };
    let (front, body) = into.split_at_mut(head_size(level, head.key_len) as usize);
    write_head_into(&head, pointers, tail_check(key, value), front);
    write_body(key, value, body);
}
