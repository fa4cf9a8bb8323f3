// The fields of a head, at an offset of some bytes.
ghost use Rattle.std.specs.Prelude.{◌≡◌, ◌+◌, ◌≤◌, length};
ghost use Rattle.base_bytes.specs.Fields.{part, u32_in};
ghost use Rattle.skip_form.specs.Fields.{pointer_in, u16_in};
ghost use Rattle.skip_form.specs.Flaws.{head_in};
ghost use Rattle.skip_spec.specs.Near.{free_slot_of};
ghost use Rattle.skip_spec.specs.Records.{head_size_of};
ghost use Rattle.skip_spec.specs.Successor as successor;
ghost use Rattle.skip_lists.specs.Heads.{HasSlots};

use base_bytes::{u32_at, u64_at};

/// The big-endian number of 16 bits at an offset.
fn u16_at(bytes: &[u8], at: usize) -> u16
    requires { at + 2 ≤ length bytes.now }
    ensures { result ≡ u16_in (part bytes.now at 2) }
{
    u16::from_be_bytes([bytes[at], bytes[at + 1]])
}

/// How many bytes the head of the record at an offset takes.
pub(crate) fn head_size_at(bytes: &[u8], at: usize) -> usize
    requires { at + 8 ≤ length bytes.now }
    ensures { result ≡ head_size_of (head_in bytes.now at) }
{
    8 + 8 * (bytes[at + 1] as usize + 1) + 8
}

/// How long the key of the record at an offset is.
pub(crate) fn key_size_at(bytes: &[u8], at: usize) -> usize
    requires { at + 8 ≤ length bytes.now }
    ensures { result ≡ (head_in bytes.now at).key_len }
{
    u16_at(bytes, at + 2) as usize
}

/// How long the value of the record at an offset is.
pub(crate) fn value_size_at(bytes: &[u8], at: usize) -> usize
    requires { at + 8 ≤ length bytes.now }
    ensures { result ≡ (head_in bytes.now at).value_len }
{
    u32_at(bytes, at + 4) as usize
}

/// The level of the record at an offset.
pub(crate) fn level_at(bytes: &[u8], at: usize) -> u8
    requires { at + 8 ≤ length bytes.now }
    ensures { result ≡ (head_in bytes.now at).level }
{
    bytes[at + 1]
}

/// A pointer of the dummy or of a put record.
pub(crate) fn pointer_at(bytes: &[u8], at: u64, slot: u8) -> u64
    requires there { HasSlots bytes.now at }
    requires slot { slot ≤ (head_in bytes.now at).level }
    ensures { result ≡ pointer_in bytes.now at slot }
{
    u64_at(bytes, at as usize + 8 + 8 * slot as usize)
}

fn below_or_zero(bound: u64, offset: u64) -> u64
    ensures { result ≡ successor.below_or_zero bound offset }
{
    if offset < bound { offset } else { 0 }
}

/// The greatest of the two level-zero slots that is below the bound, or 0.
pub(crate) fn pointer_under(bytes: &[u8], at: u64, bound: u64) -> u64
    requires there { HasSlots bytes.now at }
    ensures { result ≡ successor.pointer_under bytes.now bound at }
{
    let first = below_or_zero(bound, pointer_at(bytes, at, 0));
    let second = below_or_zero(bound, pointer_at(bytes, at, 1));
    first.max(second)
}

/// The level-zero slot, 0 or 1, that a writer takes: the one at or above the bound; where neither is, the lesser one;
/// where they are equal, slot 1.
pub(crate) fn free_slot_at(bytes: &[u8], at: u64, bound: u64) -> u8
    requires there { HasSlots bytes.now at }
    ensures exact { result ≡ free_slot_of bytes.now bound at }
    ensures range { result ≤ 1 }
{
    let first = pointer_at(bytes, at, 0);
    let second = pointer_at(bytes, at, 1);
    if bound <= first {
        0
    } else if bound <= second {
        1
    } else if first < second {
        0
    } else {
        1
    }
}
