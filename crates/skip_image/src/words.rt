// What a record must have, check by check.
ghost use Rattle.std.specs.Prelude.{◌≡◌, ◌≤◌, ◌<◌, ◌+◌, ◌-◌, ◌||◌, ℕ, List, length, slice_index};
ghost use Rattle.std.specs.List.{list_all};
ghost use Rattle.base_bytes.specs.declared.flaw.Flaw.TheVariants.{Check, Tail, Padding, Order, Link};
ghost use Rattle.skip_form.specs.Flaws.{head_in};
ghost use Rattle.skip_spec.specs.Records.{key_in};
ghost use Rattle.skip_spec.specs.Chain.{Entry};
ghost use Rattle.skip_spec.specs.FirstFlaw as first_flaw;
ghost use Rattle.skip_spec.specs.FirstFlaw.{is_dirty, is_zero, is_below};
ghost use Rattle.skip_image.specs.Image.{HasRecord};
ghost use Rattle.skip_image.specs.Verifying.{Finds, IsLogOf, AreLatest, HaveUppers};

use crate::checks::{Log, unless};
use crate::fields::{head_size_at, key_size_at, value_size_at};
use base_bytes::{Damage, Flaw, compare_keys, part_at, u32_at};
use check_word::check;
use skip_form::pointer;

/// The head check of the record at an offset is right.
pub(crate) fn is_head_right(file: &[u8], at: u64) -> bool
    requires there { HasRecord file.now at }
    ensures { result ≡ first_flaw.is_head_right file.now at }
{
    let start = at as usize;
    let size = head_size_at(file, start) - 8;
    u32_at(file, start + size) == check(part_at(file, start, size))
}

/// Where the file is clean, the head check of the record at an offset is right.
pub(crate) fn check_head(file: &[u8], log: Log, at: u64) -> Result<(), Damage>
    requires log { IsLogOf file.now log }
    requires there { HasRecord file.now at }
    ensures { let right = is_dirty file.now || first_flaw.is_head_right file.now at in
        Finds (first_flaw.unless right at Check) result }
{
    if log.dirty {
        return Ok(());
    }
    unless(is_head_right(file, at), at, Flaw::Check)
}

/// The tail check of the record at an offset is right.
pub(crate) fn check_tail(file: &[u8], at: u64) -> Result<(), Damage>
    requires there { HasRecord file.now at }
    ensures { Finds (first_flaw.unless (first_flaw.is_tail_right file.now at) at Tail) result }
{
    let start = at as usize;
    let head = head_size_at(file, start);
    let body = (key_size_at(file, start) + value_size_at(file, start)).next_multiple_of(8);
    let word = check(part_at(file, start + head, body));
    unless(u32_at(file, start + (head - 4)) == word, at, Flaw::Tail)
}

/// Each byte is zero.
fn are_zeros(bytes: &[u8]) -> bool
    ensures { result ≡ list_all is_zero bytes.now }
{
    bytes.iter().all(|byte| *byte == 0)
}

/// What stands between the value and the end of the record at an offset is zeros.
pub(crate) fn check_padding(file: &[u8], at: u64) -> Result<(), Damage>
    requires there { HasRecord file.now at }
    ensures { let right = first_flaw.is_padding_right file.now at in
        Finds (first_flaw.unless right at Padding) result }
{
    let start = at as usize;
    let used = key_size_at(file, start) + value_size_at(file, start);
    let padding = used.next_multiple_of(8) - used;
    let is_right = are_zeros(part_at(file, start + head_size_at(file, start) + used, padding));
    unless(is_right, at, Flaw::Padding)
}

fn key_at(file: &[u8], at: u64) -> &[u8]
    requires there { HasRecord file.now at }
    ensures { result.now ≡ key_in file.now at }
{
    let start = at as usize;
    part_at(
        file,
        start + head_size_at(file, start),
        key_size_at(file, start),
    )
}

/// The key of the record at an offset is above that of the one before.
pub(crate) fn check_order(file: &[u8], before: u64, at: u64) -> Result<(), Damage>
    requires before { HasRecord file.now before }
    requires there { HasRecord file.now at }
    ensures { let is_above = is_below (key_in file.now before) (key_in file.now at) in
        Finds (first_flaw.unless is_above at Order) result }
{
    let is_above = compare_keys(key_at(file, before), key_at(file, at)).is_lt();
    unless(is_above, at, Flaw::Order)
}

/// On the levels from 1 to below a height, the latest records point there.
fn lead_to(file: &[u8], last: &[u64; 31], to: u64, height: u8) -> bool
    requires low { 1 ≤ height }
    requires high { height ≤ 31 }
    requires uppers { HaveUppers file.now last.now }
    ensures { (passed : List Entry) → AreLatest last.now passed
        → result ≡ first_flaw.lead_to file.now passed to (height - 1) }
{
    let mut level = height - 1;
    while 0 < level {
        if pointer(file, last[level as usize], level + 1) != to {
            return false;
        }
        level -= 1;
    }
    true
}

/// Where the file is clean, the latest records of the levels below a height point to an offset; else the flaw is
/// at a place.
pub(crate) fn check_links(
    file: &[u8],
    log: Log,
    last: &[u64; 31],
    to: u64,
    height: u8,
    place: u64,
) -> Result<(), Damage>
    requires log { IsLogOf file.now log }
    requires low { 1 ≤ height }
    requires high { height ≤ 31 }
    requires uppers { HaveUppers file.now last.now }
    ensures { (passed : List Entry) → AreLatest last.now passed
        → let lead = first_flaw.lead_to file.now passed to (height - 1) in
        Finds (first_flaw.unless (is_dirty file.now || lead) place Link) result }
{
    if log.dirty {
        return Ok(());
    }
    unless(lead_to(file, last, to, height), place, Flaw::Link)
}
