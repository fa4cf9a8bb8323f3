// The way from one live record to the next.
ghost use Rattle.std.specs.Prelude.{◌≡◌, ◌≢◌, ◌≤◌, ◌<◌, ◌*◌, ℕ, List, length, IfOk};
ghost use Rattle.base_bytes.specs.declared.flaw.Flaw.TheVariants.{Slot};
ghost use Rattle.skip_form.specs.Fields.{pointer_in};
ghost use Rattle.skip_form.specs.Flaws.{head_in};
ghost use Rattle.skip_spec.specs.FirstFlaw as first_flaw;
ghost use Rattle.skip_spec.specs.FirstFlaw.{end_of, is_among, delete_flaw, pointer_flaw, way_flaw};
ghost use Rattle.skip_form.specs.Spelling.{type_byte};
ghost use Rattle.skip_spec.specs.Successor.{pointer_under, successor_under};
ghost use Rattle.skip_lists.specs.Heads.{HasSlots};
ghost use Rattle.skip_image.specs.Image.{HasRecord};
ghost use Rattle.skip_image.specs.Verifying.{Finds, IsLogOf, IsMarked};

use crate::checks::{Log, unless};
use crate::fields::{pointer_at, pointer_under};
use crate::marks::is_marked;
use crate::words::{check_tail, is_head_right};
use base_bytes::{Damage, Flaw};
use skip_form::pointer;

/// A record of the log begins at the offset.
fn is_start(log: Log, marks: &[u8], at: u64) -> bool
    requires room { log.end ≤ 64 * length marks.now }
    ensures { (file starts : List ℕ) → IsLogOf file log → IsMarked file marks.now starts
        → result ≡ is_among starts at }
{
    if log.end <= at {
        return false;
    }
    if at % 8 != 0 {
        return false;
    }
    is_marked(marks, at as usize)
}

/// The byte of the type of the record at an offset.
fn type_at(file: &[u8], at: u64) -> u8
    requires there { HasRecord file.now at }
    ensures { result ≡ type_byte (head_in file.now at).kind }
{
    file[at as usize]
}

/// One of the two level-zero slots is below the committed end, and where the file is clean both are.
fn check_slots(file: &[u8], log: Log, at: u64) -> Result<(), Damage>
    requires log { IsLogOf file.now log }
    requires there { HasSlots file.now at }
    ensures { Finds (first_flaw.unless (first_flaw.are_slots_right file.now at) at Slot) result }
{
    let first = pointer_at(file, at, 0) < log.end;
    let second = pointer_at(file, at, 1) < log.end;
    let are_right = if log.dirty {
        first || second
    } else {
        first && second
    };
    unless(are_right, at, Flaw::Slot)
}

/// The live record that the delete record at an offset leads to, or 0.
fn past_delete(file: &[u8], log: Log, marks: &[u8], at: u64) -> Result<u64, Damage>
    requires log { IsLogOf file.now log }
    requires marked { (starts : List ℕ) × IsMarked file.now marks.now starts }
    requires room { log.end ≤ 64 * length marks.now }
    requires inside { end_of file.now ≤ length file.now }
    requires there { HasRecord file.now at }
    ensures finds { (starts : List ℕ) → IsMarked file.now marks.now starts
        → Finds (delete_flaw file.now starts at) result }
    ensures next { IfOk result (λ next. next ≡ pointer_in file.now at 0) }
{
    unless(is_head_right(file, at), at, Flaw::Check)?;
    check_tail(file, at)?;
    let next = pointer(file, at, 0);
    if next == 0 {
        return Ok(0);
    }
    unless(is_start(log, marks, next), at, Flaw::Place)?;
    unless(type_at(file, next) == b'+', next, Flaw::Kind)?;
    Ok(next)
}

/// The live record that a pointer of the record at an offset leads to, or 0.
fn led_to(file: &[u8], log: Log, marks: &[u8], at: u64, to: u64) -> Result<u64, Damage>
    requires log { IsLogOf file.now log }
    requires marked { (starts : List ℕ) × IsMarked file.now marks.now starts }
    requires room { log.end ≤ 64 * length marks.now }
    requires inside { end_of file.now ≤ length file.now }
    ensures finds { (starts : List ℕ) → IsMarked file.now marks.now starts
        → Finds (pointer_flaw file.now starts at to) result }
    ensures next { IfOk result (λ next. (bound : ℕ) (from : ℕ)
        → to ≡ pointer_under file.now bound from → next ≡ successor_under file.now bound from) }
{
    if to == 0 {
        return Ok(0);
    }
    unless(is_start(log, marks, to), at, Flaw::Place)?;
    let kind = type_at(file, to);
    unless(kind != b'$', to, Flaw::Kind)?;
    if kind != b'-' {
        return Ok(to);
    }
    past_delete(file, log, marks, to)
}

/// The live record after the one at an offset, or 0.
pub(crate) fn next_live(file: &[u8], log: Log, marks: &[u8], at: u64) -> Result<u64, Damage>
    requires log { IsLogOf file.now log }
    requires marked { (starts : List ℕ) × IsMarked file.now marks.now starts }
    requires room { log.end ≤ 64 * length marks.now }
    requires inside { end_of file.now ≤ length file.now }
    requires there { HasSlots file.now at }
    ensures finds { (starts : List ℕ) → IsMarked file.now marks.now starts
        → Finds (way_flaw file.now starts at) result }
    ensures next { IfOk result (λ next. next ≡ first_flaw.successor file.now at) }
{
    check_slots(file, log, at)?;
    led_to(file, log, marks, at, pointer_under(file, at, log.end))
}
