// What stands in a head, and the live record that it leads to.
ghost use Rattle.std.specs.Prelude.{◌≡◌, ◌↔◌, ◌≤◌, ◌<◌, ◌+◌, ◌*◌, length, true, None};
ghost use Rattle.std.specs.Int.{w64, to_be_bytes};
ghost use Rattle.base_bytes.specs.Fields.{part};
ghost use Rattle.skip_form.specs.Fields.{pointer_in};
ghost use Rattle.skip_form.specs.Flaws.{head_flaw, head_in};
ghost use Rattle.skip_spec.specs.Records.{HeadCheckIsRight};
ghost use Rattle.skip_spec.specs.Successor as successor;
ghost use Rattle.skip_spec.specs.Successor.{successor_under};
ghost use Rattle.skip_image.specs.Image.{CanStep};

use base_bytes::{Steps, part_at, u32_at};
use check_word::check;
use skip_form::{Head, head_at, pointer};
use skip_image::Image;
use std::marker::Brand;
use std::sync::ledger::{Blank, Ledger};

/// The head of the record at an offset at which there is one.
pub(crate) fn head_of(file: &[u8], at: u64) -> Head
    requires { head_flaw file.now at ≡ None }
    ensures head { result ≡ head_in file.now at }
    ensures level { result.level ≤ 31 }
    ensures inside { at + (head_in file.now at).size ≤ length file.now }
{
    match head_at(file, at) {
        Ok(head) => head,
        Err(_) => unreachable!(),
    }
}

/// How many bytes the head of the record at an offset has before its head check.
fn checked_size(file: &[u8], at: u64) -> usize
    requires { head_flaw file.now at ≡ None }
    ensures size { result ≡ 16 + 8 * (head_in file.now at).level }
    ensures inside { at + result + 8 ≤ length file.now }
{
    16 + 8 * head_of(file, at).level as usize
}

/// The head check of the record at an offset is right.
pub(crate) fn is_head_right(file: &[u8], at: u64) -> bool
    requires { head_flaw file.now at ≡ None }
    ensures { (result ≡ true) ↔ HeadCheckIsRight file.now at }
{
    let size = checked_size(file, at);
    let start = at as usize;
    u32_at(file, start + size) == check(part_at(file, start, size))
}

/// A slot of the record at an offset where it is below the end, and else 0.
pub(crate) fn below_end(file: &[u8], at: u64, slot: u8, end: u64) -> u64
    requires right { head_flaw file.now at ≡ None }
    requires slot { slot ≤ (head_in file.now at).level }
    ensures value { result ≡ successor.below_or_zero end (pointer_in file.now at slot) }
    ensures spelled { pointer_in file.now at slot < end
        → to_be_bytes w64 result ≡ part file.now (at + 8 + 8 * slot) 8 }
{
    let to = pointer(file, at, slot);
    if to < end { to } else { 0 }
}

/// The live record after the one at an offset, or 0.
pub(crate) fn next_after(image: &Image, at: u64, end: u64) -> u64
    requires { CanStep image.now.bytes end at }
    ensures { result ≡ successor_under image.now.bytes end at }
{
    next_counted::<Brand>(Blank::new(1), image, at, end)
}

// The steps that the image counts are of no use here.
fn next_counted<L: Ledger>(blank: Blank, image: &Image, at: u64, end: u64) -> u64
    requires name { blank.name ≡ L.name }
    requires parts { blank.parts ≡ L.parts }
    requires some { 0 < blank.parts }
    requires there { CanStep image.now.bytes end at }
    ensures { result ≡ successor_under image.now.bytes end at }
{
    let mut steps = Steps::<L>::new(blank);
    image.successor(at, end, &mut steps)
}
