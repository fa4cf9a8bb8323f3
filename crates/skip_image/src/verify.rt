// Verification of a whole file.
ghost use Rattle.std.specs.Prelude.{◌≡◌, ◌≤◌, ◌*◌, [], ℕ, List, length, IfOk, IfErr, Some};
ghost use Rattle.base_bytes.specs.declared.flaw.Damage.{Damage};
ghost use Rattle.skip_spec.specs.FirstFlaw.{front_flaw, FirstFlaw, InChain};
ghost use Rattle.skip_image.specs.Verifying.{IsLogOf, IsMarked, IsVerified, HasList, Raises, answer_of};

use crate::checks::Log;
use crate::fields::level_at;
use crate::front::{check_rows, log_of};
use crate::image::Image;
use crate::live::{check_dummy, check_end, check_live};
use crate::marks::clear;
use crate::way::next_live;
use base_bytes::Damage;

/// What verification finds in a file without a flaw.
#[derive(Clone, Copy, Debug, PartialEq, Eq)]
pub struct Summary {
    /// How many live records there are.
    pub count: u64,
    /// DIRTY is not set, so that no transaction was left open.
    pub clean: bool,
}

/// On the upper levels below a height the latest record is the one at an offset.
fn raise(last: &mut [u64; 31], at: u64, height: u8)
    requires low { 1 ≤ height }
    requires high { height ≤ 31 }
    ensures raised { Raises at height last.old last.new }
    ensures size { length last.new ≡ length last.old }
{
    for level in 1..height {
        last[level as usize] = at;
    }
}

/// Goes along the list, which begins at the dummy, and answers how many live records there are.
fn check_list(file: &[u8], log: Log, marks: &[u8]) -> Result<u64, Damage>
    requires front { front_flaw file.now ≡ None }
    requires log { IsLogOf file.now log }
    requires marked { (starts : List ℕ) × IsMarked file.now marks.now starts }
    requires room { log.end ≤ 64 * length marks.now }
    ensures list { (starts : List ℕ) → IsMarked file.now marks.now starts
        → IfOk result (HasList file.now starts) }
    ensures wrong { (starts : List ℕ) → IsMarked file.now marks.now starts
        → IfErr result (λ damage. InChain file.now starts (Some damage)) }
{
    let mut at = 64;
    let mut last = [64; 31];
    for count in 0..file.len() as u64 {
        let next = next_live(file, log, marks, at)?;
        if next == 0 {
            check_end(file, log, &last, count)?;
            return Ok(count);
        }
        check_live(file, log, &last, at, next)?;
        raise(&mut last, next, level_at(file, next as usize));
        at = next;
    }
    // Keys rise strictly, so no record is passed twice.
    unreachable!()
}

/// The first flaw of a file, or what is found in it.
fn examine(file: &[u8], marks: &mut [u8]) -> Result<Summary, Damage>
    requires room { length file.now ≤ 64 * length marks.old }
    ensures first { FirstFlaw file.now (answer_of result) }
    ensures verified { IfOk result (λ summary. IsVerified file.now summary.count summary.clean) }
    ensures size { length marks.new ≡ length marks.old }
{
    let log = log_of(file)?;
    clear(marks);
    check_rows(file, log, marks)?;
    check_dummy(file, log)?;
    let count = check_list(file, log, marks)?;
    Ok(Summary {
        count,
        clean: !log.dirty,
    })
}

impl Image {
    ghost use Rattle.std.specs.Prelude.{◌≡◌, ◌↔◌, Some, Err, IfOk};
    ghost use Rattle.base_bytes.specs.declared.flaw.Damage.{Damage};
    ghost use Rattle.skip_spec.specs.FirstFlaw.{FirstFlaw};
    ghost use Rattle.skip_image.specs.Verifying.{IsVerified};

    /// Verifies the file: answers its first flaw with its place, in the order of docs/formats.md, or what is found in
    /// it. It takes no memory and a time that grows with the length alone, whatever the bytes are.
    pub fn verify(&mut self) -> Result<Summary, Damage>
        ensures flaw { (damage : Damage)
            → (result ≡ Err damage) ↔ FirstFlaw self.old.bytes (Some damage) }
        ensures verified { IfOk result (λ summary.
            IsVerified self.old.bytes summary.count summary.clean) }
        ensures same { self.new ≡ self.old }
    {
        examine(&self.bytes, &mut self.marks)
    }
}
