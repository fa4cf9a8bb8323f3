// One live record, and the end of the list.
ghost use Rattle.std.specs.Prelude.{◌≡◌, ◌≤◌, ◌||◌, ◌==◌, ℕ, List, length};
ghost use Rattle.base_bytes.specs.declared.flaw.Flaw.TheVariants.{Count};
ghost use Rattle.skip_form.specs.Flaws.{head_in, header_in};
ghost use Rattle.skip_spec.specs.Records.{key_in};
ghost use Rattle.skip_spec.specs.Chain.{Entry};
ghost use Rattle.skip_spec.specs.FirstFlaw as first_flaw;
ghost use Rattle.skip_spec.specs.FirstFlaw.{is_dirty, latest_key, dummy_flaw, live_flaw, end_flaw};
ghost use Rattle.skip_image.specs.Image.{HasRecord};
ghost use Rattle.skip_image.specs.Verifying.{Finds, IsLogOf, AreLatest, HaveUppers};

use crate::checks::{Log, unless};
use crate::fields::level_at;
use crate::words::{check_head, check_links, check_order, check_padding, check_tail};
use base_bytes::{Damage, Flaw};

/// The check words of the dummy.
pub(crate) fn check_dummy(file: &[u8], log: Log) -> Result<(), Damage>
    requires log { IsLogOf file.now log }
    requires there { HasRecord file.now 64 }
    ensures { Finds (dummy_flaw file.now) result }
{
    check_head(file, log, 64)?;
    check_tail(file, 64)
}

/// The live record at an offset, after the one at `before`.
pub(crate) fn check_live(
    file: &[u8],
    log: Log,
    last: &[u64; 31],
    before: u64,
    at: u64,
) -> Result<(), Damage>
    requires log { IsLogOf file.now log }
    requires before { HasRecord file.now before }
    requires there { HasRecord file.now at }
    requires low { 1 ≤ (head_in file.now at).level }
    requires high { (head_in file.now at).level ≤ 31 }
    requires uppers { HaveUppers file.now last.now }
    ensures { (passed : List Entry) → AreLatest last.now passed
        → latest_key passed ≡ key_in file.now before → Finds (live_flaw file.now passed at) result }
{
    check_head(file, log, at)?;
    check_tail(file, at)?;
    check_padding(file, at)?;
    check_order(file, before, at)?;
    check_links(file, log, last, at, level_at(file, at as usize), at)
}

/// Where the file is clean, the header counts the live records.
fn check_count(file: &[u8], log: Log, count: u64) -> Result<(), Damage>
    requires log { IsLogOf file.now log }
    ensures { let is_counted = (header_in file.now).num_records == count in
        Finds (first_flaw.unless (is_dirty file.now || is_counted) 32 Count) result }
{
    let _ = file;
    if log.dirty {
        return Ok(());
    }
    unless(log.records == count, 32, Flaw::Count)
}

/// The end of the list, after so many live records.
pub(crate) fn check_end(file: &[u8], log: Log, last: &[u64; 31], count: u64) -> Result<(), Damage>
    requires log { IsLogOf file.now log }
    requires uppers { HaveUppers file.now last.now }
    ensures { (passed : List Entry) → AreLatest last.now passed → length passed ≡ count
        → Finds (end_flaw file.now passed) result }
{
    check_links(file, log, last, 0, 31, 64)?;
    check_count(file, log, count)
}
