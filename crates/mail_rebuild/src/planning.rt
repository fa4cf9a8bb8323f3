// All that comes before the first output.
ghost use Rattle.std.specs.Prelude.{◌≡◌, ◌<◌, ◌≤◌, List, ℕ, length, Some, IfErr, IfOk};
ghost use Rattle.base_bytes.specs.declared.limits.TheConstants.{FILES_LIMIT};
ghost use Rattle.base_devices.specs.Causes.{FaultHasCause};
ghost use Rattle.base_devices.specs.CrashImages.{Image};
ghost use Rattle.base_devices.specs.Frames.{MayLeaveLess};
ghost use Rattle.base_devices.specs.SpoolCalls.{GaveNoName, MessageFile, shown_files};
ghost use Rattle.mail_rebuild.specs.Findings.{Finding, messages_in};
ghost use Rattle.mail_rebuild.specs.OldFile.{IsDiskFault};
ghost use Rattle.mail_rebuild.specs.OldIndex.{IsOldIndex};
ghost use Rattle.mail_rebuild.specs.Planning.{IsLate, IsListRefusal, IsListed, IsMadeOf, IsNoWriteFault, IsPlan, IsPlanRefusal, PlansFor, contents_of};
ghost use Rattle.mail_rebuild.specs.Rebuilds.{LimitIsPassed, NoLimitIsPassed, WhereShown};
ghost use Rattle.mail_rebuild.specs.Taking.{IsSpoolFault};

use crate::old_index::{OldIndex, old_index, read_old};
use crate::report::report;
use crate::taking::{Made, take_all};
use crate::{RebuildFault, Tally};
use base_bytes::FILES_LIMIT;
use base_devices::{Disk, Spool};
use base_notes::Options;
use index_form::IndexHeader;
use mail_scan::{Listing, ScanFault, list};
use std::alloc::Global;

// What is printed, and what is written.
#[derive(Drop)]
pub(crate) struct Plan {
    pub(crate) text: Vec<u8>,
    pub(crate) header: IndexHeader,
    // The records' bytes.
    pub(crate) records: Vec<u8>,
    pub(crate) tally: Tally,
}

// The names of the folder, of which there are no more than it may have.
fn list_folder<S: Spool>(alloc: Global, spool: &mut S) -> Result<Listing, RebuildFault>
    requires { GaveNoName (S.state spool.old) }
    ensures listed { IfOk result (λ listing. (files : List MessageFile) →
        shown_files (S.state spool.old) ≡ Some files → IsListed files listing) }
    ensures few { IfOk result (λ listing. length listing.messages ≤ FILES_LIMIT) }
    ensures few_files { IfOk result (λ _. (files : List MessageFile) →
        shown_files (S.state spool.old) ≡ Some files → length files ≤ FILES_LIMIT) }
    ensures limit { IfErr result (λ fault. (files : List MessageFile) →
        fault ≡ RebuildFault.TooMany → shown_files (S.state spool.old) ≡ Some files →
        FILES_LIMIT < length files) }
    ensures refused { IfErr result IsListRefusal }
    ensures cause { FaultHasCause IsSpoolFault (S.state spool.old).faults
        (S.state spool.new).faults result }
    ensures files { shown_files (S.state spool.new) ≡ shown_files (S.state spool.old) }
    ensures rest { S.spool_rest spool.old spool.new }
{
    match list(alloc, spool) {
        Ok(listing) => {
            if listing.uids().len() as u64 > FILES_LIMIT {
                return Err(RebuildFault::TooMany);
            }
            Ok(listing)
        }
        Err(ScanFault::SpoolFault) => Err(RebuildFault::SpoolFault),
        Err(ScanFault::TooMany) => Err(RebuildFault::TooMany),
        Err(ScanFault::NoMemory) => Err(RebuildFault::NoMemory),
    }
}

// The report and the index on what was made.
fn conclude(
    alloc: Global,
    options: &Options,
    old: OldIndex<'_>,
    made: Made,
) -> Result<Plan, RebuildFault>
    ensures planned { IfOk result (λ plan. (image : Image) (now : ℕ) (found : List Finding) →
        IsOldIndex image old.entry → IsMadeOf image now found made →
        PlansFor options.now image now (contents_of found made) plan) }
    ensures limit { IfErr result (λ fault. (image : Image) (now : ℕ) (found : List Finding) →
        IsOldIndex image old.entry → IsMadeOf image now found made →
        IsPlanRefusal image (messages_in found) fault) }
    ensures refused { IfErr result IsLate }
{
    let header = old.header();
    let whole = old.view().is_some();
    let Some(modseq) = made.index.modseq_over(&header, whole) else {
        return Err(RebuildFault::ModseqFull);
    };
    let Ok(text) = report(alloc, options, old, &made) else {
        return Err(RebuildFault::NoMemory);
    };
    Ok(Plan {
        text,
        header: made.index.header(&header, modseq),
        tally: made.index.tally,
        records: made.index.records,
    })
}

// Lists the folder, reads the old index, and scans the messages by rising uid.
pub(crate) fn prepare<D: Disk, S: Spool>(
    alloc: Global,
    disk: &mut D,
    spool: &mut S,
    now: u64,
    options: &Options,
) -> Result<Plan, RebuildFault>
    requires { GaveNoName (S.state spool.old) }
    ensures planned { IfOk result (λ plan.
        WhereShown (S.state spool.old) (D.state disk.old) now options.now (λ task.
        IsPlan task plan)) }
    ensures limit { IfErr result (λ fault.
        WhereShown (S.state spool.old) (D.state disk.old) now options.now (LimitIsPassed fault)) }
    ensures no_limit { IfOk result (λ _.
        WhereShown (S.state spool.old) (D.state disk.old) now options.now NoLimitIsPassed) }
    ensures refused { IfErr result IsNoWriteFault }
    ensures spool_cause { FaultHasCause IsSpoolFault (S.state spool.old).faults
        (S.state spool.new).faults result }
    ensures disk_cause { FaultHasCause IsDiskFault (D.state disk.old).faults
        (D.state disk.new).faults result }
    ensures same { IfOk result (λ _. (D.state disk.new).reads ≡ (D.state disk.old).reads) }
    ensures leaves { MayLeaveLess (D.state disk.old) (D.state disk.new) }
    ensures files { shown_files (S.state spool.new) ≡ shown_files (S.state spool.old) }
    ensures spool_rest { S.spool_rest spool.old spool.new }
    ensures disk_rest { D.disk_rest disk.old disk.new }
{
    let listing = list_folder(alloc, spool)?;
    let file = read_old(alloc, disk)?;
    let old = old_index(file.as_deref());
    let made = take_all(alloc, spool, listing, old, now)?;
    conclude(alloc, options, old, made)
}
