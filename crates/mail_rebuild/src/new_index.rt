// The new index, made message by message.
ghost use Rattle.std.specs.Prelude.{◌≡◌, ◌<◌, ◌≤◌, ◌+◌, ◌==◌, ◌++◌, List, IfOk, OnOk, Some, None, codes, decimal, if◌then◌else◌};
ghost use Rattle.base_bytes.specs.declared.limits.TheConstants.{FILES_LIMIT};
ghost use Rattle.base_devices.specs.SpoolCalls.{MessageFile};
ghost use Rattle.index_form.specs.declared.record.IndexRecord.{IndexRecord};
ghost use Rattle.index_form.specs.Totals.{AreTotals, greatest_uid};
ghost use Rattle.index_form.specs.Views.{record_of};
ghost use Rattle.mail_scan.specs.Facts.{IsScanned};
ghost use Rattle.mail_rebuild.specs.Rebuilt.{fresh_record as fresh_of, header_over, kept_record as kept_of, next_generation as generation_behind, uid_of_file, uidvalidity_of};

use crate::records::{fresh_record, is_match, kept_record, limit32};
use crate::report::{Tally, append, append_number};
use base_bytes::NoMemory;
use index_form::{
    HEADER_SIZE, IndexHeader, MINOR_VERSION, RECORD_SIZE, RecordView, Totals, write_record,
};
use mail_scan::Scanned;
use std::alloc::Global;

// What was made of some messages and old records, by rising uid.
#[derive(Drop)]
pub(crate) struct NewIndex {
    // The records' bytes.
    pub(crate) records: Vec<u8>,
    pub(crate) totals: Totals,
    pub(crate) tally: Tally,
    // The greatest uid of an old record.
    pub(crate) usable_uid: u32,
    // The lines on uids.
    pub(crate) lines: Vec<u8>,
    // The modification number of a fresh record.
    modseq: u64,
    // The time of the rebuild, in seconds since 1970.
    time: u64,
    ghost counted: { tally.kept + tally.fresh ≡ totals.num_records },
}

impl NewIndex {
    ghost use Rattle.std.specs.Prelude.{[], min};
    ghost use Rattle.std.specs.Option.{option_map};
    ghost use Rattle.mail_rebuild.specs.NewIndex.{AddsDropped, AddsFinding, AddsFresh, AddsKept, CountsOne, HasRoom, HoldsFindings, is_due, next_modseq};

    // Nothing yet, with room for this many records.
    pub(crate) fn new(
        alloc: Global,
        count: usize,
        old: &IndexHeader,
        now: u64,
    ) -> Result<NewIndex, NoMemory>
        requires { count ≤ FILES_LIMIT }
        ensures holds { IfOk result (λ made. HoldsFindings [] made) }
        ensures modseq { IfOk result (λ made.
            made.modseq ≡ min (old.now.highestmodseq + 1) 18446744073709551615) }
        ensures time { IfOk result (λ made. made.time ≡ now) }
        ensures counts { IfOk result (λ made.
            (made.totals.num_records ≡ 0) × (made.tally.dropped ≡ 0)) }
    {
        let Ok(records) = Vec::with_capacity(alloc, count * RECORD_SIZE) else {
            return Err(NoMemory);
        };
        Ok(NewIndex {
            records,
            totals: Totals::new(),
            tally: Tally {
                kept: 0,
                fresh: 0,
                dropped: 0,
            },
            usable_uid: 0,
            lines: Vec::new(alloc),
            modseq: old.highestmodseq.saturating_add(1),
            time: now,
        })
    }

    // A message, with the record that it keeps.
    fn add_kept(&mut self, uid: u32, found: &Scanned, old: RecordView<'_>) -> Result<(), NoMemory>
        requires { self.old.totals.num_records < 4294967295 }
        ensures added { OnOk result ((file : MessageFile) →
            IsScanned file.bytes file.time found.now → uid ≡ uid_of_file file →
            AddsKept (kept_of (record_of old.entry) file) self.old self.new) }
        ensures counted { OnOk result (CountsOne self.old self.new) }
    {
        let made = kept_record(uid, found, old);
        append(&mut self.records, &write_record(&made))?;
        self.totals.add(&made);
        self.tally.kept += 1;
        Ok(())
    }

    // A message that keeps nothing, with what is said of it.
    fn add_fresh(&mut self, uid: u32, found: &Scanned, said: &str) -> Result<(), NoMemory>
        requires { self.old.totals.num_records < 4294967295 }
        ensures added { OnOk result ((file : MessageFile) →
            IsScanned file.bytes file.time found.now → uid ≡ uid_of_file file →
            AddsFresh (fresh_of self.old.modseq self.old.time file) said.now self.old self.new) }
        ensures counted { OnOk result (CountsOne self.old self.new) }
    {
        let made = fresh_record(uid, found, self.modseq, self.time);
        append(&mut self.records, &write_record(&made))?;
        self.totals.add(&made);
        self.tally.fresh += 1;
        append_number(&mut self.lines, "uid ", uid as u64, said)
    }

    // A message, and the record of its uid if there is one.
    pub(crate) fn add_message(
        &mut self,
        uid: u32,
        found: &Scanned,
        old: Option<RecordView<'_>>,
    ) -> Result<(), NoMemory>
        requires { HasRoom self.old }
        ensures added { OnOk result ((file : MessageFile) →
            IsScanned file.bytes file.time found.now → uid ≡ uid_of_file file →
            AddsFinding
            (record { message = Some file; old = option_map record_of old.entry })
            self.old self.new) }
        ensures counted { OnOk result (CountsOne self.old self.new) }
    {
        match old {
            None => self.add_fresh(uid, found, " new\n"),
            Some(old) => self.add_both(uid, found, old),
        }
    }

    // A message and the record of its uid.
    fn add_both(&mut self, uid: u32, found: &Scanned, old: RecordView<'_>) -> Result<(), NoMemory>
        requires { HasRoom self.old }
        ensures added { OnOk result ((file : MessageFile) →
            IsScanned file.bytes file.time found.now → uid ≡ uid_of_file file →
            AddsFinding
            (record { message = Some file; old = Some (record_of old.entry) }) self.old self.new) }
        ensures counted { OnOk result (CountsOne self.old self.new) }
    {
        self.usable_uid = self.usable_uid.max(old.uid());
        if is_match(found, old) {
            self.add_kept(uid, found, old)
        } else {
            self.add_fresh(uid, found, " unmatched\n")
        }
    }

    // A usable record without a message.
    pub(crate) fn add_old(&mut self, old: RecordView<'_>) -> Result<(), NoMemory>
        requires { HasRoom self.old }
        ensures added { OnOk result (AddsFinding
            (record { message = None; old = Some (record_of old.entry) }) self.old self.new) }
        ensures counted { OnOk result (CountsOne self.old self.new) }
    {
        self.usable_uid = self.usable_uid.max(old.uid());
        self.add_dropped(old.uid())
    }

    // The line on a usable record without a message.
    fn add_dropped(&mut self, uid: u32) -> Result<(), NoMemory>
        requires { self.old.tally.dropped < 4294967295 }
        ensures { OnOk result (AddsDropped uid self.old self.new) }
    {
        self.tally.dropped += 1;
        append_number(&mut self.lines, "uid ", uid as u64, " dropped\n")
    }

    // The modification number of the rebuild, or None where one is due after the last.
    pub(crate) fn modseq_over(&self, old: &IndexHeader, is_whole: bool) -> Option<u64>
        ensures { result ≡ next_modseq old.now.highestmodseq (is_due is_whole self.now.tally) }
    {
        let changed = self.tally.fresh as u64 + self.tally.dropped as u64;
        if !is_whole || changed > 0 {
            old.highestmodseq.checked_add(1)
        } else {
            Some(old.highestmodseq)
        }
    }

    // The header over the new records.
    pub(crate) fn header(&self, old: &IndexHeader, modseq: u64) -> IndexHeader
        ensures { (usable rs : List IndexRecord) → AreTotals rs self.now.totals →
            self.now.usable_uid ≡ greatest_uid usable →
            result ≡ record (header_over old.now usable rs self.now.time) {
              highestmodseq = modseq;
              deletedmodseq = if self.now.tally.dropped == 0 then old.now.deletedmodseq else modseq;
            } }
    {
        IndexHeader {
            generation: next_generation(old.generation),
            minor_version: MINOR_VERSION,
            start_offset: HEADER_SIZE as u32,
            record_size: RECORD_SIZE as u32,
            num_records: self.totals.num_records,
            last_uid: old.last_uid.max(self.usable_uid.max(self.totals.last_uid)),
            quota_mailbox_used: self.totals.quota_mailbox_used,
            uidvalidity: uidvalidity(old.uidvalidity, self.time),
            deleted: self.totals.deleted,
            answered: self.totals.answered,
            flagged: self.totals.flagged,
            leaked_cache: 0,
            highestmodseq: modseq,
            deletedmodseq: if self.tally.dropped == 0 {
                old.deletedmodseq
            } else {
                modseq
            },
            exists: self.totals.exists,
            first_expunged: self.totals.first_expunged,
            last_repack_time: limit32(self.time),
            sync_crc: 0,
            ..*old
        }
    }
}

// The next generation: after the last comes the first.
fn next_generation(old: u32) -> u32
    ensures { result ≡ generation_behind old }
{
    if old == u32::MAX { 1 } else { old + 1 }
}

// A number that tells the mailbox from others of its name: kept, or the time, which is never 0.
fn uidvalidity(old: u32, now: u64) -> u32
    ensures { result ≡ uidvalidity_of old now }
{
    if old == 0 { limit32(now).max(1) } else { old }
}
