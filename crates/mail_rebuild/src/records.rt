// The record of one message.
ghost use Rattle.std.specs.Prelude.{◌≡◌};
ghost use Rattle.base_devices.specs.SpoolCalls.{MessageFile};
ghost use Rattle.index_form.specs.Views.{record_of};
ghost use Rattle.mail_scan.specs.Facts.{IsScanned};
ghost use Rattle.mail_rebuild.specs.Rebuilt.{fresh_record as fresh_of, kept_record as kept_of, limit32 as limited, matches, record_of_file as facts_of, uid_of_file};

use index_form::{IndexRecord, RecordView, UNLINKED};
use mail_scan::Scanned;

// As much of a number as 32 bits hold.
pub(crate) fn limit32(number: u64) -> u32
    ensures { result ≡ limited number }
{
    number.min(4_294_967_295) as u32
}

// The message is as it was when the record was made.
pub(crate) fn is_match(found: &Scanned, old: RecordView<'_>) -> bool
    ensures { (file : MessageFile) → IsScanned file.bytes file.time found.now →
        result ≡ matches file (record_of old.entry) }
{
    old.size() == found.size && old.digest() == &found.digest[..]
}

// What the file says of a message that came at this time.
fn record_of_file(uid: u32, found: &Scanned, came: u32) -> IndexRecord
    ensures { (file : MessageFile) → IsScanned file.bytes file.time found.now →
        uid ≡ uid_of_file file → result ≡ facts_of file came }
{
    let sent = found.date.unwrap_or(came);
    IndexRecord {
        uid,
        internaldate: came,
        sentdate: sent - sent % 86_400,
        size: found.size,
        header_size: found.header_size,
        gmtime: sent,
        cache_offset: 0,
        last_updated: 0,
        system_flags: 0,
        user_flags: [0; 16],
        content_lines: found.lines,
        cache_version: 0,
        digest: found.digest,
        modseq: 0,
        cache_check: 0,
    }
}

// The record of a message that keeps nothing.
pub(crate) fn fresh_record(uid: u32, found: &Scanned, modseq: u64, now: u64) -> IndexRecord
    ensures { (file : MessageFile) → IsScanned file.bytes file.time found.now →
        uid ≡ uid_of_file file → result ≡ fresh_of modseq now file }
{
    let mut made = record_of_file(uid, found, limit32(found.time));
    made.last_updated = limit32(now);
    made.modseq = modseq;
    made
}

// The record of a message that keeps what an old record says of it besides.
pub(crate) fn kept_record(uid: u32, found: &Scanned, old: RecordView<'_>) -> IndexRecord
    ensures { (file : MessageFile) → IsScanned file.bytes file.time found.now →
        uid ≡ uid_of_file file → result ≡ kept_of (record_of old.entry) file }
{
    let mut made = record_of_file(uid, found, old.internaldate());
    made.last_updated = old.last_updated();
    made.system_flags = old.system_flags() & !UNLINKED;
    made.user_flags.copy_from_slice(old.user_flags());
    made.modseq = old.modseq();
    made
}
