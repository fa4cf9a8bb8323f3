// What a header says of its records together.
ghost use Rattle.std.specs.Prelude.{◌≡◌, ◌==◌, IsTrue, min, bit_and, if◌then◌else◌, ◌<◌, ◌≤◌, ◌*◌, ◌+◌, ◌++◌, [], ◌∷◌, List};

use crate::flags::{ANSWERED, DELETED, EXPUNGED, FLAGGED};
use crate::record::IndexRecord;

/// The totals of some records, one after another.
#[derive(Clone, Copy, Debug, PartialEq, Eq)]
pub struct Totals {
    /// How many records there are, expunged ones too.
    pub num_records: u32,
    /// The greatest UID, and 0 where there is no record.
    pub last_uid: u32,
    /// How many are not expunged.
    pub exists: u32,
    /// How many of these are marked as deleted.
    pub deleted: u32,
    /// How many of these are marked as answered.
    pub answered: u32,
    /// How many of these are flagged.
    pub flagged: u32,
    /// The sum of the sizes of these, in bytes.
    pub quota_mailbox_used: u64,
    /// When the first of the expunged ones was changed last, in seconds since 1970, and 0 where none is expunged.
    pub first_expunged: u32,
    ghost exists_within: { exists ≤ num_records },
    ghost deleted_within: { deleted ≤ exists },
    ghost answered_within: { answered ≤ exists },
    ghost flagged_within: { flagged ≤ exists },
    ghost used_within: { quota_mailbox_used ≤ 4294967295 * exists },
}

impl Totals {
    ghost use Rattle.index_form.specs.declared.record.IndexRecord.{IndexRecord};
    ghost use Rattle.index_form.specs.Totals.{AreTotals, stands, has_flag, expunged};

    /// The totals of no record.
    pub fn new() -> Totals
        ensures { AreTotals [] result }
    {
        Totals {
            num_records: 0,
            last_uid: 0,
            exists: 0,
            deleted: 0,
            answered: 0,
            flagged: 0,
            quota_mailbox_used: 0,
            first_expunged: 0,
        }
    }

    /// One record more. There may be 4,294,967,295 at most.
    pub fn add(&mut self, item: &IndexRecord)
        requires { self.old.num_records < 4294967295 }
        ensures totals { (rs : List IndexRecord) → AreTotals rs self.old →
            AreTotals (rs ++ item.now ∷ []) self.new }
        ensures counted { self.new.num_records ≡ self.old.num_records + 1 }
    {
        if item.system_flags & EXPUNGED == 0 {
            self.add_standing(item);
        } else {
            self.add_expunged(item);
        }
    }

    // A record that is not expunged.
    fn add_standing(&mut self, item: &IndexRecord)
        requires room { self.old.num_records < 4294967295 }
        requires stands { IsTrue (stands item.now) }
        ensures totals { (rs : List IndexRecord) → AreTotals rs self.old →
            AreTotals (rs ++ item.now ∷ []) self.new }
        ensures counted { self.new.num_records ≡ self.old.num_records + 1 }
    {
        self.num_records += 1;
        self.last_uid = self.last_uid.max(item.uid);
        self.exists += 1;
        self.deleted += count(item.system_flags, DELETED);
        self.answered += count(item.system_flags, ANSWERED);
        self.flagged += count(item.system_flags, FLAGGED);
        self.quota_mailbox_used += item.size as u64;
    }

    // An expunged record.
    fn add_expunged(&mut self, item: &IndexRecord)
        requires room { self.old.num_records < 4294967295 }
        requires expunged { IsTrue (has_flag expunged item.now) }
        ensures totals { (rs : List IndexRecord) → AreTotals rs self.old →
            AreTotals (rs ++ item.now ∷ []) self.new }
        ensures counted { self.new.num_records ≡ self.old.num_records + 1 }
    {
        self.first_expunged = self.first_with(item.last_updated);
        self.num_records += 1;
        self.last_uid = self.last_uid.max(item.uid);
    }

    // The first time of change, with that of an expunged record more.
    fn first_with(&self, time: u32) -> u32
        ensures none { self.now.exists ≡ self.now.num_records → result ≡ time }
        ensures some { self.now.exists < self.now.num_records →
            result ≡ min self.now.first_expunged time }
    {
        if self.exists == self.num_records {
            time
        } else {
            self.first_expunged.min(time)
        }
    }
}

// One where the flag is among these, and else none.
fn count(flags: u32, flag: u32) -> u32
    ensures { result ≡ (if bit_and flags flag == 0 then 0 else 1) }
{
    if flags & flag == 0 { 0 } else { 1 }
}
