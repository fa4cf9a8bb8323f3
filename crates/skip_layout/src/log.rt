// The records of a layout. Each leads to those behind it, so they are spelled from the last to the first.
ghost use Rattle.std.specs.Prelude.{◌≡◌, ◌≤◌, ◌<◌, ◌+◌, ◌-◌, ◌^◌, ◌∷◌, ◌++◌, [], List, length, drop};
ghost use Rattle.std.specs.List.{AllByRecursion};
ghost use Rattle.skip_form.specs.Spelling.{record_bytes};
ghost use Rattle.skip_spec.specs.Appending.{pointers_to, put_record};
ghost use Rattle.skip_spec.specs.Chain.{Entry};
ghost use Rattle.skip_spec.specs.Layout.{fresh_entries, fresh_log, fresh_size, put_records, records_size};
ghost use Rattle.skip_layout.specs.Items.{FitsRecord, entry_at, item_of, items_in};
ghost use Rattle.skip_layout.specs.Sizes.{item_size};

use crate::item::{COMMIT, FRONT, LayoutItem, size_of};
use crate::record::write_record;
use skip_form::Kind;

// The pointers of the dummy, once a record at this offset with this level stands before the others.
fn lead_to(pointers: &mut [u64; 32], level: u8, at: u64)
    requires level { (1 ≤ level) × (level ≤ 31) }
    ensures { (e : Entry) (rest : List Entry) → e.level ≡ level → e.at ≡ at
        → pointers.old ≡ pointers_to 31 rest → pointers.new ≡ pointers_to 31 (e ∷ rest) }
{
    pointers[0] = at;
    pointers[2..level as usize + 1].fill(at);
}

// Spells the record of an item at an offset of the log, before records to which these pointers lead.
fn write_before(records: &mut [u8], at: usize, item: &LayoutItem, pointers: &mut [u64; 32])
    requires fits { FitsRecord (item_of item.now) }
    requires room { at + item_size (item_of item.now) ≤ length records.old }
    requires small { length records.old + 360 < 2 ^ 64 }
    ensures spelled { (rest : List Entry) → pointers.old ≡ pointers_to 31 rest
        → drop at records.new ≡ record_bytes (put_record (entry_at (336 + at) (item_of item.now)) rest)
        ++ drop (at + item_size (item_of item.now)) records.old }
    ensures leads { (rest : List Entry) → pointers.old ≡ pointers_to 31 rest
        → pointers.new ≡ pointers_to 31 (entry_at (336 + at) (item_of item.now) ∷ rest) }
    ensures length { length records.new ≡ length records.old }
{
    let size = size_of(item) as usize;
    let own = &pointers[..item.level as usize + 1];
    write_record(
        Kind::Put,
        item.level,
        own,
        item.key,
        item.value,
        &mut records[at..at + size],
    );
    lead_to(pointers, item.level, (FRONT + at) as u64);
}

// Spells the put records, and answers the pointers of the dummy before them.
fn write_records(records: &mut [u8], items: &[LayoutItem]) -> [u64; 32]
    requires fits { AllByRecursion FitsRecord (items_in items.now) }
    requires size { length records.old ≡ records_size (items_in items.now) }
    requires small { length records.old + 360 < 2 ^ 64 }
    ensures spelled { records.new ≡ put_records (fresh_entries (items_in items.now)) }
    ensures leads { result ≡ pointers_to 31 (fresh_entries (items_in items.now)) }
{
    let mut pointers = [0u64; 32];
    let mut at = records.len();
    let mut left = items.len();
    while left > 0 {
        left -= 1;
        let item = &items[left];
        at -= size_of(item) as usize;
        write_before(records, at, item, &mut pointers);
    }
    pointers
}

// Spells all behind the dummy, and answers the pointers of the dummy.
pub(crate) fn write_log(log: &mut [u8], items: &[LayoutItem]) -> [u64; 32]
    requires fits { AllByRecursion FitsRecord (items_in items.now) }
    requires size { length log.old + 336 ≡ fresh_size (items_in items.now) }
    requires small { length log.old + 336 < 2 ^ 64 }
    ensures spelled { log.new ≡ fresh_log (fresh_entries (items_in items.now)) }
    ensures leads { result ≡ pointers_to 31 (fresh_entries (items_in items.now)) }
{
    if items.is_empty() {
        return [0u64; 32];
    }
    let end = log.len() - COMMIT;
    let (records, commit) = log.split_at_mut(end);
    write_record(Kind::Commit, 0, &[FRONT as u64], b"", b"", commit);
    write_records(records, items)
}
