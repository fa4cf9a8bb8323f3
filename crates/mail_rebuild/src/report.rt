// The lines that a rebuild prints.
ghost use Rattle.std.specs.Prelude.{◌≡◌, ◌-◌, ◌≤◌, ◌++◌, decimal, IfOk, OnOk};
ghost use Rattle.std.specs.List.{flat_map, range_with_len};
ghost use Rattle.base_devices.specs.CrashImages.{Image};
ghost use Rattle.mail_rebuild.specs.OldIndex.{IsOldIndex};
ghost use Rattle.index_form.specs.Reading.{records_of};
ghost use Rattle.index_form.specs.Views.{file_of};
ghost use Rattle.mail_rebuild.specs.MadeReport.{lines_of, report_of, tally_line};
ghost use Rattle.mail_rebuild.specs.Report.{fault_name as name_of_fault, ignored_in, ignored_line, ignored_places, index_line, odd_line};

use crate::old_index::OldIndex;
use crate::taking::Made;
use base_bytes::NoMemory;
use base_devices::Name;
use base_notes::Options;
use index_form::{IndexFault, IndexView};
use itoa::Buffer;
use std::alloc::Global;

/// What became of the messages of a folder and of the usable records of its old index.
#[derive(Clone, Copy, Debug, PartialEq, Eq)]
pub struct Tally {
    /// How many messages kept what their records say.
    pub kept: u32,
    /// How many messages have fresh records.
    pub fresh: u32,
    /// How many usable records have no message.
    pub dropped: u32,
}

// Adds bytes to a text.
pub(crate) fn append(text: &mut Vec<u8>, bytes: &[u8]) -> Result<(), NoMemory>
    ensures { OnOk result (text.new.items ≡ text.old.items ++ bytes.now) }
{
    match text.extend_from_slice(bytes) {
        Ok(()) => Ok(()),
        Err(_) => Err(NoMemory),
    }
}

// Adds words, a number and more words.
pub(crate) fn append_number(
    text: &mut Vec<u8>,
    before: &str,
    number: u64,
    behind: &str,
) -> Result<(), NoMemory>
    ensures { OnOk result (text.new.items
        ≡ text.old.items ++ (before.now ++ decimal number ++ behind.now)) }
{
    let mut buffer = Buffer::new();
    append(text, before.as_bytes())?;
    append(text, buffer.format(number).as_bytes())?;
    append(text, behind.as_bytes())
}

fn fault_name(fault: IndexFault) -> &'static str
    ensures { result.now ≡ name_of_fault fault }
{
    match fault {
        IndexFault::Short => "Short",
        IndexFault::Check => "Check",
        IndexFault::MinorVersion => "MinorVersion",
        IndexFault::RecordSize => "RecordSize",
        IndexFault::StartOffset => "StartOffset",
        IndexFault::Count => "Count",
    }
}

// Adds the line on an old index that is absent or damaged.
pub(crate) fn append_index(text: &mut Vec<u8>, old: OldIndex<'_>) -> Result<(), NoMemory>
    ensures { (image : Image) → IsOldIndex image old.entry →
        OnOk result (text.new.items ≡ text.old.items ++ index_line image) }
{
    match old {
        OldIndex::Absent => append(text, b"index absent\n"),
        OldIndex::Damaged(fault) => {
            append(text, b"index damaged: ")?;
            append(text, fault_name(fault).as_bytes())?;
            append(text, b"\n")
        }
        OldIndex::Whole(_) => Ok(()),
    }
}

// Adds a line for each place from one on, up to another.
fn append_ignored(text: &mut Vec<u8>, from: u32, to: u32) -> Result<(), NoMemory>
    requires { from ≤ to }
    ensures { OnOk result (text.new.items
        ≡ text.old.items ++ flat_map ignored_line (range_with_len from (to - from))) }
{
    for place in from..to {
        append_number(text, "record ", place as u64 + 1, " ignored\n")?;
    }
    Ok(())
}

// Adds a line for each record whose place is none of a usable record.
fn append_gaps(text: &mut Vec<u8>, view: IndexView<'_>) -> Result<(), NoMemory>
    ensures { OnOk result (text.new.items
        ≡ text.old.items ++ flat_map ignored_line (ignored_in (records_of (file_of view.entry)))) }
{
    let count = view.count();
    let mut from = 0;
    let mut usable = view.usable();
    while let Some((place, _)) = usable.next() {
        append_ignored(text, from, place)?;
        from = place + 1;
    }
    append_ignored(text, from, count)
}

// Adds a line for each old record that is not usable.
fn append_all_ignored(text: &mut Vec<u8>, old: OldIndex<'_>) -> Result<(), NoMemory>
    ensures { (image : Image) → IsOldIndex image old.entry → OnOk result (text.new.items
        ≡ text.old.items ++ flat_map ignored_line (ignored_places image)) }
{
    match old.view() {
        Some(view) => append_gaps(text, view),
        None => Ok(()),
    }
}

// Adds the line that every report ends with.
pub(crate) fn append_tally(text: &mut Vec<u8>, tally: Tally) -> Result<(), NoMemory>
    ensures { OnOk result (text.new.items ≡ text.old.items ++ tally_line tally) }
{
    append_number(text, "kept ", tally.kept as u64, "")?;
    append_number(text, " fresh ", tally.fresh as u64, "")?;
    append_number(text, " dropped ", tally.dropped as u64, "\n")
}

// Adds a line for each odd name.
pub(crate) fn append_odd(text: &mut Vec<u8>, odd: &[Name]) -> Result<(), NoMemory>
    ensures { OnOk result (text.new.items
        ≡ text.old.items ++ flat_map odd_line odd.now) }
{
    for name in odd {
        append(text, b"odd ")?;
        append(text, name.as_str().as_bytes())?;
        append(text, b"\n")?;
    }
    Ok(())
}

// Adds all lines but the last.
fn append_lines(
    text: &mut Vec<u8>,
    skip_odd: bool,
    old: OldIndex<'_>,
    made: &Made,
) -> Result<(), NoMemory>
    ensures { (image : Image) → IsOldIndex image old.entry →
        OnOk result (text.new.items ≡ text.old.items ++ lines_of skip_odd image made.now) }
{
    append_index(text, old)?;
    append_all_ignored(text, old)?;
    append(text, &made.index.lines)?;
    if skip_odd {
        return Ok(());
    }
    append_odd(text, &made.odd)
}

// The whole report.
pub(crate) fn report(
    alloc: Global,
    options: &Options,
    old: OldIndex<'_>,
    made: &Made,
) -> Result<Vec<u8>, NoMemory>
    ensures { (image : Image) → IsOldIndex image old.entry →
        IfOk result (λ text. text.items ≡ report_of options.now image made.now) }
{
    let mut text = Vec::new(alloc);
    if !options.quiet {
        append_lines(&mut text, options.skip_odd, old, made)?;
    }
    append_tally(&mut text, made.index.tally)?;
    Ok(text)
}
