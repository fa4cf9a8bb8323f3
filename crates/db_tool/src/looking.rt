// What `show` and `get` do: a map is looked at, and what they print is printed in full before they end.
ghost use Rattle.std.specs.Prelude.{◌≡◌, ℕ, [], false, Some, is_some, if◌then◌else◌};
ghost use Rattle.base_bytes.specs.OrderedMap.{value_at, with_prefix};
ghost use Rattle.base_devices.specs.HostCalls.{moment};
ghost use Rattle.base_notes.specs.declared.note.Note.{Note};
ghost use Rattle.db_tool.specs.Doing.{Looks};
ghost use Rattle.db_tool.specs.Printing.{Prints, PrintsAll, holding, value_line, pair_text, shown};
ghost use Rattle.db_tool.specs.Tasks.{found_note, found_output};

use crate::notes::HOST_FAULT;
use crate::printing::{flush, print, print_part};
use base_bytes::{Bytes, Piece};
use base_devices::{Failed, Host};
use base_notes::Note;
use db_core::Db;
use std::alloc::Global;

// Prints a value and a line feed, in full before it ends.
fn print_line<H: Host>(host: &mut H, value: &[u8], output: &mut Piece) -> Result<(), Failed>
    requires { output.old ≡ [] }
    ensures all { PrintsAll (value_line (Some value.now))
        (moment (H.state host.old) (H.streams host.old))
        (moment (H.state host.new) (H.streams host.new)) result }
    ensures rest { H.host_rest host.old host.new }
{
    if let Err(fault) = print_part(host, value, b'\n', output) {
        return Err(fault);
    }
    flush(host, output)
}

// Prints a text in full before it ends.
fn print_whole<H: Host>(host: &mut H, text: &[u8], output: &mut Piece) -> Result<(), Failed>
    requires { output.old ≡ [] }
    ensures all { PrintsAll text.now (moment (H.state host.old) (H.streams host.old))
        (moment (H.state host.new) (H.streams host.new)) result }
    ensures rest { H.host_rest host.old host.new }
{
    if let Err(fault) = print(host, text, output) {
        return Err(fault);
    }
    flush(host, output)
}

/// Prints a text in which all pairs of a map stand as they are, as `act` does it for `show` without a prefix.
pub fn print_text<H: Host>(alloc: Global, text: &[u8], host: &mut H) -> Note
    ensures looks { Looks Note.Done text.now
        (moment (H.state host.old) (H.streams host.old))
        (moment (H.state host.new) (H.streams host.new)) result }
    ensures rest { H.host_rest host.old host.new }
{
    let Ok(mut output) = Piece::new(alloc) else {
        return Note::Memory;
    };
    match print_whole(host, text, &mut output) {
        Ok(()) => Note::Done,
        Err(_) => HOST_FAULT,
    }
}

// Prints a value that was found.
fn print_found<H: Host>(alloc: Global, value: &[u8], host: &mut H) -> Note
    ensures looks { Looks Note.Done (value_line (Some value.now))
        (moment (H.state host.old) (H.streams host.old))
        (moment (H.state host.new) (H.streams host.new)) result }
    ensures rest { H.host_rest host.old host.new }
{
    let Ok(mut output) = Piece::new(alloc) else {
        return Note::Memory;
    };
    match print_line(host, value, &mut output) {
        Ok(()) => Note::Done,
        Err(_) => HOST_FAULT,
    }
}

/// Prints the value of a key that was looked for, as `act` does it for `get`: an empty key is refused as line 1.
pub fn print_value<H: Host>(alloc: Global, key: &[u8], value: &Option<Bytes>, host: &mut H) -> Note
    ensures looks { Looks (found_note key.now value.now) (found_output key.now value.now)
        (moment (H.state host.old) (H.streams host.old))
        (moment (H.state host.new) (H.streams host.new)) result }
    ensures rest { H.host_rest host.old host.new }
{
    if key.is_empty() {
        return Note::BadLine { line: 1 };
    }
    match value {
        Some(value) => print_found(alloc, value.as_slice(), host),
        None => Note::Answer,
    }
}

/// Prints the value of a key.
pub(crate) fn get<H: Host, B: Db<H>>(alloc: Global, key: &[u8], db: &B, host: &mut H) -> Note
    requires sound { (B.state db.now).is_broken ≡ false }
    ensures looks { let value = value_at (B.state db.now).seen key.now in
        Looks (if is_some value then Note.Done else Note.Answer) (value_line value)
        (moment (H.state host.old) (H.streams host.old))
        (moment (H.state host.new) (H.streams host.new)) result }
    ensures rest { H.host_rest host.old host.new }
{
    let Some(value) = db.fetch(key) else {
        return Note::Answer;
    };
    print_found(alloc, value, host)
}

// Prints a pair: its key, TAB, its value and a line feed.
fn print_pair<H: Host>(
    host: &mut H,
    key: &[u8],
    value: &[u8],
    output: &mut Piece,
) -> Result<(), Failed>
    ensures prints { Prints (pair_text (key.now, value.now))
        (holding output.old (H.state host.old) (H.streams host.old))
        (holding output.new (H.state host.new) (H.streams host.new)) result }
    ensures rest { H.host_rest host.old host.new }
{
    if let Err(fault) = print_part(host, key, b'\t', output) {
        return Err(fault);
    }
    print_part(host, value, b'\n', output)
}

// Prints the pairs whose key has the prefix: one search, and then from each pair to the next.
fn print_pairs<H: Host, B: Db<H>>(
    prefix: &[u8],
    db: &B,
    host: &mut H,
    output: &mut Piece,
) -> Result<(), Failed>
    requires { (B.state db.now).is_broken ≡ false }
    ensures prints { Prints (shown (with_prefix (B.state db.now).seen prefix.now))
        (holding output.old (H.state host.old) (H.streams host.old))
        (holding output.new (H.state host.new) (H.streams host.new)) result }
    ensures rest { H.host_rest host.old host.new }
{
    let mut cursor = db.walk_from(prefix);
    for _ in 0..db.count() {
        let Some(step) = db.step(cursor) else {
            break;
        };
        if !step.pair.key.starts_with(prefix) {
            break;
        }
        if let Err(fault) = print_pair(host, step.pair.key, step.pair.value, output) {
            return Err(fault);
        }
        cursor = step.next;
    }
    Ok(())
}

// The same, in full before it ends.
fn print_map<H: Host, B: Db<H>>(
    prefix: &[u8],
    db: &B,
    host: &mut H,
    output: &mut Piece,
) -> Result<(), Failed>
    requires empty { output.old ≡ [] }
    requires sound { (B.state db.now).is_broken ≡ false }
    ensures all { PrintsAll (shown (with_prefix (B.state db.now).seen prefix.now))
        (moment (H.state host.old) (H.streams host.old))
        (moment (H.state host.new) (H.streams host.new)) result }
    ensures rest { H.host_rest host.old host.new }
{
    if let Err(fault) = print_pairs(prefix, db, host, output) {
        return Err(fault);
    }
    flush(host, output)
}

/// Prints the pairs whose key has the prefix, by rising key.
pub(crate) fn show<H: Host, B: Db<H>>(alloc: Global, prefix: &[u8], db: &B, host: &mut H) -> Note
    requires sound { (B.state db.now).is_broken ≡ false }
    ensures looks { Looks Note.Done (shown (with_prefix (B.state db.now).seen prefix.now))
        (moment (H.state host.old) (H.streams host.old))
        (moment (H.state host.new) (H.streams host.new)) result }
    ensures rest { H.host_rest host.old host.new }
{
    let Ok(mut output) = Piece::new(alloc) else {
        return Note::Memory;
    };
    match print_map(prefix, db, host, &mut output) {
        Ok(()) => Note::Done,
        Err(_) => HOST_FAULT,
    }
}
