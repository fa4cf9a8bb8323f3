// A map is written as its canonical text, in pieces, into the new file of a disk.
ghost use Rattle.std.specs.Prelude.{◌≡◌, ◌<◌, ◌≤◌, ◌+◌, ◌-◌, ◌∷◌, ◌++◌, [], true, false, IsSome, IfSome, OnOk, length, take, drop};
ghost use Rattle.std.specs.Result.{IsOk};
ghost use Rattle.base_bytes.specs.Escapes.{escaped, escaped_byte};
ghost use Rattle.base_bytes.specs.declared.limits.TheConstants.{PIECE_SIZE};
ghost use Rattle.base_devices.specs.CrashImages.{Shows};
ghost use Rattle.flat_db.specs.Entries.{pairs_of, part_of};
ghost use Rattle.flat_db.specs.FlatText.{canonical_text, pair_line};
ghost use Rattle.flat_db.specs.Plain.{Stands};
ghost use Rattle.flat_db.specs.Writing.{AddsBytes, Gathers, filling};

use crate::pairs::{Entry, part};
use base_bytes::Piece;
use base_devices::{Disk, Failed};

// Writes what is gathered.
pub(crate) fn flush<D: Disk>(disk: &mut D, piece: &mut Piece) -> Result<(), Failed>
    requires { Shows (D.state disk.old) → IsSome (D.state disk.old).fresh }
    ensures adds { AddsBytes [] (filling (D.state disk.old) piece.old)
        (filling (D.state disk.new) piece.new) result }
    ensures empty { OnOk result (piece.new ≡ []) }
    ensures rest { D.disk_rest disk.old disk.new }
{
    disk.new_write(piece.as_slice())?;
    piece.clear();
    Ok(())
}

// Writes what is gathered where it leaves no room for an escape.
fn make_room<D: Disk>(disk: &mut D, piece: &mut Piece) -> Result<(), Failed>
    requires { Shows (D.state disk.old) → IsSome (D.state disk.old).fresh }
    ensures adds { AddsBytes [] (filling (D.state disk.old) piece.old)
        (filling (D.state disk.new) piece.new) result }
    ensures room { OnOk result (length piece.new + 2 ≤ PIECE_SIZE) }
    ensures still { length piece.old + 2 ≤ PIECE_SIZE
        → (disk.new ≡ disk.old) × (piece.new ≡ piece.old) × IsOk result }
    ensures rest { D.disk_rest disk.old disk.new }
{
    if piece.room() < 2 {
        return flush(disk, piece);
    }
    Ok(())
}

// Whether a byte is written as it is. Some other control characters are taken for escaped ones: so it is one range.
fn stands(byte: u8) -> bool
    ensures { result ≡ true → escaped_byte byte ≡ byte ∷ [] }
{
    (byte > b'\r') & (byte < 0xff)
}

// Whether each byte of a field is written as it is. Without a branch, so that the compiler can look at several bytes at
// once.
fn field_stands(field: &[u8]) -> bool
    ensures { result ≡ true → Stands field.now }
{
    let mut all = true;
    for byte in field {
        all &= stands(*byte);
    }
    all
}

// Gathers the first bytes of a field, each escaped, as many as there is room for, and answers how many: at least one.
fn add_field(piece: &mut Piece, field: &[u8]) -> usize
    requires room { length piece.old + 2 ≤ PIECE_SIZE }
    requires some { 0 < length field.now }
    ensures added { piece.new ≡ piece.old ++ escaped (take result field.now) }
    ensures bound { (0 < result) × (result ≤ length field.now) }
{
    if field_stands(field) {
        piece.add(field)
    } else {
        piece.add_escaped(field)
    }
}

// Writes a field, escaped.
fn write_field<D: Disk>(disk: &mut D, field: &[u8], piece: &mut Piece) -> Result<(), Failed>
    requires { Shows (D.state disk.old) → IsSome (D.state disk.old).fresh }
    ensures adds { AddsBytes (escaped field.now) (filling (D.state disk.old) piece.old)
        (filling (D.state disk.new) piece.new) result }
    ensures gathers { Gathers (escaped field.now)
        (disk.old, piece.old) (disk.new, piece.new) result }
    ensures rest { D.disk_rest disk.old disk.new }
{
    let mut at = 0;
    while at < field.len() {
        make_room(disk, piece)?;
        at += add_field(piece, &field[at..]);
    }
    Ok(())
}

// Writes one byte as it is.
fn write_byte<D: Disk>(disk: &mut D, byte: u8, piece: &mut Piece) -> Result<(), Failed>
    requires { Shows (D.state disk.old) → IsSome (D.state disk.old).fresh }
    ensures adds { AddsBytes (byte ∷ []) (filling (D.state disk.old) piece.old)
        (filling (D.state disk.new) piece.new) result }
    ensures gathers { Gathers (byte ∷ []) (disk.old, piece.old) (disk.new, piece.new) result }
    ensures rest { D.disk_rest disk.old disk.new }
{
    make_room(disk, piece)?;
    piece.push(byte);
    Ok(())
}

// Writes a field, escaped, and the byte that ends it.
fn write_part<D: Disk>(disk: &mut D, field: &[u8], end: u8, piece: &mut Piece) -> Result<(), Failed>
    requires { Shows (D.state disk.old) → IsSome (D.state disk.old).fresh }
    ensures adds { AddsBytes (escaped field.now ++ end ∷ []) (filling (D.state disk.old) piece.old)
        (filling (D.state disk.new) piece.new) result }
    ensures gathers { Gathers (escaped field.now ++ end ∷ [])
        (disk.old, piece.old) (disk.new, piece.new) result }
    ensures rest { D.disk_rest disk.old disk.new }
{
    write_field(disk, field, piece)?;
    write_byte(disk, end, piece)
}

// Writes the line of a pair.
pub(crate) fn write_line<D: Disk>(
    disk: &mut D,
    key: &[u8],
    value: &[u8],
    piece: &mut Piece,
) -> Result<(), Failed>
    requires { Shows (D.state disk.old) → IsSome (D.state disk.old).fresh }
    ensures adds { AddsBytes (pair_line key.now value.now) (filling (D.state disk.old) piece.old)
        (filling (D.state disk.new) piece.new) result }
    ensures gathers { Gathers (pair_line key.now value.now)
        (disk.old, piece.old) (disk.new, piece.new) result }
    ensures rest { D.disk_rest disk.old disk.new }
{
    write_part(disk, key, b'\t', piece)?;
    write_part(disk, value, b'\n', piece)
}

// The size of the line of an entry, where it stands among the bytes as its pair is written.
fn standing_size(bytes: &[u8], entry: Entry) -> Option<usize>
    ensures within { IfSome result (λ size. entry.key.start + size ≤ length bytes.now) }
    ensures line { IfSome result (λ size. take size (drop entry.key.start bytes.now)
        ≡ pair_line (part_of bytes.now entry.key) (part_of bytes.now entry.value)) }
{
    let start = entry.key.start as usize;
    let tab = start + entry.key.size as usize;
    let end = entry.value.start as usize + entry.value.size as usize;
    if entry.value.start as usize != tab + 1 || end >= bytes.len() {
        return None;
    }
    if bytes[tab] != b'\t' || bytes[end] != b'\n' {
        return None;
    }
    if !field_stands(part(bytes, entry.key)) || !field_stands(part(bytes, entry.value)) {
        return None;
    }
    Some(end + 1 - start)
}

// Gathers the line of an entry in one piece, where it stands among the bytes as it is written and leaves room. Answers
// whether it did.
fn gather_line(bytes: &[u8], entry: Entry, piece: &mut Piece) -> bool
    ensures gathered { result ≡ true → piece.new
        ≡ piece.old ++ pair_line (part_of bytes.now entry.key) (part_of bytes.now entry.value) }
    ensures none { result ≡ false → piece.new ≡ piece.old }
{
    let Some(size) = standing_size(bytes, entry) else {
        return false;
    };
    if size >= piece.room() {
        return false;
    }
    let start = entry.key.start as usize;
    piece.add(&bytes[start..start + size]);
    true
}

// Writes the line of an entry's pair.
fn write_entry<D: Disk>(
    disk: &mut D,
    bytes: &[u8],
    entry: Entry,
    piece: &mut Piece,
) -> Result<(), Failed>
    requires { Shows (D.state disk.old) → IsSome (D.state disk.old).fresh }
    ensures adds { AddsBytes (pair_line (part_of bytes.now entry.key) (part_of bytes.now entry.value))
        (filling (D.state disk.old) piece.old) (filling (D.state disk.new) piece.new) result }
    ensures gathers { Gathers (pair_line (part_of bytes.now entry.key) (part_of bytes.now entry.value))
        (disk.old, piece.old) (disk.new, piece.new) result }
    ensures rest { D.disk_rest disk.old disk.new }
{
    if gather_line(bytes, entry, piece) {
        return Ok(());
    }
    write_line(
        disk,
        part(bytes, entry.key),
        part(bytes, entry.value),
        piece,
    )
}

/// Adds the canonical text of some pairs to the new file: to what is gathered, and in full pieces as they come.
pub(crate) fn write_pairs<D: Disk>(
    disk: &mut D,
    bytes: &[u8],
    entries: &[Entry],
    piece: &mut Piece,
) -> Result<(), Failed>
    requires { Shows (D.state disk.old) → IsSome (D.state disk.old).fresh }
    ensures adds { AddsBytes (canonical_text (pairs_of bytes.now entries.now))
        (filling (D.state disk.old) piece.old) (filling (D.state disk.new) piece.new) result }
    ensures gathers { Gathers (canonical_text (pairs_of bytes.now entries.now))
        (disk.old, piece.old) (disk.new, piece.new) result }
    ensures rest { D.disk_rest disk.old disk.new }
{
    for entry in entries {
        write_entry(disk, bytes, *entry, piece)?;
    }
    Ok(())
}
