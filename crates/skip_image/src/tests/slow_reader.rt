// A second reader of whole files, written from docs/formats.md alone: it holds nothing but the bytes, and goes over them
// from the start for each question.
use crate::Summary;
use base_bytes::{Damage, Flaw};

/// A byte of the file. Past its end there are zeros.
fn byte(file: &[u8], at: u64) -> u64 {
    match file.get(at as usize) {
        Some(byte) => *byte as u64,
        None => 0,
    }
}

/// A big-endian number.
fn number(file: &[u8], at: u64, size: u64) -> u64 {
    let mut value = 0u64;
    for place in 0..size {
        value = (value << 8) | byte(file, at.wrapping_add(place));
    }
    value
}

/// Eight bits leave the register of the CRC.
fn shifted(register: u64) -> u64 {
    let mut register = register;
    for _ in 0..8 {
        let taken = if register & 1 == 1 { 0xEDB8_8320 } else { 0 };
        register = (register >> 1) ^ taken;
    }
    register
}

/// The check word of some bytes, bit by bit.
fn word(file: &[u8], at: u64, size: u64) -> u64 {
    let mut register = 0xFFFF_FFFFu64;
    for place in 0..size {
        register = shifted(register ^ byte(file, at.wrapping_add(place)));
    }
    register ^ 0xFFFF_FFFF
}

fn need(holds: bool, at: u64, check: Flaw) -> Result<(), Damage> {
    if holds {
        return Ok(());
    }
    Err(Damage { at, check })
}

fn end(file: &[u8]) -> u64 {
    number(file, 48, 8)
}

fn is_clean(file: &[u8]) -> bool {
    byte(file, 59) & 1 == 0
}

fn has_magic(file: &[u8]) -> bool {
    number(file, 0, 8) == 0xA102_8B0D_7477_6F73
        && number(file, 8, 8) == 0x6B69_7020_6669_6C65
        && number(file, 16, 4) == 0
}

fn read_header(file: &[u8]) -> Result<(), Damage> {
    let size = file.len() as u64;
    need(size >= 64, 0, Flaw::Short)?;
    need(has_magic(file), 0, Flaw::Magic)?;
    need(number(file, 20, 4) == 1, 20, Flaw::Version)?;
    need(number(file, 60, 4) == word(file, 0, 60), 60, Flaw::Check)?;
    let end = end(file);
    need(end >= 336 && end % 8 == 0, 48, Flaw::Size)?;
    need(end <= size, 48, Flaw::Size)?;
    need(end == size || !is_clean(file), 48, Flaw::Size)
}

fn level(file: &[u8], at: u64) -> u64 {
    byte(file, at.wrapping_add(1))
}

fn key_size(file: &[u8], at: u64) -> u64 {
    number(file, at.wrapping_add(2), 2)
}

fn value_size(file: &[u8], at: u64) -> u64 {
    number(file, at.wrapping_add(4), 4)
}

/// All before the key.
fn head_size(file: &[u8], at: u64) -> u64 {
    level(file, at).wrapping_mul(8).wrapping_add(24)
}

/// Key and value.
fn used_size(file: &[u8], at: u64) -> u64 {
    key_size(file, at).wrapping_add(value_size(file, at))
}

/// Key, value and padding.
fn tail_size(file: &[u8], at: u64) -> u64 {
    let used = used_size(file, at);
    used.wrapping_add(7) / 8 * 8
}

fn size(file: &[u8], at: u64) -> u64 {
    head_size(file, at).wrapping_add(tail_size(file, at))
}

fn is_kind(file: &[u8], at: u64, kind: u8) -> bool {
    byte(file, at) == kind as u64
}

/// The type may stand here, and has the lengths that it may have.
fn has_kind(file: &[u8], at: u64) -> bool {
    let is_empty = key_size(file, at) == 0 && value_size(file, at) == 0;
    if at == 64 {
        return is_kind(file, at, b'=') && is_empty;
    }
    if is_kind(file, at, b'+') {
        return true;
    }
    is_empty && (is_kind(file, at, b'-') || is_kind(file, at, b'$'))
}

fn has_level(file: &[u8], at: u64) -> bool {
    let level = level(file, at);
    if at == 64 {
        return level == 31;
    }
    if is_kind(file, at, b'+') {
        return 1 <= level && level <= 31;
    }
    level == 0
}

fn is_extended(file: &[u8], at: u64) -> bool {
    key_size(file, at) == 0xFFFF || value_size(file, at) == 0xFFFF_FFFF
}

fn read_row(file: &[u8], at: u64) -> Result<(), Damage> {
    let room = end(file).wrapping_sub(at);
    need(room >= 8, at, Flaw::Short)?;
    need(has_kind(file, at), at, Flaw::Kind)?;
    need(has_level(file, at), at, Flaw::Level)?;
    need(!is_extended(file, at), at, Flaw::Extended)?;
    need(size(file, at) <= room, at, Flaw::Short)
}

fn read_rows(file: &[u8]) -> Result<(), Damage> {
    let mut at = 64;
    for _ in 0..file.len() {
        if at >= end(file) {
            return Ok(());
        }
        read_row(file, at)?;
        at = at.wrapping_add(size(file, at));
    }
    Ok(())
}

/// A record begins there, and not before 336.
fn is_start(file: &[u8], wanted: u64) -> bool {
    let mut at = 336;
    for _ in 0..file.len() {
        if at >= end(file) {
            return false;
        }
        if at == wanted {
            return true;
        }
        at = at.wrapping_add(size(file, at));
    }
    false
}

fn has_head_check(file: &[u8], at: u64) -> bool {
    let checked = head_size(file, at).wrapping_sub(8);
    number(file, at.wrapping_add(checked), 4) == word(file, at, checked)
}

fn has_tail_check(file: &[u8], at: u64) -> bool {
    let head = head_size(file, at);
    let found = number(file, at.wrapping_add(head).wrapping_sub(4), 4);
    found == word(file, at.wrapping_add(head), tail_size(file, at))
}

fn pointer(file: &[u8], at: u64, slot: u64) -> u64 {
    number(
        file,
        at.wrapping_add(8).wrapping_add(slot.wrapping_mul(8)),
        8,
    )
}

/// The greater of the slots that are below the end, or 0.
fn pointer_below_end(file: &[u8], at: u64) -> u64 {
    let mut greatest = 0;
    for slot in 0..2 {
        let offset = pointer(file, at, slot);
        if offset < end(file) && offset > greatest {
            greatest = offset;
        }
    }
    greatest
}

fn read_slots(file: &[u8], at: u64) -> Result<(), Damage> {
    let first = pointer(file, at, 0) >= end(file);
    let second = pointer(file, at, 1) >= end(file);
    need(!(first && second), at, Flaw::Slot)?;
    need(!is_clean(file) || !(first || second), at, Flaw::Slot)
}

fn read_delete(file: &[u8], at: u64) -> Result<u64, Damage> {
    need(has_head_check(file, at), at, Flaw::Check)?;
    need(has_tail_check(file, at), at, Flaw::Tail)?;
    let to = pointer(file, at, 0);
    if to != 0 {
        need(is_start(file, to), at, Flaw::Place)?;
        need(is_kind(file, to, b'+'), to, Flaw::Kind)?;
    }
    Ok(to)
}

/// The live record after the one at an offset, or 0.
fn read_next(file: &[u8], at: u64) -> Result<u64, Damage> {
    read_slots(file, at)?;
    let to = pointer_below_end(file, at);
    if to == 0 {
        return Ok(0);
    }
    need(is_start(file, to), at, Flaw::Place)?;
    need(!is_kind(file, to, b'$'), to, Flaw::Kind)?;
    if is_kind(file, to, b'-') {
        return read_delete(file, to);
    }
    Ok(to)
}

fn has_zero_padding(file: &[u8], at: u64) -> bool {
    let used = used_size(file, at);
    let body = at.wrapping_add(head_size(file, at));
    for place in used..tail_size(file, at) {
        if byte(file, body.wrapping_add(place)) != 0 {
            return false;
        }
    }
    true
}

/// A byte of the key, counted from 1, and 0 past its last.
fn key_byte(file: &[u8], at: u64, place: u64) -> u64 {
    if place >= key_size(file, at) {
        return 0;
    }
    let body = at.wrapping_add(head_size(file, at));
    byte(file, body.wrapping_add(place)).wrapping_add(1)
}

/// The key of the second record is above that of the first.
fn is_above(file: &[u8], first: u64, second: u64) -> bool {
    for place in 0..key_size(file, second) {
        let low = key_byte(file, first, place);
        let high = key_byte(file, second, place);
        if low != high {
            return low < high;
        }
    }
    false
}

/// The last record before one of the list that is on an upper level.
fn last_on(file: &[u8], before: u64, upper: u64) -> u64 {
    let mut at = 64;
    let mut last = 64;
    for _ in 0..file.len() {
        at = read_next(file, at).unwrap_or(0);
        if at == before {
            return last;
        }
        if level(file, at) > upper {
            last = at;
        }
    }
    last
}

/// On the upper levels below a height, the last records before one of the list lead to it.
fn is_linked(file: &[u8], to: u64, height: u64) -> bool {
    for upper in 1..height {
        if pointer(file, last_on(file, to, upper), upper.wrapping_add(1)) != to {
            return false;
        }
    }
    true
}

fn read_live(file: &[u8], before: u64, at: u64) -> Result<(), Damage> {
    let is_clean = is_clean(file);
    need(!is_clean || has_head_check(file, at), at, Flaw::Check)?;
    need(has_tail_check(file, at), at, Flaw::Tail)?;
    need(has_zero_padding(file, at), at, Flaw::Padding)?;
    need(is_above(file, before, at), at, Flaw::Order)?;
    need(
        !is_clean || is_linked(file, at, level(file, at)),
        at,
        Flaw::Link,
    )
}

fn read_list(file: &[u8]) -> Result<u64, Damage> {
    let mut at = 64;
    for count in 0..file.len() as u64 {
        let next = read_next(file, at)?;
        if next == 0 {
            return Ok(count);
        }
        read_live(file, at, next)?;
        at = next;
    }
    Ok(file.len() as u64)
}

/// The first flaw of a file, or what is found in it.
pub(super) fn read_slowly(file: &[u8]) -> Result<Summary, Damage> {
    let clean = is_clean(file);
    read_header(file)?;
    read_rows(file)?;
    need(!clean || has_head_check(file, 64), 64, Flaw::Check)?;
    need(has_tail_check(file, 64), 64, Flaw::Tail)?;
    let count = read_list(file)?;
    need(!clean || is_linked(file, 0, 31), 64, Flaw::Link)?;
    need(!clean || number(file, 32, 8) == count, 32, Flaw::Count)?;
    Ok(Summary { count, clean })
}
