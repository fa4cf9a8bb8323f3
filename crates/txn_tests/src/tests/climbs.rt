// A second climb, by the bytes of a clean file alone: where a key stands, how many steps it takes to find that, and how
// many a search may take. Nothing here calls what it is compared with.
use std::alloc::Global;
use std::test::Fail;

/// Where a key stands among the live records, and the steps of the climb: each pointer that is read on an upper level,
/// each record that is left on level zero, and one more for each delete record that is passed.
#[derive(Clone, Copy)]
pub struct Climb {
    pub here: u64,
    pub before: [u64; 31],
    pub exact: bool,
    pub steps: u64,
}

const DUMMY: u64 = 64;

fn byte_at(file: &[u8], at: u64) -> u64 {
    match file.get(at as usize) {
        Some(byte) => u64::from(*byte),
        None => 0,
    }
}

// The number of so many bytes.
fn number_at(file: &[u8], at: u64, size: u64) -> u64 {
    let mut number = 0u64;
    for index in 0..size {
        let byte = byte_at(file, at.wrapping_add(index));
        number = number.wrapping_mul(256).wrapping_add(byte);
    }
    number
}

fn level_at(file: &[u8], at: u64) -> u64 {
    byte_at(file, at.wrapping_add(1))
}

fn slot_at(file: &[u8], at: u64, slot: u64) -> u64 {
    let place = slot.wrapping_mul(8).wrapping_add(8);
    number_at(file, at.wrapping_add(place), 8)
}

// The key begins behind the head: eight bytes, the pointers, and two check words.
fn key_at(file: &[u8], at: u64) -> &[u8] {
    let head = level_at(file, at).wrapping_mul(8).wrapping_add(24);
    let start = at.wrapping_add(head);
    let end = start.wrapping_add(number_at(file, at.wrapping_add(2), 2));
    match file.get(start as usize..end as usize) {
        Some(key) => key,
        None => b"",
    }
}

// The next live record after one, and the steps to it: of the two slots of level zero the greater one that is below
// the committed end, by way of a delete record where one stands there.
fn next_live(file: &[u8], at: u64) -> (u64, u64) {
    let end = number_at(file, 48, 8);
    let mut next = 0;
    for slot in 0..2 {
        let pointer = slot_at(file, at, slot);
        if pointer < end && pointer > next {
            next = pointer;
        }
    }
    if next != 0 && byte_at(file, next) == u64::from(b'-') {
        (slot_at(file, next, 0), 2)
    } else {
        (next, 1)
    }
}

fn next_on(file: &[u8], at: u64, level: u64) -> (u64, u64) {
    if level == 0 {
        next_live(file, at)
    } else {
        (slot_at(file, at, level.wrapping_add(1)), 1)
    }
}

// The last record on a level whose key is below, from one on, the one after it, and the steps.
fn climb_level(file: &[u8], key: &[u8], level: u64, from: u64) -> (u64, u64, u64) {
    let mut at = from;
    let mut steps = 0u64;
    for _ in 0..file.len() {
        let (next, cost) = next_on(file, at, level);
        steps = steps.wrapping_add(cost);
        if next == 0 || key_at(file, next) >= key {
            return (at, next, steps);
        }
        at = next;
    }
    (at, 0, steps)
}

/// The climb to a key, from level 30 down.
pub fn climb_to(file: &[u8], key: &[u8]) -> Climb {
    let mut found = Climb {
        here: 0,
        before: [0; 31],
        exact: false,
        steps: 0,
    };
    let mut at = DUMMY;
    for (step, place) in found.before.iter_mut().rev().enumerate() {
        let level = 30u64.wrapping_sub(step as u64);
        let (last, next, cost) = climb_level(file, key, level, at);
        at = last;
        *place = last;
        found.here = next;
        found.steps = found.steps.wrapping_add(cost);
    }
    found.exact = found.here != 0 && key_at(file, found.here) == key;
    found
}

/// The levels of the live records before a key, in their order.
pub fn levels_before(alloc: Global, file: &[u8], key: &[u8]) -> Result<Vec<u64>, Fail> {
    let mut levels = Vec::new(alloc);
    let mut at = DUMMY;
    for _ in 0..file.len() {
        let (next, _) = next_live(file, at);
        if next == 0 || key_at(file, next) >= key {
            return Ok(levels);
        }
        levels.push(level_at(file, next))?;
        at = next;
    }
    Err("the list has no end".into())
}

// How many of these are above a level and stand after the last one that is above the next level.
fn records_on(levels: &[u64], level: u64) -> u64 {
    let mut count = 0u64;
    for other in levels {
        if *other > level.wrapping_add(1) {
            count = 0;
        } else if *other > level {
            count = count.wrapping_add(1);
        }
    }
    count
}

/// How many steps a search may take past records of these levels: on each upper level one for each record on it after
/// the last one on the next level, and one more; on level zero twice as many.
pub fn bound_of(levels: &[u64]) -> u64 {
    let mut bound = records_on(levels, 0).wrapping_add(1).wrapping_mul(2);
    for level in 1..31 {
        bound = bound
            .wrapping_add(records_on(levels, level))
            .wrapping_add(1);
    }
    bound
}
