// The pairs that are stored, and the order in which they are.
use base_bytes::{Bytes, NoMemory};
use db_core::Change;
use rand_core::Rng;
use rand_pcg::Pcg32;
use std::alloc::Global;
use std::io::{self, ErrorKind};

const VALUE: &[u8] = b"abcdefghijklmnopqrstuvwx";

/// The order in which keys of rising numbers stand.
#[derive(Clone, Copy)]
pub enum KeyOrder {
    None,
    Rising,
}

// A number for each one, in no order. Numbers that differ give numbers that do.
fn mixed(number: u32) -> u32 {
    let spread = number.wrapping_mul(2_654_435_769);
    (spread ^ (spread >> 15)).wrapping_mul(2_246_822_519)
}

// The key of a number: `user.` and eight letters from `a` to `p`. Numbers that differ have keys that do.
pub fn key_of(number: u32, order: KeyOrder) -> [u8; 13] {
    let mut rest = match order {
        KeyOrder::None => mixed(number),
        KeyOrder::Rising => number,
    };
    let mut key = *b"user.aaaaaaaa";
    for letter in key[5..].iter_mut().rev() {
        *letter = b'a' + (rest % 16) as u8;
        rest /= 16;
    }
    key
}

fn put_of(alloc: Global, key: &[u8], word: u32) -> Result<Change, NoMemory> {
    Ok(Change::Put {
        word,
        key: Bytes::of(alloc, key)?,
        value: Bytes::of(alloc, VALUE)?,
    })
}

// So many pairs, each with a random word, the same ones each time.
pub fn changes_of(alloc: Global, count: u32, order: KeyOrder) -> io::Result<Vec<Change>> {
    let mut rng = Pcg32::new(42, 54);
    let mut changes = Vec::new(alloc);
    for number in 0..count {
        let change = put_of(alloc, &key_of(number, order), rng.next_u32()).ok();
        changes.push(change.ok_or(ErrorKind::OutOfMemory)?)?;
    }
    Ok(changes)
}
