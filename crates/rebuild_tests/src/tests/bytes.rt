// Numbers in bytes and check words, as docs/formats.md has them.

// Bytes from an offset on, none where some of them are past the end.
pub(crate) fn part(bytes: &[u8], at: usize, size: usize) -> &[u8] {
    if at <= bytes.len() && size <= bytes.len() - at {
        &bytes[at..at + size]
    } else {
        b""
    }
}

// The number that stands at an offset, highest byte first.
pub(crate) fn number(bytes: &[u8], at: usize, size: usize) -> u64 {
    let mut number = 0u64;
    for byte in part(bytes, at, size) {
        number = number.wrapping_mul(256).wrapping_add(*byte as u64);
    }
    number
}

// Puts bytes at an offset, as far as there are bytes to be put over.
pub(crate) fn put(bytes: &mut [u8], at: usize, field: &[u8]) {
    for (place, byte) in field.iter().enumerate() {
        if let Some(slot) = bytes.get_mut(at.wrapping_add(place)) {
            *slot = *byte;
        }
    }
}

// Puts a number of 8 bytes.
pub(crate) fn put_wide(bytes: &mut [u8], at: usize, value: u64) {
    put(bytes, at, &value.to_be_bytes());
}

// Puts the last 4 bytes of a number.
pub(crate) fn put_number(bytes: &mut [u8], at: usize, value: u64) {
    put(bytes, at, &value.to_be_bytes()[4..]);
}

// Puts the check word of all bytes before it.
pub(crate) fn put_check(bytes: &mut [u8], at: usize) {
    let check = check_word(part(bytes, 0, at));
    put_number(bytes, at, check as u64);
}

// A register after eight more bits.
fn after_byte(register: u32, byte: u8) -> u32 {
    let mut register = register ^ byte as u32;
    for _ in 0..8 {
        let leaves = register & 1;
        register >>= 1;
        if leaves == 1 {
            register ^= 0xedb8_8320;
        }
    }
    register
}

pub(crate) fn check_word(bytes: &[u8]) -> u32 {
    let mut register = u32::MAX;
    for byte in bytes {
        register = after_byte(register, *byte);
    }
    !register
}
