// The register and how bytes move it, sixteen at a time.
ghost use Rattle.std.specs.Prelude.{◌≡◌, ◌<◌, ◌+◌, ◌*◌};
ghost use Rattle.std.specs.List.{concat};
ghost use Rattle.check_word.specs.CheckWord.{after_bits, after_byte, after_bytes};

use crate::tables::TABLES;

/// How many bytes are taken at a time: as many as there are tables.
const BLOCK: usize = 16;

/// The register that holds `byte`, after the steps of that byte and of `count` more.
fn look_up(count: usize, byte: u8) -> u32
    requires { count < 16 }
    ensures { result ≡ after_bits (8 * (count + 1)) byte }
{
    TABLES[count][byte as usize]
}

/// The register after one byte.
fn after_byte(register: u32, byte: u8) -> u32
    ensures { result ≡ after_byte register byte }
{
    (register >> 8) ^ look_up(0, (register & 0xff) as u8 ^ byte)
}

/// The register after sixteen bytes, which are loaded as one word. Each byte moves it on its own, by the
/// steps that follow it, and what the register holds goes in with the first four. These come last,
/// since they wait for the block before.
fn after_block(register: u32, block: &[u8; BLOCK]) -> u32
    ensures { result ≡ after_bytes register block.now }
{
    let mixed = (u128::from(register) ^ u128::from_le_bytes(*block)).to_le_bytes();
    let later = look_up(11, mixed[4])
        ^ look_up(10, mixed[5])
        ^ look_up(9, mixed[6])
        ^ look_up(8, mixed[7])
        ^ look_up(7, mixed[8])
        ^ look_up(6, mixed[9])
        ^ look_up(5, mixed[10])
        ^ look_up(4, mixed[11])
        ^ look_up(3, mixed[12])
        ^ look_up(2, mixed[13])
        ^ look_up(1, mixed[14])
        ^ look_up(0, mixed[15]);
    let earlier = look_up(15, mixed[0])
        ^ look_up(14, mixed[1])
        ^ look_up(13, mixed[2])
        ^ look_up(12, mixed[3]);
    later ^ earlier
}

/// The register after blocks of sixteen bytes.
fn after_blocks(register: u32, blocks: &[[u8; BLOCK]]) -> u32
    ensures { result ≡ after_bytes register (concat blocks.now) }
{
    let mut register = register;
    for block in blocks {
        register = after_block(register, block);
    }
    register
}

/// The register after a few bytes, one at a time.
fn after_each(register: u32, bytes: &[u8]) -> u32
    ensures { result ≡ after_bytes register bytes.now }
{
    let mut register = register;
    for byte in bytes {
        register = after_byte(register, *byte);
    }
    register
}

/// The register after these bytes.
pub(crate) fn after_bytes(register: u32, bytes: &[u8]) -> u32
    ensures { result ≡ after_bytes register bytes.now }
{
    let (blocks, rest) = bytes.as_chunks::<BLOCK>();
    after_each(after_blocks(register, blocks), rest)
}
