// Known check words, from zlib, and words over pieces.
ghost use Rattle.std.specs.Prelude.{◌<◌};

use super::*;
use std::alloc::AllocError;

#[test]
fn known_words(rt: HostRuntime) {
    assert_eq!(rt; check(b""), 0);
    assert_eq!(rt; check(b"123456789"), 0xCBF4_3926);
    assert_eq!(rt;
        check(b"The quick brown fox jumps over the lazy dog"),
        0x414F_A339
    );
}

fn word_of_pieces(bytes: &[u8], size: usize) -> u32
    requires { 0 < size }
{
    let mut pieces = Check::new();
    for piece in bytes.chunks(size) {
        pieces.add(piece);
    }
    pieces.done()
}

fn fill(bytes: &mut [u8]) {
    for (place, byte) in bytes.iter_mut().enumerate() {
        *byte = (place % 251) as u8;
    }
}

#[test]
fn pieces_give_the_word_of_the_whole(rt: HostRuntime) -> Result<(), AllocError> {
    let mut bytes = vec![in rt.alloc(); 0u8; 1_048_576]?;
    fill(&mut bytes);
    assert_eq!(rt; check(&bytes), 0xEF0E_6054);
    for size in [1, 3, 8, 15, 16, 17, 31, 4_095, 65_536, 1_048_575] {
        assert!(rt; size > 0);
        assert_eq!(rt;
            word_of_pieces(&bytes, size),
            0xEF0E_6054,
            "in pieces of {size} bytes"
        );
    }
    Ok(())
}
