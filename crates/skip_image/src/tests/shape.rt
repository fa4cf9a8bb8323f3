// What an image consists of, and how it grows.
use super::files::{ONE_PAIR, STOPPED};
use super::{bytes_of, image_of};
use crate::Image;
use std::test::Fail;

// The pattern names each field, so that a further one is refused here.
#[test]
fn image_is_bytes_and_marks(rt: HostRuntime) -> Result<(), Fail> {
    let image = image_of(rt.alloc(), bytes_of(rt.alloc(), &ONE_PAIR, &[])?)?;
    let Image { bytes, marks } = image;
    assert_eq!(rt; bytes.len(), 400);
    assert_eq!(rt; marks.len(), 7);
    Ok(())
}

const STORED_HEAD: [u8; 32] = [
    0x2B, 1, 0, 1, 0, 0, 0, 1, // type, level and lengths
    0, 0, 0, 0, 0, 0, 0x01, 0x50, // slot 0
    0, 0, 0, 0, 0, 0, 0, 0, // slot 1
    0xC9, 0x9B, 0x29, 0x8D, 0xEE, 0xFB, 0x22, 0xF2, // check words
];

/// Writes over bytes that are there.
fn write_over(image: &mut Image, at: u64, bytes: &[u8]) {
    let size = bytes.len() as u64;
    if size <= image.length() && at <= image.length() - size {
        image.patch(at, bytes);
    }
}

fn cut_to(image: &mut Image, size: u64) {
    if size <= image.length() {
        image.shorten(size);
    }
}

#[test]
fn stopped_store_is_appended_and_patched(rt: HostRuntime) -> Result<(), Fail> {
    let mut image = image_of(rt.alloc(), bytes_of(rt.alloc(), &ONE_PAIR, &[])?)?;
    if image.length() != 400 {
        return Err("another length".into());
    }
    image.reserve(40).ok().ok_or("memory ran out")?;
    image.append_reserved(&STORED_HEAD, b"0", b"1");
    write_over(&mut image, 59, &[1, 0xA3, 0x5C, 0x63, 0x53]);
    write_over(&mut image, 328, &[0xF4, 0x96, 0xAB, 0xCA]);
    let wanted = bytes_of(rt.alloc(), &STOPPED, &[])?;
    assert!(rt; image.bytes() == wanted.as_slice());
    cut_to(&mut image, 400);
    assert_eq!(rt; image.length(), 400);
    assert!(rt; wanted.starts_with(image.bytes()));
    Ok(())
}
