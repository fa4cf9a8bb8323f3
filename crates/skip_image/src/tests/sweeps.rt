// Every cut of a file and every bit of it changed, each beside the answer of a second reader.
use super::files::{DELETED, TALL, TALL_STOPPED};
use super::slow_reader::read_slowly;
use super::{Laid, bytes_of, image_of};
use crate::Image;
use std::alloc::Global;
use std::process::Abort;
use std::test::Fail;

/// A file that opens.
struct Swept {
    name: &'static str,
    file: &'static Laid,
}

const SWEPT: &[Swept] = &[
    Swept {
        name: "a clean file",
        file: &TALL,
    },
    Swept {
        name: "a file with DIRTY",
        file: &TALL_STOPPED,
    },
    Swept {
        name: "a deleted pair",
        file: &DELETED,
    },
];

fn assert_alike(rt: &impl Abort, image: &mut Image, name: &str, change: &str, at: u64) {
    let wanted = read_slowly(image.bytes());
    assert_eq!(rt; image.verify(), wanted, "{name}, {change} {at}");
}

/// Changes some bits of a byte, where it is there.
fn flip(image: &mut Image, at: u64, bits: u8) {
    if at < image.length() {
        let byte = image.bytes()[at as usize];
        image.patch(at, &[byte ^ bits]);
    }
}

fn assert_bits(rt: &impl Abort, image: &mut Image, name: &str, at: u64) {
    for bits in [1, 2, 4, 8, 16, 32, 64, 128] {
        flip(image, at, bits);
        assert_alike(rt, image, name, "a bit of byte", at);
        flip(image, at, bits);
    }
}

fn laid_image(alloc: Global, file: &Laid) -> Result<Image, Fail> {
    image_of(alloc, bytes_of(alloc, file, &[])?)
}

fn assert_all_bits(rt: &impl Abort, image: &mut Image, name: &str) {
    for at in 0..image.length() {
        assert_bits(rt, image, name, at);
    }
    assert!(rt; image.verify().is_ok(), "{name} as it was");
}

fn assert_changes(rt: &impl Abort, alloc: Global, cases: &[Swept]) -> Result<(), Fail> {
    for case in cases {
        let mut image = laid_image(alloc, case.file)?;
        assert_all_bits(rt, &mut image, case.name);
    }
    Ok(())
}

#[test]
fn each_changed_bit_is_read_alike(rt: HostRuntime) -> Result<(), Fail> {
    assert_changes(&rt, rt.alloc(), SWEPT)
}

fn assert_all_cuts(rt: &impl Abort, alloc: Global, case: &Swept) -> Result<(), Fail> {
    for size in 0..case.file.size as u64 {
        let mut image = laid_image(alloc, case.file)?;
        if size <= image.length() {
            image.shorten(size);
        }
        assert_alike(rt, &mut image, case.name, "cut to", size);
    }
    Ok(())
}

fn assert_cuts(rt: &impl Abort, alloc: Global, cases: &[Swept]) -> Result<(), Fail> {
    for case in cases {
        assert_all_cuts(rt, alloc, case)?;
    }
    Ok(())
}

#[test]
fn each_cut_is_read_alike(rt: HostRuntime) -> Result<(), Fail> {
    assert_cuts(&rt, rt.alloc(), SWEPT)
}
