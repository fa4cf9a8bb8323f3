// Verification of whole files, and a file in memory as it grows.
mod files;
mod headers;
mod links;
mod records;
mod right;
mod rows;
mod shape;
mod slow_reader;
mod sweeps;
mod ways;

use crate::{Image, Summary};
use base_bytes::{Damage, Flaw};
use std::alloc::Global;
use std::process::Abort;
use std::test::Fail;

/// Bytes in hexadecimal, at an offset.
type Part = (usize, &'static str);

/// A file of so many bytes, which are zeros where no part stands.
struct Laid {
    size: usize,
    parts: &'static [Part],
}

/// A file with some bytes changed, and its first flaw.
struct Wrong {
    name: &'static str,
    file: &'static Laid,
    changes: &'static [Part],
    at: u64,
    check: Flaw,
}

/// The value of a digit. A space has none.
fn digit(byte: u8) -> Option<u8> {
    match byte {
        b'0'..=b'9' => Some(byte - b'0'),
        b'a'..=b'f' => Some(byte - b'a' + 10),
        _ => None,
    }
}

/// Writes a part where there is room for it.
fn lay(file: &mut [u8], part: Part) {
    let mut at = part.0;
    let mut is_second = false;
    for byte in part.1.bytes() {
        if let Some(value) = digit(byte)
            && at < file.len()
        {
            file[at] = (file[at] << 4) | value;
            if is_second {
                at += 1;
            }
            is_second = !is_second;
        }
    }
}

fn lay_all(file: &mut [u8], parts: &[Part]) {
    for part in parts {
        lay(file, *part);
    }
}

/// The bytes of a file with some of them changed.
fn bytes_of(alloc: Global, file: &Laid, changes: &[Part]) -> Result<Vec<u8>, Fail> {
    let mut bytes = vec![in alloc; 0u8; file.size]?;
    lay_all(&mut bytes, file.parts);
    lay_all(&mut bytes, changes);
    Ok(bytes)
}

fn image_of(alloc: Global, bytes: Vec<u8>) -> Result<Image, Fail> {
    if bytes.len() > 268_435_456 {
        return Err("the file is too long".into());
    }
    match Image::of(alloc, bytes) {
        Ok(image) => Ok(image),
        Err(_) => Err("memory ran out".into()),
    }
}

/// What verification answers for a file with some bytes changed.
fn verified(alloc: Global, file: &Laid, changes: &[Part]) -> Result<Result<Summary, Damage>, Fail> {
    let mut image = image_of(alloc, bytes_of(alloc, file, changes)?)?;
    Ok(image.verify())
}

fn assert_flaws(rt: &impl Abort, alloc: Global, cases: &[Wrong]) -> Result<(), Fail> {
    for case in cases {
        let wanted = Damage {
            at: case.at,
            check: case.check,
        };
        let answer = verified(alloc, case.file, case.changes)?;
        assert_eq!(rt; answer, Err(wanted), "{}", case.name);
    }
    Ok(())
}
