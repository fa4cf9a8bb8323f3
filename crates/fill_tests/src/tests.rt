// Files are filled from each kind to each.
use base_bytes::{KEY_LIMIT, u64_at};
use db_core::{Db, DbFault};
use flat_db::FlatDb;
use mem_devices::MemDisk;
use rand_pcg::Pcg32;
use std::alloc::Global;
use std::process::Abort;
use std::test::Fail;
use twoskip::Twoskip;

// More than each test writes.
const ROOM: u64 = 400_000;

fn disk_of(alloc: Global, main: Option<&[u8]>, fails: &[u64]) -> Result<MemDisk, Fail> {
    if main.is_some_and(|bytes| bytes.len() as u64 > ROOM) {
        return Err("the file is too long for the test".into());
    }
    Ok(MemDisk::new(alloc, main, ROOM, fails)?)
}

fn flat_of(alloc: Global, text: &[u8]) -> Result<FlatDb, Fail> {
    let mut disk = disk_of(alloc, Some(text), &[])?;
    Ok(flat_db::open_db(alloc, &mut disk)?)
}

fn twoskip_of(alloc: Global, file: &[u8]) -> Result<Twoskip, Fail> {
    let mut disk = disk_of(alloc, Some(file), &[])?;
    Ok(twoskip::open_db(alloc, &mut disk)?)
}

// Fills a twoskip file, with the words that the generator's authors print for this seed: the first end in three one
// bits, in one and in none.
fn to_twoskip<B: Db<MemDisk>>(alloc: Global, from: &B, to: &mut MemDisk) -> Result<u64, DbFault> {
    if from.broken() {
        return Err(DbFault::Broken);
    }
    let mut rng = Pcg32::new(42, 54);
    twoskip::fill(alloc, from, to, &mut rng)
}

fn to_flat<B: Db<MemDisk>>(alloc: Global, from: &B, to: &mut MemDisk) -> Result<u64, DbFault> {
    if from.broken() {
        return Err(DbFault::Broken);
    }
    let mut rng = Pcg32::new(42, 54);
    flat_db::fill(alloc, from, to, &mut rng)
}

/// The words of the file of `a` = `1`, `b` = `2` and `c` with levels 4, 2 and 1 that are not zero, by Python's zlib.
const THREE_PAIRS: &[(u64, u64)] = &[
    (0, 0xA1028B0D74776F73),
    (8, 0x6B69702066696C65),
    (16, 0x0000000000000001),
    (24, 0x0000000000000001),
    (32, 0x0000000000000003),
    (40, 0x0000000000000200),
    (48, 0x0000000000000200),
    (56, 0x0000000012E615AC),
    (64, 0x3D1F000000000000),
    (72, 0x0000000000000150),
    (88, 0x0000000000000150),
    (96, 0x0000000000000150),
    (104, 0x0000000000000150),
    (328, 0xBA95A92A00000000),
    (336, 0x2B04000100000001),
    (344, 0x0000000000000190),
    (360, 0x0000000000000190),
    (384, 0xAB6243C97777D1AA),
    (392, 0x6131000000000000),
    (400, 0x2B02000100000001),
    (408, 0x00000000000001C0),
    (432, 0xDA6834E1C810CCD4),
    (440, 0x6232000000000000),
    (448, 0x2B01000100000000),
    (472, 0xD3ADC8863B467831),
    (480, 0x6300000000000000),
    (488, 0x2400000000000000),
    (496, 0x0000000000000150),
    (504, 0x5DC51C1A00000000),
];

fn word_at(at: u64) -> u64 {
    for (place, word) in THREE_PAIRS {
        if *place == at {
            return *word;
        }
    }
    0
}

fn is_three_pairs(file: &[u8]) -> bool {
    let mut same = file.len() == 512;
    for n in 0..file.len() / 8 {
        same &= u64_at(file, 8 * n) == word_at(8 * n as u64);
    }
    same
}

#[test]
fn levels_are_by_the_words(rt: HostRuntime) -> Result<(), Fail> {
    let from = flat_of(rt.alloc(), b"b\t2\na\t1\nc\t\n")?;
    let mut to = disk_of(rt.alloc(), None, &[])?;
    assert_eq!(rt; to_twoskip(rt.alloc(), &from, &mut to), Ok(3));
    assert!(rt; to.main().is_some_and(is_three_pairs));
    Ok(())
}

// The canonical text of keys `k0000` to `k0999`, each with itself as its value.
fn thousand_lines(alloc: Global) -> Result<Vec<u8>, Fail> {
    let mut text = Vec::new(alloc);
    for n in 0..1_000u16 {
        let digits = [n / 100 % 10, n / 10 % 10, n % 10];
        for end in [b'\t', b'\n'] {
            text.extend_from_slice(b"k0")?;
            for digit in digits {
                text.push(b'0' + digit as u8)?;
            }
            text.push(end)?;
        }
    }
    Ok(text)
}

#[test]
fn there_and_back_is_the_same_text(rt: HostRuntime) -> Result<(), Fail> {
    let text = thousand_lines(rt.alloc())?;
    let flat = flat_of(rt.alloc(), &text)?;
    let mut there = disk_of(rt.alloc(), None, &[])?;
    assert_eq!(rt; to_twoskip(rt.alloc(), &flat, &mut there), Ok(1_000));
    let skip = twoskip_of(rt.alloc(), there.main().unwrap_or(b""))?;
    let mut back = disk_of(rt.alloc(), None, &[])?;
    assert_eq!(rt; to_flat(rt.alloc(), &skip, &mut back), Ok(1_000));
    assert!(rt; back.main() == Some(text.as_slice()));
    // And within a kind.
    assert_eq!(rt; to_flat(rt.alloc(), &flat, &mut back), Ok(1_000));
    assert_eq!(rt; to_twoskip(rt.alloc(), &skip, &mut there), Ok(1_000));
    Ok(())
}

#[test]
fn a_long_key_is_refused(rt: HostRuntime) -> Result<(), Fail> {
    let size = KEY_LIMIT as usize + 1;
    let mut text = vec![in rt.alloc(); b'k'; size]?;
    text.extend_from_slice(b"\t\na\t1\n")?;
    let from = flat_of(rt.alloc(), &text)?;
    let long = Err(DbFault::KeyTooLong { length: 65_535 });
    let mut to = disk_of(rt.alloc(), None, &[])?;
    assert_eq!(rt; to_twoskip(rt.alloc(), &from, &mut to), long);
    assert_eq!(rt; to_flat(rt.alloc(), &from, &mut to), long);
    assert!(rt; to.main().is_none());
    Ok(())
}

#[test]
fn a_failed_call_is_answered(rt: HostRuntime) -> Result<(), Fail> {
    let from = flat_of(rt.alloc(), b"a\t1\n")?;
    for call in 1..5 {
        let mut to = disk_of(rt.alloc(), None, &[call])?;
        assert_eq!(rt;
            to_twoskip(rt.alloc(), &from, &mut to),
            Err(DbFault::DiskFault)
        );
        assert_eq!(rt; to.counts().faults, 1);
        let mut to = disk_of(rt.alloc(), None, &[call])?;
        assert_eq!(rt;
            to_flat(rt.alloc(), &from, &mut to),
            Err(DbFault::DiskFault)
        );
        assert_eq!(rt; to.counts().faults, 1);
    }
    Ok(())
}
