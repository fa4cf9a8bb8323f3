// A run over devices in memory.
use cyr_top::run;
use mem_devices::{MemDisk, MemHost};
use mem_source::MemSource;
use mem_spool::MemSpool;
use rand_core::utils::NextWord;
use rand_pcg::Pcg32;
use std::alloc::Global;
use std::test::Fail;

/// More than a run here writes or prints.
pub const ROOM: u64 = 20_000;

/// The words of a line. One space parts two of them.
pub fn words_of(alloc: Global, line: &str) -> Result<Vec<String>, Fail> {
    let mut words = Vec::new(alloc);
    for word in line.split(' ') {
        words.push(String::from_str(alloc, word)?)?;
    }
    Ok(words)
}

// A generator whose first word gives a record this level.
fn rng_of(level: u32) -> Result<Pcg32, Fail> {
    for seed in 0..10_000 {
        let word = Pcg32::new(seed, 54).next_word();
        if word.trailing_ones().wrapping_add(1) == level {
            return Ok(Pcg32::new(seed, 54));
        }
    }
    Err("no seed gives this level".into())
}

/// A host around a disk with this file, of which the calls with the numbers `fails` fail.
pub fn host_of(
    alloc: Global,
    main: Option<&[u8]>,
    room: u64,
    fails: &[u64],
    tell_fails: &[u64],
) -> Result<MemHost, Fail> {
    if main.is_some_and(|bytes| bytes.len() as u64 > room) {
        return Err("the file is too long for the test".into());
    }
    let disk = MemDisk::new(alloc, main, room, fails)?;
    Ok(MemHost::new(alloc, disk, ROOM, tell_fails)?)
}

/// A host around a disk with this file, which stops after so many landings.
pub fn stopping_host(alloc: Global, main: &[u8], landings: u64) -> Result<MemHost, Fail> {
    if main.len() as u64 > ROOM {
        return Err("the file is too long for the test".into());
    }
    let mut disk = MemDisk::new(alloc, Some(main), ROOM, &[])?;
    disk.stop_after(landings);
    Ok(MemHost::new(alloc, disk, ROOM, &[])?)
}

/// The status of a run beside a folder without files, whose first random word gives this level.
pub fn status_of(
    alloc: Global,
    host: &mut MemHost,
    words: &[String],
    level: u32,
) -> Result<u8, Fail> {
    let mut input = MemSource::new(alloc, b"", 1, &[])?;
    status_with(alloc, host, words, level, &mut input)
}

/// The same of a run that is given this standard input.
pub fn status_with(
    alloc: Global,
    host: &mut MemHost,
    words: &[String],
    level: u32,
    input: &mut MemSource,
) -> Result<u8, Fail> {
    let mut second = MemDisk::new(alloc, None, 0, &[])?;
    let mut spool = MemSpool::new(alloc)?;
    let mut rng = rng_of(level)?;
    Ok(
        run(
            alloc,
            words,
            host,
            &mut second,
            &mut spool,
            input,
            0,
            &mut rng,
        )
        .status,
    )
}
