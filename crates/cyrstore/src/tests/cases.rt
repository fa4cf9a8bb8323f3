// A run over devices in memory, and what must come of it.
use base_bytes::NoMemory;
use cyr_top::run;
use disk_kinds::{MemDisk, MemHost, MemSource, MemSpool};
use rand_pcg::Pcg32;
use std::alloc::{AllocError, Global};
use std::process::Abort;
use std::test::Fail;

// More than any run writes or tells, but for those at the limits.
pub(crate) const ROOM: u64 = 100_000;

// `cyr_dbtool f flat ACTION`, with `-n` before `f` where `make` says so, on a file or on none, and what must come of it.
#[derive(Clone, Copy)]
pub(crate) struct Case<'a> {
    pub(crate) make: bool,
    pub(crate) action: &'a str,
    pub(crate) before: Option<&'a [u8]>,
    pub(crate) status: u8,
    pub(crate) told: &'a [u8],
    pub(crate) warned: &'a str,
    pub(crate) after: Option<&'a [u8]>,
}

// The words of a line. One space parts two of them, so that a word between two spaces is empty.
pub(crate) fn words_of(alloc: Global, line: &str) -> Result<Vec<String>, AllocError> {
    let mut words = Vec::new(alloc);
    for word in line.split(' ') {
        words.push(String::from_str(alloc, word)?)?;
    }
    Ok(words)
}

// The words of an action on the file `f`.
pub(crate) fn action_words(
    alloc: Global,
    make: bool,
    action: &str,
) -> Result<Vec<String>, AllocError> {
    let flag = if make { "-n " } else { "" };
    let line = format!(in alloc; "cyr_dbtool {flag}f flat {action}")?;
    words_of(alloc, line.as_str())
}

// A host with this file. The calls of its disk and the tells with these numbers fail.
pub(crate) fn host_of(
    alloc: Global,
    main: Option<&[u8]>,
    calls: &[u64],
    tells: &[u64],
) -> Result<MemHost, Fail> {
    if main.is_some_and(|bytes| bytes.len() as u64 > ROOM) {
        return Err("the file is too long for the test".into());
    }
    let disk = MemDisk::new(alloc, main, ROOM, calls)?;
    Ok(MemHost::new(alloc, disk, ROOM, tells)?)
}

// The status of a run beside a folder without files.
pub(crate) fn status_of(
    alloc: Global,
    words: &[String],
    host: &mut MemHost,
) -> Result<u8, NoMemory> {
    let mut second = MemDisk::new(alloc, None, 0, &[])?;
    let mut spool = MemSpool::new(alloc)?;
    let mut input = MemSource::new(alloc, b"", 1, &[])?;
    let mut rng = Pcg32::new(42, 54);
    Ok(
        run(
            alloc,
            words,
            host,
            &mut second,
            &mut spool,
            &mut input,
            0,
            &mut rng,
        )
        .status,
    )
}

// What the host was told, and what its file then reads.
pub(crate) fn assert_ended(rt: &impl Abort, host: &MemHost, case: &Case) {
    assert_eq!(rt;
        host.told(),
        case.told,
        "told: {:?} on {:?}",
        case.action,
        case.before
    );
    assert_eq!(rt;
        host.warned(),
        case.warned.as_bytes(),
        "warned: {:?} on {:?}",
        case.action,
        case.before
    );
    assert_eq!(rt;
        host.disk().main(),
        case.after,
        "left: {:?} on {:?}",
        case.action,
        case.before
    );
}

// The run of a case, in which the calls of the disk and the tells with these numbers fail.
pub(crate) fn assert_case(
    rt: &impl Abort,
    alloc: Global,
    case: &Case,
    calls: &[u64],
    tells: &[u64],
) -> Result<(), Fail> {
    let words = action_words(alloc, case.make, case.action)?;
    let mut host = host_of(alloc, case.before, calls, tells)?;
    let status = status_of(alloc, &words, &mut host)?;
    assert_eq!(rt;
        status,
        case.status,
        "{:?} on {:?}, where {calls:?} and {tells:?} fail",
        case.action, case.before
    );
    assert_ended(rt, &host, case);
    Ok(())
}

// The same case with a file that is there ends alike with the flag `-n` and without it.
pub(crate) fn assert_both(rt: &impl Abort, alloc: Global, case: &Case) -> Result<(), Fail> {
    for make in [false, true] {
        assert_case(rt, alloc, &Case { make, ..*case }, &[], &[])?;
    }
    Ok(())
}
