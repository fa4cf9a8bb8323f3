// A folder is listed.
ghost use Rattle.std.specs.Prelude.{IfOk};
ghost use Rattle.base_devices.specs.SpoolCalls.{GaveNoName};
ghost use Rattle.mem_spool.specs.MemSpool.{mem_spool_state};

use base_bytes::NoMemory;
use base_devices::Name;
use mail_scan::{ScanFault, list};
use mem_spool::MemSpool;
use std::alloc::Global;
use std::process::Abort;
use std::test::Fail;

const NAMES: &str = "notes 10. 01. 2. cyrus.cache 1 4294967295. 4294967296. 1.. 0. cyrus. Cyrus.x";

const MESSAGES: [u32; 3] = [2, 10, 4_294_967_295];

const ODD: &str = "0. 01. 1 1.. 4294967296. Cyrus.x notes";

fn folder(alloc: Global) -> Result<MemSpool, NoMemory>
    ensures { IfOk result (λ s. GaveNoName (mem_spool_state s)) }
{
    let mut spool = MemSpool::new(alloc)?;
    for name in NAMES.split(' ') {
        if name.len() <= 255 && !spool.has(name) {
            spool.add(name, 0, b"x")?;
        }
    }
    Ok(spool)
}

fn assert_names(rt: &impl Abort, found: &[Name], wanted: &str) {
    assert_eq!(rt; found.len(), wanted.split(' ').count());
    for (found, wanted) in found.iter().zip(wanted.split(' ')) {
        assert_eq!(rt; found.as_str(), wanted);
    }
}

#[test]
fn names_are_sorted_out(rt: HostRuntime) -> Result<(), Fail> {
    let mut spool = folder(rt.alloc()).ok().ok_or("no memory")?;
    let listing = list(rt.alloc(), &mut spool).ok().ok_or("listed")?;
    assert_eq!(rt; listing.uids(), MESSAGES.as_slice());
    assert_names(&rt, listing.odd(), ODD);
    Ok(())
}

// A folder of one name: 254 digits and a dot.
fn longest_name(alloc: Global) -> Result<MemSpool, Fail>
    ensures { IfOk result (λ s. GaveNoName (mem_spool_state s)) }
{
    let mut name = String::new(alloc);
    for _ in 0..254 {
        name.push('1')?;
    }
    name.push('.')?;
    let mut spool = MemSpool::new(alloc).ok().ok_or("no memory")?;
    if name.len() != 255 || spool.has(name.as_str()) {
        return Err("no new name".into());
    }
    spool.add(name.as_str(), 0, b"x").ok().ok_or("no memory")?;
    Ok(spool)
}

#[test]
fn a_name_of_255_bytes_is_odd(rt: HostRuntime) -> Result<(), Fail> {
    let mut spool = longest_name(rt.alloc())?;
    let listing = list(rt.alloc(), &mut spool).ok().ok_or("listed")?;
    assert_eq!(rt; (listing.uids().len(), listing.odd().len()), (0, 1));
    Ok(())
}

// Each of 12 names and their end are asked.
#[test]
fn a_failing_call_ends_the_listing(rt: HostRuntime) -> Result<(), Fail> {
    for call in 1..14 {
        let mut spool = folder(rt.alloc()).ok().ok_or("no memory")?;
        spool.fail_at(call).ok().ok_or("no memory")?;
        let fault = list(rt.alloc(), &mut spool).err();
        assert_eq!(rt; fault, Some(ScanFault::SpoolFault), "call {call}");
    }
    Ok(())
}
