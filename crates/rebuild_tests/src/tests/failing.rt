// Each call of a rebuild fails in turn.
use super::indexes::THREE_RECORDS;
use super::model::{Rebuilt, second_reading};
use super::readings::rebuild_box;
use super::rows::{FIVE, NOW};
use std::alloc::Global;
use std::process::Abort;
use std::test::Fail;

// Whose calls fail, what standard error then gets, and the calls that there are at least.
struct Device {
    name: &'static str,
    place: usize,
    warned: &'static str,
    calls: u64,
}

const DEVICES: &[Device] = &[
    Device {
        name: "spool: six names, and the time and bytes of three files",
        place: 0,
        warned: "device fault: spool\n",
        calls: 12,
    },
    Device {
        name: "disk: length, sync and read, and a new file begun, written, synced and published",
        place: 1,
        warned: "device fault: host\n",
        calls: 7,
    },
    Device {
        name: "print: the report",
        place: 2,
        warned: "device fault: host\n",
        calls: 1,
    },
];

// Of a run whose call fails, whether it failed. Then nothing is changed, or all of it.
fn assert_failing(
    rt: &impl Abort,
    alloc: Global,
    device: &Device,
    call: u64,
    wanted: &Rebuilt,
) -> Result<bool, Fail> {
    let calls = [call];
    let mut failing: [&[u64]; 3] = [&[], &[], &[]];
    if let Some(listed) = failing.get_mut(device.place) {
        *listed = &calls;
    }
    let (status, host) = rebuild_box(alloc, FIVE, Some(THREE_RECORDS), NOW, failing)?;
    let name = device.name;
    let index = Some(wanted.index.as_slice());
    if status == 0 {
        assert_eq!(rt; host.told(), wanted.report.as_bytes(), "{name}: {call}");
        assert_eq!(rt; host.disk().main(), index, "{name}: {call}");
        return Ok(false);
    }
    assert_eq!(rt; status, 74, "{name}: {call}");
    assert_eq!(rt; host.warned(), device.warned.as_bytes(), "{name}: {call}");
    let is_printed = host.told() == wanted.report.as_bytes();
    assert!(rt; is_printed || host.told().is_empty(), "{name}: {call}");
    let main = host.disk().main();
    let is_old = main == Some(THREE_RECORDS);
    assert!(rt; is_old || (is_printed && main == index), "{name}: {call}");
    Ok(true)
}

// The first call that a run does not have.
fn assert_device(
    rt: &impl Abort,
    alloc: Global,
    device: &Device,
    wanted: &Rebuilt,
) -> Result<u64, Fail> {
    for call in 1..=100 {
        if !assert_failing(rt, alloc, device, call, wanted)? {
            return Ok(call);
        }
    }
    Err("a run has more calls than the test tries".into())
}

#[test]
fn each_call_fails(rt: HostRuntime) -> Result<(), Fail> {
    let alloc = rt.alloc();
    let wanted = second_reading(alloc, FIVE, Some(THREE_RECORDS), NOW)?.ok_or("no rebuild")?;
    for device in DEVICES {
        let call = assert_device(&rt, alloc, device, &wanted)?;
        assert!(rt; call > device.calls, "{}", device.name);
    }
    Ok(())
}
