// The same lines on a flat file and on a twoskip file end and print alike.
use super::runs::{ROOM, host_of, status_of, words_of};
use mem_devices::MemHost;
use std::alloc::Global;
use std::process::Abort;
use std::test::Fail;

// One after the other, from no file on.
const LINES: [(&str, &str); 16] = [
    ("", "show"),
    ("", "set a 1"),
    ("-n ", "consistent"),
    ("", "get a"),
    ("", "set b 2"),
    ("", "set a 1"),
    ("", "set b 3"),
    ("", "set ba "),
    ("", "show"),
    ("", "show b"),
    ("", "get b"),
    ("", "delete b"),
    ("", "delete b"),
    ("", "get b"),
    ("", "set  1"),
    ("", "show"),
];

// The host after a run on this file, and the status.
fn host_after(
    alloc: Global,
    backend: &str,
    line: (&str, &str),
    file: Option<&[u8]>,
) -> Result<(MemHost, u8), Fail> {
    let (flag, action) = line;
    let text = format!(in alloc; "cyr_dbtool {flag}f {backend} {action}")?;
    let words = words_of(alloc, text.as_str())?;
    let mut host = host_of(alloc, file, ROOM, &[], &[])?;
    let status = status_of(alloc, &mut host, &words, 2)?;
    Ok((host, status))
}

#[test]
fn both_backends_print_the_same(rt: HostRuntime) -> Result<(), Fail> {
    let alloc = rt.alloc();
    let mut flat = host_of(alloc, None, ROOM, &[], &[])?;
    let mut twoskip = host_of(alloc, None, ROOM, &[], &[])?;
    for line in LINES {
        let (one, status) = host_after(alloc, "flat", line, flat.disk().main())?;
        let (other, wanted) = host_after(alloc, "twoskip", line, twoskip.disk().main())?;
        assert_eq!(rt; status, wanted, "{:?}", line.1);
        assert_eq!(rt; one.told(), other.told(), "{:?}", line.1);
        assert_eq!(rt; one.warned(), other.warned(), "{:?}", line.1);
        flat = one;
        twoskip = other;
    }
    assert_eq!(rt; twoskip.told(), b"a\t1\nba\t\n".as_slice());
    Ok(())
}
