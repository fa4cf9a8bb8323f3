// The system stops while the new file takes the main file's place: a crash leaves the one or the other, and the next run
// opens it.
use super::cases::{ROOM, action_words, host_of, status_of};
use disk_kinds::MemHost;
use std::alloc::Global;
use std::process::Abort;
use std::test::Fail;

// An action, the file before, which call publishes, and the file that is left where that did not land, and where it did.
#[derive(Clone, Copy)]
struct Row {
    make: bool,
    action: &'static str,
    before: Option<&'static [u8]>,
    publish: u64,
    old: Option<&'static [u8]>,
    new: &'static [u8],
}

// A change of a file that is there, whose seventh call publishes.
fn changed(action: &'static str, before: &'static [u8], new: &'static [u8]) -> Row {
    Row {
        make: false,
        action,
        before: Some(before),
        publish: 7,
        old: Some(before),
        new,
    }
}

// An action on an absent file with the flag.
fn made(action: &'static str, publish: u64, old: Option<&'static [u8]>, new: &'static [u8]) -> Row {
    Row {
        make: true,
        action,
        before: None,
        publish,
        old,
        new,
    }
}

fn rows() -> [Row; 6] {
    [
        changed("set b 2", b"a\t1\n", b"a\t1\nb\t2\n"),
        changed("set a 2", b"b\t1\na\t1", b"a\t2\nb\t1\n"),
        changed("delete a", b"a\t1\n", b""),
        made("show", 4, None, b""),
        made("set k v", 4, None, b""),
        made("set k v", 10, Some(b""), b"k\tv\n"),
    ]
}

// What is left of the host, and that a run with the flag opens it.
fn assert_left(
    rt: &impl Abort,
    alloc: Global,
    host: &MemHost,
    landed: &[bool],
    left: Option<&[u8]>,
) -> Result<(), Fail> {
    let disk = host.disk().left(alloc, landed)?;
    assert_eq!(rt; disk.main(), left);
    let mut next = MemHost::new(alloc, disk, ROOM, &[])?;
    let words = action_words(alloc, true, "consistent")?;
    assert_eq!(rt; status_of(alloc, &words, &mut next)?, 0);
    assert_eq!(rt; next.told(), b"consistent\n".as_slice());
    Ok(())
}

fn assert_row(rt: &impl Abort, alloc: Global, row: &Row) -> Result<(), Fail> {
    let words = action_words(alloc, row.make, row.action)?;
    let mut host = host_of(alloc, row.before, &[row.publish], &[])?;
    assert_eq!(rt; status_of(alloc, &words, &mut host)?, 74, "{}", row.action);
    assert_left(rt, alloc, &host, &[], row.old)?;
    assert_left(rt, alloc, &host, &[true], Some(row.new))
}

#[test]
fn crash_leaves_the_old_file_or_the_new(rt: HostRuntime) -> Result<(), Fail> {
    for row in &rows() {
        assert_row(&rt, rt.alloc(), row)?;
    }
    Ok(())
}
