// The devices on real files. Each test works in a folder of its own, and removes it at its end.
use crate::{FileDisk, FileHost};
use base_bytes::Text;
use base_devices::{Disk, Failed, Host};
use std::fs::Permissions;
use std::io::{Eprint, Print};
use std::os::fd::AsRawFd;
use std::os::unix::fs::{FileExt, MetadataExt, PermissionsExt, symlink};
use std::process::Abort;
use std::rt::Files;
use std::test::Fail;
use std::{fs, io};

fn rewrite<D: Disk>(disk: &mut D, bytes: &[u8]) -> Result<(), Failed> {
    disk.new_start()?;
    disk.new_write(bytes)?;
    disk.new_sync()?;
    disk.publish()
}

// Asserts that the file has this text and these permission bits.
fn assert_file<R: Files + Abort + AllocGlobal>(
    rt: &R,
    path: &str,
    text: &str,
    mode: u32,
) -> Result<(), Fail> {
    let found = fs::read_to_string(rt, path)?;
    assert_eq!(rt; found.as_str(), text, "{path}");
    assert_eq!(rt; mode_of(rt, path)?, mode, "{path}");
    Ok(())
}

// Makes an empty folder, in the place of one that an earlier run may have left.
fn begin(rt: &(impl Files + Alloc), folder: &str) -> io::Result<()> {
    let _ = fs::remove_dir_all(rt, folder);
    fs::create_dir(rt, folder)
}

// Writes files, each by its path and its text.
fn make_files(rt: &(impl Files + Alloc), files: &[(&str, &str)]) -> io::Result<()> {
    for (path, text) in files {
        fs::write(rt, path, *text)?;
    }
    Ok(())
}

fn mode_of(rt: &impl Files, path: &str) -> io::Result<u32> {
    Ok(fs::metadata(rt, path)?.mode() & 0o777)
}

// Asserts what reads of the file "hello" and a line's end give.
fn assert_reads<R: Files + Abort + AllocGlobal + Drop>(
    rt: &R,
    disk: &mut FileDisk<R>,
) -> Result<(), Fail>
where
    R::File: FileExt + AsRawFd,
{
    let mut piece = [0u8; 8];
    assert_eq!(rt; disk.read_at(2, &mut piece), Ok(4));
    assert_eq!(rt; piece, *b"llo\n\0\0\0\0");
    let counts = [disk.read_at(6, &mut piece), disk.read_at(6, &mut [])];
    assert_eq!(rt;
        counts,
        [Err(Failed), Ok(0)],
        "past the end, and none asked"
    );
    Ok(())
}

// Asserts that a disk at `writes/db`, where nothing is, puts a file there and reads it.
fn assert_makes_and_reads<R: Files + Abort + AllocGlobal + Drop>(
    rt: &R,
    disk: &mut FileDisk<R>,
) -> Result<(), Fail>
where
    R::File: FileExt + AsRawFd,
{
    assert_eq!(rt; disk.length(), Ok(None));
    assert_eq!(rt; disk.sync(), Err(Failed), "there is no file");
    assert_eq!(rt; rewrite(disk, b"hello\n"), Ok(()));
    assert_eq!(rt; disk.length(), Ok(Some(6)));
    assert_reads(rt, disk)?;
    Ok(fs::remove_dir_all(rt, "writes")?)
}

// A test that owns a disk hands it on and ends: each way out of a function that owns one is proved with the disk's end.
#[test]
fn disk_writes_and_reads(rt: HostRuntime) -> Result<(), Fail> {
    begin(&rt, "writes")?;
    let mut disk = FileDisk::new(rt, Text::of(rt.alloc(), "writes/db")?);
    assert_makes_and_reads(&rt, &mut disk)
}

/// What is written at an offset of the file as the row before left it, first of "hello" and a line's end.
struct Write {
    name: &'static str,
    at: u64,
    bytes: &'static str,
    then: &'static str,
}

const WRITES: &[Write] = &[
    Write {
        name: "inside",
        at: 1,
        bytes: "a",
        then: "hallo\n",
    },
    Write {
        name: "at the end",
        at: 6,
        bytes: "world",
        then: "hallo\nworld",
    },
    Write {
        name: "over the end",
        at: 9,
        bytes: "d and more\n",
        then: "hallo\nword and more\n",
    },
    Write {
        name: "no bytes",
        at: 20,
        bytes: "",
        then: "hallo\nword and more\n",
    },
];

/// The file as the row before left it is cut to a length, and one byte is written at its new end.
struct Cut {
    name: &'static str,
    length: u64,
    then: &'static str,
    longer: &'static str,
}

const CUTS: &[Cut] = &[
    Cut {
        name: "to its length",
        length: 20,
        then: "hallo\nword and more\n",
        longer: "hallo\nword and more\n.",
    },
    Cut {
        name: "inside",
        length: 10,
        then: "hallo\nword",
        longer: "hallo\nword.",
    },
    Cut {
        name: "to nothing",
        length: 0,
        then: "",
        longer: ".",
    },
];

// Asserts that a disk without its file makes none.
fn assert_absent<R: Files + Abort + AllocGlobal + Drop>(
    rt: &R,
    disk: &mut FileDisk<R>,
) -> Result<(), Fail>
where
    R::File: FileExt + AsRawFd,
{
    let calls = [disk.write_at(0, b"x"), disk.cut(0), disk.write_at(0, &[])];
    let answers = [Err(Failed), Err(Failed), Ok(())];
    assert_eq!(rt;
        calls,
        answers,
        "there is no file, and nothing is asked last"
    );
    assert_eq!(rt; disk.length(), Ok(None), "none was made");
    Ok(())
}

// Writes into the file `place/db`, which keeps its permission bits.
fn assert_writes<R: Files + Abort + AllocGlobal + Drop>(
    rt: &R,
    disk: &mut FileDisk<R>,
) -> Result<(), Fail>
where
    R::File: FileExt + AsRawFd,
{
    for row in WRITES {
        let answer = disk.write_at(row.at, row.bytes.as_bytes());
        assert_eq!(rt; answer, Ok(()), "{}", row.name);
        assert_file(rt, "place/db", row.then, 0o640)?;
    }
    Ok(())
}

// Cuts the file `place/db`, and writes at its new end.
fn assert_cuts<R: Files + Abort + AllocGlobal + Drop>(
    rt: &R,
    disk: &mut FileDisk<R>,
) -> Result<(), Fail>
where
    R::File: FileExt + AsRawFd,
{
    for row in CUTS {
        assert_eq!(rt; disk.cut(row.length), Ok(()), "{}", row.name);
        assert_file(rt, "place/db", row.then, 0o640)?;
        assert_eq!(rt; disk.write_at(row.length, b"."), Ok(()), "{}", row.name);
        assert_file(rt, "place/db", row.longer, 0o640)?;
    }
    Ok(())
}

// Asserts that a disk at `place/db` writes and cuts, once there is a file.
fn assert_in_place<R: Files + Abort + AllocGlobal + Drop>(
    rt: &R,
    disk: &mut FileDisk<R>,
) -> Result<(), Fail>
where
    R::File: FileExt + AsRawFd,
{
    assert_absent(rt, disk)?;
    fs::write(rt, "place/db", "hello\n")?;
    fs::set_permissions(rt, "place/db", Permissions::from_mode(0o640))?;
    assert_writes(rt, disk)?;
    assert_cuts(rt, disk)?;
    assert_eq!(rt; disk.sync(), Ok(()));
    assert_eq!(rt; disk.length(), Ok(Some(1)));
    Ok(fs::remove_dir_all(rt, "place")?)
}

#[test]
fn disk_writes_in_place_and_cuts(rt: HostRuntime) -> Result<(), Fail> {
    begin(&rt, "place")?;
    let mut disk = FileDisk::new(rt, Text::of(rt.alloc(), "place/db")?);
    assert_in_place(&rt, &mut disk)
}

const LEFT: &[(&str, &str)] = &[
    ("left/db", "old"),
    ("left/db.NEW", "left over, and longer"),
    ("left/usual", "usual"),
];

// A left-over new file, and another that is a link to the file `usual`.
fn leave_files(rt: &(impl Files + Alloc)) -> io::Result<()> {
    begin(rt, "left")?;
    make_files(rt, LEFT)?;
    fs::set_permissions(rt, "left/db", Permissions::from_mode(0o662))?;
    symlink(rt, "usual", "left/other.NEW")
}

// Asserts that the disk at the path takes this text for its file, with these permission bits.
fn assert_rewrites<R: Files + Abort + AllocGlobal, D: Disk>(
    rt: &R,
    disk: &mut D,
    path: &str,
    text: &str,
    mode: u32,
) -> Result<(), Fail> {
    assert_eq!(rt; rewrite(disk, text.as_bytes()), Ok(()));
    assert_file(rt, path, text, mode)
}

// Rewrites the file at the path, and asserts that it has this text and these permission bits.
fn assert_rewritten<R: Files + Abort + AllocGlobal + Copy + Drop>(
    rt: R,
    path: &str,
    text: &str,
    mode: u32,
) -> Result<(), Fail>
where
    R::File: FileExt + AsRawFd,
{
    let mut disk = FileDisk::new(rt, Text::of(rt.alloc(), path)?);
    assert_rewrites(&rt, &mut disk, path, text, mode)
}

// The group's write bit and the others' stay, which a usual umask takes from a file that is made; no bit is added.
#[test]
fn disk_replaces_what_is_left_over(rt: HostRuntime) -> Result<(), Fail> {
    leave_files(&rt)?;
    let usual = mode_of(&rt, "left/usual")?;
    assert_rewritten(rt, "left/db", "second", 0o662)?;
    assert_rewritten(rt, "left/other", "beside a link", usual)?;
    assert_file(&rt, "left/usual", "usual", usual)?;
    Ok(fs::remove_dir_all(&rt, "left")?)
}

// Asserts that a disk without a new file of its own adds nothing, syncs nothing and publishes nothing, and removes its
// folder.
fn assert_has_no_new_file<R: Files + Abort + AllocGlobal + Drop>(
    rt: &R,
    disk: &mut FileDisk<R>,
    folder: &str,
) -> Result<(), Fail>
where
    R::File: FileExt + AsRawFd,
{
    assert_eq!(rt; disk.new_write(b"more"), Err(Failed));
    assert_eq!(rt; disk.new_sync(), Err(Failed));
    assert_eq!(rt; disk.publish(), Err(Failed));
    let path = format!(in rt.alloc(); "{folder}/db")?;
    let main = fs::read_to_string(rt, path.as_str())?;
    assert_eq!(rt; main.as_str(), "old");
    Ok(fs::remove_dir_all(rt, folder)?)
}

#[test]
fn disk_publishes_its_own_file_only(rt: HostRuntime) -> Result<(), Fail> {
    begin(&rt, "kept")?;
    make_files(&rt, &[("kept/db", "old"), ("kept/db.NEW", "not ours")])?;
    let mut disk = FileDisk::new(rt, Text::of(rt.alloc(), "kept/db")?);
    assert_has_no_new_file(&rt, &mut disk, "kept")
}

// Begins a new file, and asserts that none is there once a folder has its name and it was to be begun again.
fn assert_forgets<R: Files + Abort + AllocGlobal + Drop>(
    rt: &R,
    disk: &mut FileDisk<R>,
) -> Result<(), Fail>
where
    R::File: FileExt + AsRawFd,
{
    assert_eq!(rt; disk.new_start(), Ok(()));
    assert_eq!(rt; disk.new_write(b"new"), Ok(()));
    fs::remove_file(rt, "again/db.NEW")?;
    fs::create_dir(rt, "again/db.NEW")?;
    assert_eq!(rt; disk.new_start(), Err(Failed));
    assert_has_no_new_file(rt, disk, "again")
}

#[test]
fn disk_forgets_a_new_file_that_it_cannot_begin_again(rt: HostRuntime) -> Result<(), Fail> {
    begin(&rt, "again")?;
    make_files(&rt, &[("again/db", "old")])?;
    let mut disk = FileDisk::new(rt, Text::of(rt.alloc(), "again/db")?);
    assert_forgets(&rt, &mut disk)
}

type Answer = Result<(), Failed>;

#[derive(Clone, Copy)]
enum Before {
    Nothing,
    Sync,
    Publish,
}

/// What a disk does before its folder is moved away, and what `sync` then answers: a fault shows that it asked for the
/// folder.
struct Moved {
    name: &'static str,
    before: Before,
    then: Answer,
}

const MOVED: &[Moved] = &[
    Moved {
        name: "the first sync",
        before: Before::Nothing,
        then: Err(Failed),
    },
    Moved {
        name: "a sync behind a sync",
        before: Before::Sync,
        then: Ok(()),
    },
    Moved {
        name: "a sync behind a publish",
        before: Before::Publish,
        then: Ok(()),
    },
];

// Opens the file, and does what comes before.
fn prepare<R: Files + AllocGlobal + Drop>(
    disk: &mut FileDisk<R>,
    before: Before,
) -> Result<Option<u64>, Failed>
where
    R::File: FileExt + AsRawFd,
{
    match before {
        Before::Nothing => {}
        Before::Sync => disk.sync()?,
        Before::Publish => rewrite(disk, b"new")?,
    }
    disk.length()
}

// Moves the folder away behind the first calls, and asserts what two syncs answer.
fn assert_syncs<R: Files + Abort + AllocGlobal + Drop>(
    rt: &R,
    disk: &mut FileDisk<R>,
    row: &Moved,
) -> Result<(), Fail>
where
    R::File: FileExt + AsRawFd,
{
    assert_eq!(rt; prepare(disk, row.before), Ok(Some(3)));
    fs::rename(rt, "named", "moved")?;
    assert_eq!(rt; disk.sync(), row.then, "{}", row.name);
    assert_eq!(rt; disk.sync(), row.then, "{}, once more", row.name);
    Ok(fs::remove_dir_all(rt, "moved")?)
}

#[test]
fn sync_asks_for_the_folder_where_the_name_is_new(rt: HostRuntime) -> Result<(), Fail> {
    for row in MOVED {
        begin(&rt, "named")?;
        begin(&rt, "moved")?;
        make_files(&rt, &[("named/db", "old")])?;
        let mut disk = FileDisk::new(rt, Text::of(rt.alloc(), "named/db")?);
        assert_syncs(&rt, &mut disk, row)?;
    }
    Ok(())
}

/// What is at a path, and what calls answer there: `length`, `sync`, `new_start`, and `write_at` and `cut`.
struct Place {
    name: &'static str,
    path: &'static str,
    length: Result<Option<u64>, Failed>,
    sync: Answer,
    start: Answer,
    write: Answer,
}

const PLACES: &[Place] = &[
    Place {
        name: "a folder",
        path: "kinds/folder",
        length: Err(Failed),
        sync: Err(Failed),
        start: Err(Failed),
        write: Err(Failed),
    },
    Place {
        name: "a device of the system",
        path: "/dev/null",
        length: Err(Failed),
        sync: Err(Failed),
        start: Err(Failed),
        write: Err(Failed),
    },
    Place {
        name: "a file where a folder is to be",
        path: "kinds/file/below",
        length: Err(Failed),
        sync: Err(Failed),
        start: Err(Failed),
        write: Err(Failed),
    },
    Place {
        name: "nothing, in no folder",
        path: "kinds/missing/db",
        length: Ok(None),
        sync: Err(Failed),
        start: Err(Failed),
        write: Err(Failed),
    },
    Place {
        name: "a link to nothing",
        path: "kinds/dangling",
        length: Ok(None),
        sync: Err(Failed),
        start: Ok(()),
        write: Err(Failed),
    },
    Place {
        name: "nothing, in a folder",
        path: "kinds/folder/db",
        length: Ok(None),
        sync: Err(Failed),
        start: Ok(()),
        write: Err(Failed),
    },
    Place {
        name: "an empty file",
        path: "kinds/file",
        length: Ok(Some(0)),
        sync: Ok(()),
        start: Ok(()),
        write: Ok(()),
    },
];

// A folder, an empty file, and a link to nothing.
fn make_kinds(rt: &(impl Files + Alloc)) -> io::Result<()> {
    begin(rt, "kinds")?;
    fs::create_dir(rt, "kinds/folder")?;
    fs::write(rt, "kinds/file", "")?;
    symlink(rt, "nothing", "kinds/dangling")
}

#[test]
fn host_refuses_what_is_no_file(rt: HostRuntime) -> Result<(), Fail> {
    make_kinds(&rt)?;
    for place in PLACES {
        let mut host = FileHost::new(rt, Text::of(rt.alloc(), place.path)?);
        assert_eq!(rt; host.length(), place.length, "{}", place.name);
        assert_eq!(rt; host.sync(), place.sync, "{}", place.name);
        assert_eq!(rt; host.new_sync(), Err(Failed), "{}", place.name);
        assert_eq!(rt; host.new_start(), place.start, "{}", place.name);
        assert_eq!(rt; host.write_at(0, b"x"), place.write, "{}", place.name);
        assert_eq!(rt; host.cut(0), place.write, "{}", place.name);
    }
    Ok(fs::remove_dir_all(&rt, "kinds")?)
}

#[test]
fn host_rewrites_and_prints(rt: HostRuntime) -> Result<(), Fail> {
    begin(&rt, "prints")?;
    let mut host = FileHost::new(rt, Text::of(rt.alloc(), "prints/db")?);
    assert_eq!(rt; rewrite(&mut host, b"bytes"), Ok(()));
    assert_eq!(rt; host.length(), Ok(Some(5)));
    assert_eq!(rt; host.tell(b"printed \xff\n"), Ok(()));
    host.warn(b"warned \xff\n");
    Ok(fs::remove_dir_all(&rt, "prints")?)
}

// Asserts that a host at `spots/db`, a file of ten digits, writes and cuts where it is asked to.
fn assert_spots<R: Files + Abort + AllocGlobal + Print + Eprint + Drop>(
    rt: &R,
    host: &mut FileHost<R>,
) -> Result<(), Fail>
where
    R::File: FileExt + AsRawFd,
{
    let beyond = 1 << 63;
    assert_eq!(rt; host.write_at(beyond, b"x"), Err(Failed), "no such offset");
    assert_eq!(rt; host.cut(beyond), Err(Failed), "no such length");
    assert_eq!(rt; host.write_at(8, b"abcd"), Ok(()));
    assert_eq!(rt; host.cut(9), Ok(()));
    assert_eq!(rt; host.write_at(9, b"z\n"), Ok(()));
    assert_eq!(rt; host.sync(), Ok(()));
    let found = fs::read_to_string(rt, "spots/db")?;
    assert_eq!(rt; found.as_str(), "01234567az\n");
    Ok(fs::remove_dir_all(rt, "spots")?)
}

#[test]
fn host_writes_in_place_and_cuts(rt: HostRuntime) -> Result<(), Fail> {
    begin(&rt, "spots")?;
    make_files(&rt, &[("spots/db", "0123456789")])?;
    let mut host = FileHost::new(rt, Text::of(rt.alloc(), "spots/db")?);
    assert_spots(&rt, &mut host)
}
