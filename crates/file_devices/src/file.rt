// A disk of two real files.
ghost use Rattle.std.specs.Prelude.{◌≡◌, length};
ghost use Rattle.base_devices.specs.Causes.{HasCause};
ghost use Rattle.base_devices.specs.CrashImages.{GoesOn};
ghost use Rattle.base_devices.specs.DiskCalls.{DiskCall, Writes, Publishes};
ghost use Rattle.base_devices.specs.Time.{goes_same, goes_then};
ghost use Rattle.file_devices.specs.Files.{next_count, raised_by, no_calls, file_state, file_moment};

use crate::real::{MainFile, NewFile};
use base_bytes::Text;
use base_devices::{Disk, Failed, counted};
use std::io::{self, ErrorKind};
use std::marker::Model;
use std::os::fd::AsRawFd;
use std::os::unix::fs::FileExt;
use std::rt::Files;

/// A database in a file, and beside it the new file, whose name is the path and `.NEW`.
///
/// Only a path where nothing is counts as absent. Each of these is a fault: what is at the path and no regular file,
/// a file that may not be read and written, one that ends before the length that was answered, and want of memory.
///
/// A link at the path is followed for reading, writing and cutting, and `publish` puts a plain file in its place. The
/// new file has the main file's permission bits, or those of any new file where there is none, and belongs to the user
/// who runs the program. What stands at its name before is removed, or is a fault if it is a folder; a new file that was
/// not published stays. `sync` covers the file's bytes, and the name too: the folder of the path is synced by the first
/// `sync` and by each `publish`, and the name does not change in between.
///
/// Nothing here is proved of the files themselves: the contract speaks of the counts alone.
#[derive(Drop)]
pub struct FileDisk<R: Files + AllocGlobal + Drop> {
    pub(crate) rt: R,
    path: Text,
    main: MainFile<R>,
    fresh: Option<NewFile<R>>,
    pub(crate) faults: u64,
    written: u64,
    publishes: u64,
}

impl<R: Files + AllocGlobal + Drop> Model for FileDisk<R> {
    ghost use Rattle.file_devices.specs.Files.{FileCounts};

    ghost Value = { FileCounts };

    ghost view = { λ d.
        record { faults = d.faults; written = d.written; publishes = d.publishes } };
}

impl<R: Files + AllocGlobal + Drop> FileDisk<R> {
    /// The database at the path. Nothing is opened before the first call.
    pub fn new(rt: R, path: Text) -> Self
        ensures { result ≡ no_calls }
    {
        FileDisk {
            rt,
            path,
            main: MainFile::closed(false),
            fresh: None,
            faults: 0,
            written: 0,
            publishes: 0,
        }
    }
}

impl<R: Files + AllocGlobal + Drop> Disk for FileDisk<R>
where
    R::File: FileExt + AsRawFd,
{
    ghost state = { file_state };

    ghost disk_rest = { λ a b. GoesOn (file_state a) (file_state b) };

    ghost is_moment = { file_moment };

    ghost rest_same = { λ a. goes_same (file_state a) };

    ghost rest_then = { λ a b c ab bc.
        goes_then (file_state a) (file_state b) (file_state c) (file_moment c) ab bc };

    ghost rest_goes_on = { λ a b rest. rest };

    fn length(&mut self) -> Result<Option<u64>, Failed> {
        let answer = self.main.length(&self.rt, self.path.as_str());
        counted(&mut self.faults, answer)
    }

    fn read_at(&mut self, at: u64, into: &mut [u8]) -> Result<usize, Failed> {
        if into.is_empty() {
            return Ok(0);
        }
        let answer = self.main.read_at(&self.rt, self.path.as_str(), at, into);
        counted(&mut self.faults, answer)
    }

    fn write_at(&mut self, at: u64, bytes: &[u8]) -> Result<(), Failed>
        ensures write { Writes at bytes.now (file_state self.old) (file_state self.new) result }
        ensures count { self.new.written ≡ raised_by (length bytes.now) self.old.written }
        ensures call { DiskCall (file_state self.old) (file_state self.new) }
        ensures cause { HasCause self.old.faults self.new.faults result }
        ensures rest { GoesOn (file_state self.old) (file_state self.new) }
    {
        self.written = self.written.saturating_add(bytes.len() as u64);
        if bytes.is_empty() {
            return Ok(());
        }
        let answer = self.main.write_at(&self.rt, self.path.as_str(), at, bytes);
        counted(&mut self.faults, answer)
    }

    fn cut(&mut self, length: u64) -> Result<(), Failed> {
        let answer = self.main.cut(&self.rt, self.path.as_str(), length);
        counted(&mut self.faults, answer)
    }

    fn sync(&mut self) -> Result<(), Failed> {
        let answer = self.main.sync(&self.rt, self.path.as_str());
        counted(&mut self.faults, answer)
    }

    fn new_start(&mut self) -> Result<(), Failed> {
        self.fresh = None;
        let answer = NewFile::start(&self.rt, self.path.as_str());
        let file = counted(&mut self.faults, answer)?;
        self.fresh = Some(file);
        Ok(())
    }

    fn new_write(&mut self, bytes: &[u8]) -> Result<(), Failed> {
        let answer = write_new(&mut self.fresh, bytes);
        counted(&mut self.faults, answer)
    }

    fn new_sync(&mut self) -> Result<(), Failed> {
        let answer = sync_new(&mut self.fresh);
        counted(&mut self.faults, answer)
    }

    fn publish(&mut self) -> Result<(), Failed>
        ensures publish { Publishes (file_state self.old) (file_state self.new) result }
        ensures count { self.new.publishes ≡ next_count self.old.publishes }
        ensures call { DiskCall (file_state self.old) (file_state self.new) }
        ensures cause { HasCause self.old.faults self.new.faults result }
        ensures rest { GoesOn (file_state self.old) (file_state self.new) }
    {
        self.publishes = self.publishes.saturating_add(1);
        let answer = publish_new(&self.rt, self.path.as_str(), self.fresh.take());
        self.main = MainFile::closed(answer.is_ok());
        counted(&mut self.faults, answer)
    }
}

// After a failure there is no new file.
fn write_new<R: Files + AllocGlobal + Drop>(
    fresh: &mut Option<NewFile<R>>,
    bytes: &[u8],
) -> io::Result<()> {
    let mut file = fresh.take().ok_or(ErrorKind::NotFound)?;
    file.write(bytes)?;
    *fresh = Some(file);
    Ok(())
}

// After a failure there is no new file.
fn sync_new<R: Files + AllocGlobal + Drop>(fresh: &mut Option<NewFile<R>>) -> io::Result<()> {
    let file = fresh.take().ok_or(ErrorKind::NotFound)?;
    file.sync()?;
    *fresh = Some(file);
    Ok(())
}

fn publish_new<R: Files + AllocGlobal + Drop>(
    rt: &R,
    path: &str,
    fresh: Option<NewFile<R>>,
) -> io::Result<()> {
    fresh.ok_or(ErrorKind::NotFound)?.publish(rt, path)
}
