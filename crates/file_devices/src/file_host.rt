// A host of two real files and the standard streams.
ghost use Rattle.std.specs.Prelude.{◌≡◌, length};
ghost use Rattle.std.proofs.Common.{refl, ap, ◌∙◌};
ghost use Rattle.base_devices.specs.Causes.{HasCause};
ghost use Rattle.base_devices.specs.CrashImages.{GoesOn};
ghost use Rattle.base_devices.specs.DiskCalls.{DiskCall, Writes, Publishes};
ghost use Rattle.base_devices.specs.Time.{goes_same, goes_then};
ghost use Rattle.file_devices.specs.Files.{next_count, raised_by, no_calls, file_state, file_moment, file_streams};

use crate::file::FileDisk;
use base_bytes::Text;
use base_devices::{Disk, Failed, Host, counted};
use std::fmt;
use std::io::{Eprint, Print};
use std::marker::Model;
use std::os::fd::AsRawFd;
use std::os::unix::fs::FileExt;
use std::rt::Files;

/// A database in a file, as [`FileDisk`] has it, with standard output and standard error.
///
/// `tell` prints bytes as they are. `warn` prints text: each run of bytes that is not UTF-8 is shown as U+FFFD, and a
/// failure there passes unseen.
#[derive(Drop)]
pub struct FileHost<R: Files + AllocGlobal + Print + Eprint + Drop> {
    disk: FileDisk<R>,
    tell_faults: u64,
}

impl<R: Files + AllocGlobal + Print + Eprint + Drop> Model for FileHost<R> {
    ghost use Rattle.file_devices.specs.Files.{HostCounts};

    ghost Value = { HostCounts };

    ghost view = { λ h. record { disk = h.disk; tell_faults = h.tell_faults } };
}

impl<R: Files + AllocGlobal + Print + Eprint + Drop> FileHost<R> {
    /// The database at the path. Nothing is opened before the first call.
    pub fn new(rt: R, path: Text) -> Self
        ensures { result ≡ record { disk = no_calls; tell_faults = 0 } }
    {
        FileHost {
            disk: FileDisk::new(rt, path),
            tell_faults: 0,
        }
    }
}

impl<R: Files + AllocGlobal + Print + Eprint + Drop> Disk for FileHost<R>
where
    R::File: FileExt + AsRawFd,
{
    ghost state = { λ h. file_state h.disk };

    ghost disk_rest = { λ a b. (b.tell_faults ≡ a.tell_faults)
        × GoesOn (file_state a.disk) (file_state b.disk) };

    ghost is_moment = { λ h. file_moment h.disk };

    ghost rest_same = { λ a. (refl, goes_same (file_state a.disk)) };

    ghost rest_then = { λ a b c ab bc. (
      bc.0 ∙ ab.0,
      goes_then (file_state a.disk) (file_state b.disk) (file_state c.disk) (file_moment c.disk) ab.1 bc.1,
    ) };

    ghost rest_goes_on = { λ a b rest. rest.1 };

    fn length(&mut self) -> Result<Option<u64>, Failed> {
        self.disk.length()
    }

    fn read_at(&mut self, at: u64, into: &mut [u8]) -> Result<usize, Failed> {
        self.disk.read_at(at, into)
    }

    fn write_at(&mut self, at: u64, bytes: &[u8]) -> Result<(), Failed>
        ensures write { let old = file_state self.old.disk in
            Writes at bytes.now old (file_state self.new.disk) result }
        ensures count { self.new.disk.written ≡ raised_by (length bytes.now) self.old.disk.written }
        ensures call { DiskCall (file_state self.old.disk) (file_state self.new.disk) }
        ensures cause { HasCause self.old.disk.faults self.new.disk.faults result }
        ensures rest { (self.new.tell_faults ≡ self.old.tell_faults)
            × GoesOn (file_state self.old.disk) (file_state self.new.disk) }
    {
        self.disk.write_at(at, bytes)
    }

    fn cut(&mut self, length: u64) -> Result<(), Failed> {
        self.disk.cut(length)
    }

    fn sync(&mut self) -> Result<(), Failed> {
        self.disk.sync()
    }

    fn new_start(&mut self) -> Result<(), Failed> {
        self.disk.new_start()
    }

    fn new_write(&mut self, bytes: &[u8]) -> Result<(), Failed> {
        self.disk.new_write(bytes)
    }

    fn new_sync(&mut self) -> Result<(), Failed> {
        self.disk.new_sync()
    }

    fn publish(&mut self) -> Result<(), Failed>
        ensures publish { Publishes (file_state self.old.disk) (file_state self.new.disk) result }
        ensures count { self.new.disk.publishes ≡ next_count self.old.disk.publishes }
        ensures call { DiskCall (file_state self.old.disk) (file_state self.new.disk) }
        ensures cause { HasCause self.old.disk.faults self.new.disk.faults result }
        ensures rest { (self.new.tell_faults ≡ self.old.tell_faults)
            × GoesOn (file_state self.old.disk) (file_state self.new.disk) }
    {
        self.disk.publish()
    }
}

impl<R: Files + AllocGlobal + Print + Eprint + Drop> Host for FileHost<R>
where
    R::File: FileExt + AsRawFd,
{
    ghost streams = { λ h. file_streams h };

    ghost host_rest = { λ a b. GoesOn (file_state a.disk) (file_state b.disk) };

    ghost disk_keeps = { λ a b rest.
        ap (λ n. file_streams (record { disk = no_calls; tell_faults = n })) rest.0 };

    ghost disk_rests = { λ a b rest. rest.1 };

    ghost host_same = { λ a. goes_same (file_state a.disk) };

    ghost host_then = { λ a b c ab bc.
        goes_then (file_state a.disk) (file_state b.disk) (file_state c.disk) (file_moment c.disk) ab bc };

    ghost host_goes_on = { λ a b rest. rest };

    fn tell(&mut self, bytes: &[u8]) -> Result<(), Failed> {
        let answer = self.disk.rt.write_all(bytes);
        let answer = counted(&mut self.disk.faults, answer);
        counted(&mut self.tell_faults, answer)
    }

    fn warn(&mut self, bytes: &[u8]) {
        let _ = self.disk.rt.eprint(Lossy { bytes });
    }
}

// Bytes as text.
#[derive(Drop)]
struct Lossy<'a> {
    bytes: &'a [u8],
}

impl<'a> fmt::Display for Lossy<'a> {
    fn fmt<W: fmt::Write>(&self, f: &mut fmt::Formatter<W>) -> fmt::Result {
        for chunk in self.bytes.utf8_chunks() {
            f.write_str(chunk.valid())?;
            if !chunk.invalid().is_empty() {
                f.write_char('\u{fffd}')?;
            }
        }
        Ok(())
    }
}
