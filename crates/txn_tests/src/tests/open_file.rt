// A session and the disk in memory to which it is tied.
ghost use Rattle.std.specs.Prelude.{OnOk, IfOk};
ghost use Rattle.base_devices.specs.CrashImages.{IsDurable};
ghost use Rattle.mem_devices.specs.Memory.{mem_state};
ghost use Rattle.txn_tests.specs.Settled.{IsOn, IsSettled};

use base_bytes::SKIP_LIMIT;
use mem_devices::MemDisk;
use skip_image::Image;
use skip_recover::recover;
use skip_txn::{Session, TxnFault};
use std::alloc::Global;
use std::marker::Model;
use std::test::Fail;

/// A session over the file of a disk. A call outside a transaction, or of a broken session, answers `Broken`.
#[derive(Drop)]
pub struct OpenFile {
    session: Session,
    disk: MemDisk,
}

impl Model for OpenFile {
    ghost use Rattle.mem_devices.specs.Memory.{mem_state};
    ghost use Rattle.skip_txn.specs.Sessions.{SkipSession, Tied};

    ghost Value = { SkipSession };

    ghost view = { λ f. f.session };

    ghost invariant = { λ f. Tied f.session (mem_state f.disk) };
}

// The file that the disk reads, in memory.
fn image_of(alloc: Global, disk: &MemDisk) -> Result<Image, Fail>
    requires { IsDurable (mem_state disk.now) }
    ensures { IfOk result (λ i. IsOn i.bytes (mem_state disk.now)) }
{
    let Some(bytes) = disk.main() else {
        return Err("there is no file".into());
    };
    if bytes.len() as u64 > SKIP_LIMIT {
        return Err("the file is too long".into());
    }
    Ok(Image::of(alloc, bytes.to_vec(alloc)?)?)
}

// Verifies the file, and repairs it where it has DIRTY.
fn settle(image: &mut Image, disk: &mut MemDisk) -> Result<(), Fail>
    requires { IsOn image.old.bytes (mem_state disk.old) }
    ensures { OnOk result (IsSettled image.new.bytes (mem_state disk.new)) }
{
    let Ok(found) = image.verify() else {
        return Err("the file has a flaw".into());
    };
    if found.clean {
        return Ok(());
    }
    match recover(image, disk) {
        Ok(()) => Ok(()),
        Err(_) => Err("the repair failed".into()),
    }
}

/// The file of a disk of which nothing pends, opened: verified, and repaired where it has DIRTY.
pub fn open_disk(alloc: Global, disk: MemDisk) -> Result<OpenFile, Fail>
    requires { IsDurable (mem_state disk) }
{
    let mut disk = disk;
    let mut image = image_of(alloc, &disk)?;
    settle(&mut image, &mut disk)?;
    Ok(OpenFile {
        session: Session::new(image),
        disk,
    })
}

// A new disk with this file, which takes so many bytes for each of its buffers.
fn disk_of(alloc: Global, file: &[u8], room: u64, fails: &[u64]) -> Result<MemDisk, Fail>
    ensures { IfOk result (λ d. IsDurable (mem_state d)) }
{
    if file.len() as u64 > room {
        return Err("the file is too long".into());
    }
    Ok(MemDisk::new(alloc, Some(file), room, fails)?)
}

/// A file on a new disk, whose calls with these numbers fail.
pub fn open_bytes(alloc: Global, file: &[u8], room: u64, fails: &[u64]) -> Result<OpenFile, Fail> {
    open_disk(alloc, disk_of(alloc, file, room, fails)?)
}

impl OpenFile {
    /// The session.
    pub fn session(&self) -> &Session {
        &self.session
    }

    /// The disk.
    pub fn disk(&self) -> &MemDisk {
        &self.disk
    }

    /// The bytes of the file on the disk.
    pub fn bytes(&self) -> &[u8] {
        match self.disk.main() {
            Some(bytes) => bytes,
            None => b"",
        }
    }

    /// Stops the disk after so many landings.
    pub fn stop_after(&mut self, landings: u64) {
        self.disk.stop_after(landings);
    }

    /// Opens the file that a stop now leaves, where of what pends only this has landed.
    pub fn left(&self, alloc: Global, landed: &[bool]) -> Result<OpenFile, Fail> {
        open_disk(alloc, self.disk.left(alloc, landed)?)
    }

    /// Begins a transaction.
    pub fn begin(&mut self) -> Result<(), TxnFault> {
        if self.session.broken() || self.session.in_transaction() {
            return Err(TxnFault::Broken);
        }
        self.session.begin()
    }

    /// Puts a pair.
    pub fn store(&mut self, word: u32, key: &[u8], value: &[u8]) -> Result<(), TxnFault> {
        if !self.session.in_transaction() {
            return Err(TxnFault::Broken);
        }
        self.session.store(&mut self.disk, word, key, value)
    }

    /// Takes a key out, and answers whether it was there.
    pub fn delete(&mut self, key: &[u8]) -> Result<bool, TxnFault> {
        if !self.session.in_transaction() {
            return Err(TxnFault::Broken);
        }
        self.session.delete(&mut self.disk, key)
    }

    /// Commits the transaction.
    pub fn commit(&mut self) -> Result<(), TxnFault> {
        if !self.session.in_transaction() {
            return Err(TxnFault::Broken);
        }
        self.session.commit(&mut self.disk)
    }

    /// Gives the transaction up.
    pub fn abort(&mut self) -> Result<(), TxnFault> {
        if !self.session.in_transaction() {
            return Err(TxnFault::Broken);
        }
        self.session.abort(&mut self.disk)
    }
}
