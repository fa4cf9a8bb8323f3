// A file in memory.
use base_bytes::{NoMemory, PIECE_SIZE};
use base_devices::{Disk, Failed, ReadFault, read_whole};
use std::alloc::Global;
use std::marker::Model;

/// How many bytes one byte of the marks stands for.
const MARKED: usize = 64;

/// A twoskip file of at most 268,435,456 bytes as one vector, with one mark bit for each eight bytes, which verification
/// uses.
#[derive(Drop)]
pub struct Image {
    pub(crate) bytes: Vec<u8>,
    pub(crate) marks: Vec<u8>,
}

impl Model for Image {
    ghost use Rattle.std.specs.Prelude.{◌-◌, ◌*◌, ◌≤◌, min, vec_len, vec_capacity};
    ghost use Rattle.skip_image.specs.Image.{ImageView, image_limit};

    ghost Value = { ImageView };

    ghost view = { λ i. record {
      bytes = i.bytes.items;
      spare = min (vec_capacity i.bytes - vec_len i.bytes)
          (64 * vec_capacity i.marks - vec_len i.bytes);
    } };

    ghost invariant = { λ i. (vec_len i.bytes ≤ 64 * vec_len i.marks)
        × (vec_len i.bytes ≤ image_limit) };
}

impl Image {
    ghost use Rattle.std.specs.Prelude.{◌≡◌, ◌≤◌, ◌+◌, ◌++◌, List, ℕ, length, take, vec_len, IsSome, OnOk, IfOk};
    ghost use Rattle.base_bytes.specs.Landing.{written_at};
    ghost use Rattle.base_devices.specs.Causes.{FaultHasCause, HasCause, IsReadFault};
    ghost use Rattle.base_devices.specs.CrashImages.{Shows, Reads};
    ghost use Rattle.base_devices.specs.DiskCalls.{HasLength};
    ghost use Rattle.base_devices.specs.Frames.{StaysAs};
    ghost use Rattle.skip_form.specs.Sizes.{padded};
    ghost use Rattle.skip_form.specs.Spelling.{body_bytes};
    ghost use Rattle.skip_image.specs.Image.{image_limit, Adds};

    /// The bytes that the main file reads, whose length was answered before.
    pub fn load<D: Disk>(alloc: Global, disk: &mut D, size: u64) -> Result<Image, ReadFault>
        requires limit { size ≤ image_limit }
        requires there { Shows (D.state disk.old) → HasLength (D.state disk.old).reads size }
        ensures bytes { IfOk result (λ i. (b : List ℕ) → Reads (D.state disk.old) b → i.bytes ≡ b) }
        ensures size { IfOk result (λ i. length i.bytes ≡ size) }
        ensures cause { FaultHasCause IsReadFault (D.state disk.old).faults
            (D.state disk.new).faults result }
        ensures fresh { (D.state disk.new).fresh ≡ (D.state disk.old).fresh }
        ensures stays { StaysAs (D.state disk.old) (D.state disk.new) }
        ensures rest { D.disk_rest disk.old disk.new }
    {
        let bytes = read_whole(alloc, disk, size)?;
        match Image::of(alloc, bytes) {
            Ok(image) => Ok(image),
            Err(_) => Err(ReadFault::NoMemory),
        }
    }

    /// The image of these bytes, 268,435,456 at most, which keeps the vector that it is handed.
    pub fn of(alloc: Global, bytes: Vec<u8>) -> Result<Image, NoMemory>
        requires limit { vec_len bytes ≤ image_limit }
        ensures bytes { IfOk result (λ i. i.bytes ≡ bytes.items) }
    {
        match vec![in alloc; 0u8; bytes.len().div_ceil(MARKED)] {
            Ok(marks) => Ok(Image { bytes, marks }),
            Err(_) => Err(NoMemory),
        }
    }

    /// Adds the bytes to the new file, in order and in pieces of at most 65,536. It takes no memory.
    pub fn write_new<D: Disk>(&self, disk: &mut D) -> Result<(), Failed>
        requires begun { Shows (D.state disk.old) → IsSome (D.state disk.old).fresh }
        ensures added { OnOk result (Adds self.now.bytes (D.state disk.old).fresh
            (D.state disk.new).fresh) }
        ensures stays { StaysAs (D.state disk.old) (D.state disk.new) }
        ensures cause { HasCause (D.state disk.old).faults (D.state disk.new).faults result }
        ensures rest { D.disk_rest disk.old disk.new }
    {
        let bytes = self.bytes();
        let mut at = 0;
        while at < bytes.len() {
            let end = bytes.len().min(at + PIECE_SIZE);
            disk.new_write(&bytes[at..end])?;
            at = end;
        }
        Ok(())
    }

    /// The number of bytes.
    pub fn length(&self) -> u64
        ensures size { result ≡ length self.now.bytes }
        ensures limit { result ≤ image_limit }
    {
        self.bytes.len() as u64
    }

    /// The bytes.
    pub fn bytes(&self) -> &[u8]
        ensures { result.now ≡ self.now.bytes }
    {
        self.bytes.as_slice()
    }

    /// Makes room for more bytes and their marks. The room that was there stays, whatever the answer.
    pub fn reserve(&mut self, more: u64) -> Result<(), NoMemory>
        requires { more ≤ image_limit }
        ensures room { OnOk result (more ≤ self.new.spare) }
        ensures bytes { self.new.bytes ≡ self.old.bytes }
        ensures spare { self.old.spare ≤ self.new.spare }
    {
        let size = self.bytes.len() + more as usize;
        if self.bytes.reserve(more as usize).is_err() {
            return Err(NoMemory);
        }
        let marks = size.div_ceil(MARKED);
        let has = self.marks.len();
        if marks > has && self.marks.reserve(marks - has).is_err() {
            return Err(NoMemory);
        }
        Ok(())
    }

    /// Appends a head, a key and a value, with zeros up to a multiple of eight bytes. The room for them was reserved.
    pub fn append_reserved(&mut self, head: &[u8], key: &[u8], value: &[u8])
        requires room { length head.now + padded (length key.now + length value.now)
            ≤ self.old.spare }
        requires limit { length self.old.bytes + length head.now
            + padded (length key.now + length value.now) ≤ image_limit }
        ensures bytes { self.new.bytes
            ≡ self.old.bytes ++ (head.now ++ body_bytes key.now value.now) }
        ensures spare { self.old.spare ≤ self.new.spare + length head.now
            + padded (length key.now + length value.now) }
    {
        let body = (key.len() + value.len()).next_multiple_of(8);
        let size = self.bytes.len() + head.len() + body;
        let _ = self.bytes.extend_from_slice(head);
        let _ = self.bytes.extend_from_slice(key);
        let _ = self.bytes.extend_from_slice(value);
        let _ = self.bytes.resize(size, 0);
        let marks = size.div_ceil(MARKED);
        if self.marks.len() < marks {
            let _ = self.marks.resize(marks, 0);
        }
    }

    /// Writes over bytes that are there.
    pub fn patch(&mut self, at: u64, bytes: &[u8])
        requires inside { at + length bytes.now ≤ length self.old.bytes }
        ensures bytes { self.new.bytes ≡ written_at at bytes.now self.old.bytes }
        ensures spare { self.old.spare ≤ self.new.spare }
    {
        let start = at as usize;
        self.bytes[start..start + bytes.len()].copy_from_slice(bytes);
    }

    /// Cuts the file to a length.
    pub fn shorten(&mut self, size: u64)
        requires inside { size ≤ length self.old.bytes }
        ensures bytes { self.new.bytes ≡ take size self.old.bytes }
        ensures spare { self.old.spare ≤ self.new.spare }
    {
        self.bytes.truncate(size as usize);
    }
}
