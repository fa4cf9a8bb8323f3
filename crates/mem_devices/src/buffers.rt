// Memory that is taken at once.
ghost use Rattle.std.specs.Prelude.{◌≡◌, ◌≤◌, ◌+◌, [], ℕ, max, IfOk, OnOk, length, vec_len, vec_capacity};
ghost use Rattle.base_bytes.specs.Landing.{written_at};
ghost use Rattle.mem_devices.specs.History.{given_image, start_image, image_size, FitsIn};
ghost use Rattle.mem_devices.specs.Left.{laid_at};

use base_bytes::NoMemory;
use std::alloc::Global;

// An empty vector with room for so many elements.
pub(crate) fn with_room<T: Copy>(alloc: Global, room: u64) -> Result<Vec<T>, NoMemory>
    ensures { IfOk result (λ v. (v.items ≡ []) × (room ≤ vec_capacity v)) }
{
    match Vec::with_capacity(alloc, room as usize) {
        Ok(vector) => Ok(vector),
        Err(_) => Err(NoMemory),
    }
}

// A copy of the items.
pub(crate) fn copied<T: Copy>(alloc: Global, items: &[T]) -> Result<Vec<T>, NoMemory>
    ensures { IfOk result (λ v. v.items ≡ items.now) }
{
    let mut vector = with_room(alloc, items.len() as u64)?;
    let _ = vector.extend_from_slice(items);
    Ok(vector)
}

// Puts bytes at an offset that is in the buffer or at its end, which has room for them.
pub(crate) fn overwrite(buffer: &mut Vec<u8>, at: usize, bytes: &[u8])
    requires inside { at ≤ vec_len buffer.old }
    requires room { at + length bytes.now ≤ vec_capacity buffer.old }
    ensures items { buffer.new.items ≡ written_at at bytes.now buffer.old.items }
    ensures capacity { vec_capacity buffer.old ≤ vec_capacity buffer.new }
{
    let count = bytes.len().min(buffer.len() - at);
    buffer[at..at + count].copy_from_slice(&bytes[..count]);
    let _ = buffer.extend_from_slice(&bytes[count..]);
}

// The bytes, where there are any.
pub(crate) fn as_slice(bytes: &Option<Vec<u8>>) -> Option<&[u8]>
    ensures image { given_image result ≡ start_image bytes.now }
    ensures size { (room : ℕ) → image_size (start_image bytes.now) ≤ room → FitsIn room result }
{
    match bytes {
        Some(bytes) => Some(bytes.as_slice()),
        None => None,
    }
}

// Puts the bytes into a buffer in place of its own.
pub(crate) fn assign(buffer: &mut Vec<u8>, bytes: &[u8]) -> Result<(), NoMemory>
    ensures items { OnOk result (buffer.new.items ≡ bytes.now) }
    ensures bound { vec_len buffer.new ≤ length bytes.now }
{
    buffer.clear();
    match buffer.extend_from_slice(bytes) {
        Ok(()) => Ok(()),
        Err(_) => Err(NoMemory),
    }
}

// Puts bytes at an offset, or at the end of a buffer that ends before it.
pub(crate) fn write(buffer: &mut Vec<u8>, at: usize, bytes: &[u8]) -> Result<(), NoMemory>
    ensures items { OnOk result (buffer.new.items ≡ written_at at bytes.now buffer.old.items) }
    ensures bound { vec_len buffer.new ≤ max (vec_len buffer.old) (at + length bytes.now) }
{
    if buffer.reserve(bytes.len()).is_err() {
        return Err(NoMemory);
    }
    let place = at.min(buffer.len());
    overwrite(buffer, place, bytes);
    Ok(())
}

// Lays bytes into a buffer, with zeros before them where it ends before.
pub(crate) fn lay(buffer: &mut Vec<u8>, at: usize, bytes: &[u8]) -> Result<(), NoMemory>
    ensures items { OnOk result (buffer.new.items ≡ laid_at at bytes.now buffer.old.items) }
    ensures bound { vec_len buffer.new ≤ max (vec_len buffer.old) (at + length bytes.now) }
{
    if buffer.len() < at && buffer.resize(at, 0).is_err() {
        return Err(NoMemory);
    }
    write(buffer, at, bytes)
}
