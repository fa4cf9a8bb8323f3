// Whether a change fits the file and memory.
ghost use Rattle.std.specs.Prelude.{◌≡◌, ◌≤◌, ◌+◌, ◌^◌, length, Some, None, IfErr, OnOk};
ghost use Rattle.base_bytes.specs.declared.change.Change.TheVariants.{Put};
ghost use Rattle.base_bytes.specs.declared.limits.TheConstants as limits;
ghost use Rattle.db_core.specs.Refusals.{IsDiskFault, MayAnswer, pair_refusal, size_refusal};
ghost use Rattle.skip_kind.specs.Kind.{change_size, plain_size, skip_kind};
ghost use Rattle.skip_txn.specs.Room.{put_refusal, room_refusal, IsRoomy};

use base_bytes::SKIP_LIMIT;
use db_core::{DbFault, pair_fault};
use skip_form::{level_of, record_size};
use skip_image::Image;

/// How many bytes a delete record takes, and a commit record.
pub(crate) const PLAIN_SIZE: u64 = 24;

/// Makes room for a record of this size and for a commit record behind it, where the file may have both.
pub(crate) fn make_room(image: &mut Image, size: u64) -> Result<(), DbFault>
    requires small { size ≤ 2 ^ 33 }
    ensures fits { OnOk result (room_refusal image.old.bytes size ≡ None) }
    ensures refused { IfErr result (λ fault. MayAnswer (room_refusal image.old.bytes size) fault) }
    ensures no_fault { IfErr result (λ fault. ¬ IsDiskFault fault) }
    ensures roomy { OnOk result (IsRoomy image.new size) }
    ensures bytes { image.new.bytes ≡ image.old.bytes }
    ensures spare { image.old.spare ≤ image.new.spare }
{
    let size = size + PLAIN_SIZE;
    let whole = image.length() + size;
    if whole > SKIP_LIMIT {
        return Err(DbFault::Full { size: whole });
    }
    match image.reserve(size) {
        Ok(()) => Ok(()),
        Err(_) => Err(DbFault::NoMemory),
    }
}

/// Makes room for a pair, or says why it is not put.
pub(crate) fn make_put_room(
    image: &mut Image,
    word: u32,
    key: &[u8],
    value: &[u8],
) -> Result<(), DbFault>
    ensures fits { OnOk result (put_refusal image.old.bytes word key.now value.now ≡ None) }
    ensures refused { IfErr result
        (λ fault. MayAnswer (put_refusal image.old.bytes word key.now value.now) fault) }
    ensures no_fault { IfErr result (λ fault. ¬ IsDiskFault fault) }
    ensures roomy { OnOk result
        (IsRoomy image.new (change_size (Put word key.now value.now))) }
    ensures pair { OnOk result (pair_refusal key.now value.now ≡ None) }
    ensures bytes { image.new.bytes ≡ image.old.bytes }
    ensures spare { image.old.spare ≤ image.new.spare }
{
    if let Some(fault) = pair_fault(key, value) {
        return Err(fault);
    }
    let size = record_size(level_of(word), key.len() as u64, value.len() as u64);
    make_room(image, size)
}
