// Records are appended.
ghost use Rattle.std.specs.Prelude.{◌≡◌, ◌≢◌, ◌≤◌, ◌+◌, ◌*◌, ◌%◌, ◌++◌, List, ℕ, length, take, OnOk};
ghost use Rattle.base_bytes.specs.Fields.{AreBytes};
ghost use Rattle.base_devices.specs.Causes.{HasCause};
ghost use Rattle.base_devices.specs.CrashImages.{Shows, Reads};
ghost use Rattle.skip_form.specs.declared.head.Kind.TheVariants.{Dummy};
ghost use Rattle.skip_form.specs.Sizes.{padded, head_size, record_size};
ghost use Rattle.skip_form.specs.Spelling.{IsLevelOf, AreLengthsOf, IsRecord, body_bytes, head_bytes, record_bytes};
ghost use Rattle.skip_spec.specs.Appending.{record_of};
ghost use Rattle.skip_spec.specs.Chain.{pairs};
ghost use Rattle.skip_spec.specs.Opens.{Contents};
ghost use Rattle.skip_lists.specs.Tie.{TiedToBase, LeavesMap, StaysUpTo};
ghost use Rattle.skip_image.specs.Image.{image_limit};

use base_bytes::part_at;
use base_devices::{Disk, Failed};
use skip_form::{Head, Kind, tail_check, write_head_into};
use skip_image::Image;

/// A head, and zeros behind it.
fn spell_head(head: &Head, pointers: &[u64], tail: u32) -> [u8; 272]
    requires level { head.now.level ≤ 31 }
    requires key { head.now.key_len ≤ 65534 }
    requires value { head.now.value_len ≤ 4294967294 }
    requires pointers { length pointers.now ≡ head.now.level + 1 }
    ensures { take (head_size head.now.level head.now.key_len) result
        ≡ head_bytes head.now pointers.now tail }
{
    let mut bytes = [0u8; 272];
    let size = 8 + 8 * (head.level as usize + 1) + 8;
    write_head_into(head, pointers, tail, &mut bytes[..size]);
    bytes
}

/// Appends a head, a key, a value and padding.
fn append_parts(image: &mut Image, head: &[u8], key: &[u8], value: &[u8])
    requires room { length head.now + padded (length key.now + length value.now) ≤ image.old.spare }
    requires limit { length image.old.bytes + length head.now
        + padded (length key.now + length value.now) ≤ image_limit }
    ensures bytes { image.new.bytes
        ≡ image.old.bytes ++ (head.now ++ body_bytes key.now value.now) }
    ensures fits { AreBytes (head.now ++ body_bytes key.now value.now) }
    ensures spare { image.old.spare ≤ image.new.spare + length head.now
        + padded (length key.now + length value.now) }
{
    image.append_reserved(head, key, value);
}

/// Appends a record, for which room was reserved.
#[tactic(auto, unfolding(skip_form::specs::Spelling::record_bytes))]
fn append_record(
    image: &mut Image,
    kind: Kind,
    level: u8,
    pointers: &[u64],
    key: &[u8],
    value: &[u8],
)
    requires level { level ≤ 31 }
    requires key { length key.now ≤ 65534 }
    requires value { length value.now ≤ 4294967294 }
    requires pointers { length pointers.now ≡ level + 1 }
    requires room { record_size level (length key.now) (length value.now) ≤ image.old.spare }
    requires limit { length image.old.bytes
        + record_size level (length key.now) (length value.now) ≤ image_limit }
    ensures bytes { image.new.bytes ≡ image.old.bytes
        ++ record_bytes (record_of kind level pointers.now key.now value.now) }
    ensures fits { AreBytes (record_bytes (record_of kind level pointers.now key.now value.now)) }
    ensures spare { image.old.spare
        ≤ image.new.spare + record_size level (length key.now) (length value.now) }
{
    let head = Head {
        kind,
        level,
        key_len: key.len() as u64,
        value_len: value.len() as u64,
        size: 0,
    };
    let size = 8 + 8 * (level as usize + 1) + 8;
    let bytes = spell_head(&head, pointers, tail_check(key, value));
    append_parts(image, &bytes[..size], key, value);
}

/// Appends a record to the bytes and to the file.
pub(crate) fn write_record<D: Disk>(
    disk: &mut D,
    image: &mut Image,
    kind: Kind,
    level: u8,
    pointers: &[u64],
    key: &[u8],
    value: &[u8],
) -> Result<(), Failed>
    requires kind { kind ≢ Dummy }
    requires level { IsLevelOf kind level }
    requires lengths { AreLengthsOf kind (length key.now) (length value.now) }
    requires pointers { length pointers.now ≡ level + 1 }
    requires room { record_size level (length key.now) (length value.now) ≤ image.old.spare }
    requires limit { length image.old.bytes
        + record_size level (length key.now) (length value.now) ≤ image_limit }
    requires reads { Shows (D.state disk.old) → Reads (D.state disk.old) image.old.bytes }
    ensures bytes { image.new.bytes ≡ image.old.bytes
        ++ record_bytes (record_of kind level pointers.now key.now value.now) }
    ensures fits { AreBytes (record_bytes (record_of kind level pointers.now key.now value.now)) }
    ensures form { IsRecord (record_of kind level pointers.now key.now value.now) }
    ensures length { length image.new.bytes
        ≡ length image.old.bytes + record_size level (length key.now) (length value.now) }
    ensures spare { image.old.spare
        ≤ image.new.spare + record_size level (length key.now) (length value.now) }
    ensures reads { OnOk result (Shows (D.state disk.new)
        → Reads (D.state disk.new) image.new.bytes) }
    ensures tied { (base : List ℕ) (says : Contents)
        → TiedToBase base says image.old.bytes (D.state disk.old)
        → OnOk result (TiedToBase base says image.new.bytes (D.state disk.new)) }
    ensures moments { (base : List ℕ) (says : Contents)
        → TiedToBase base says image.old.bytes (D.state disk.old)
        → LeavesMap (pairs says.chain) (D.state disk.old) (D.state disk.new) }
    ensures long { (most : ℕ) → length image.new.bytes ≤ most
        → StaysUpTo most (D.state disk.old) (D.state disk.new) }
    ensures written { (D.state disk.new).written
        ≤ (D.state disk.old).written + record_size level (length key.now) (length value.now) }
    ensures publishes { (D.state disk.new).publishes ≡ (D.state disk.old).publishes }
    ensures mark { (D.state disk.new).mark ≡ (D.state disk.old).mark }
    ensures cause { HasCause (D.state disk.old).faults (D.state disk.new).faults result }
    ensures rest { D.disk_rest disk.old disk.new }
{
    let end = image.length();
    append_record(image, kind, level, pointers, key, value);
    let size = image.length() - end;
    disk.write_at(end, part_at(image.bytes(), end as usize, size as usize))?;
    Ok(())
}
