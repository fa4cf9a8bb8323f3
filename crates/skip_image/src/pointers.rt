// A pointer is set, in the image and on the disk.
ghost use Rattle.std.specs.Prelude.{◌≡◌};

use crate::fields::head_size_at;
use crate::image::Image;
use base_bytes::part_at;
use base_devices::{Disk, Failed};
use check_word::check;

impl Image {
    ghost use Rattle.std.specs.Prelude.{◌≡◌, ◌≤◌, ◌+◌, ◌-◌, List, ℕ, length, OnOk};
    ghost use Rattle.base_bytes.specs.Fields.{part};
    ghost use Rattle.base_bytes.specs.Landing.{written_at};
    ghost use Rattle.base_devices.specs.Causes.{HasCause};
    ghost use Rattle.base_devices.specs.CrashImages.{Shows, Reads};
    ghost use Rattle.skip_form.specs.Flaws.{head_in};
    ghost use Rattle.skip_spec.specs.Chain.{pairs};
    ghost use Rattle.skip_spec.specs.Opens.{Contents};
    ghost use Rattle.skip_spec.specs.Records.{head_size_of};
    ghost use Rattle.skip_lists.specs.Heads.{HasSlots, SetsPointer, MaySet};
    ghost use Rattle.skip_lists.specs.Tie.{TiedToBase, LeavesMap, StaysUpTo};
    ghost use Rattle.skip_image.specs.HeadWrites.{ReadsButHead, IsAhead};

    /// Sets a pointer of the dummy or of a put record, and makes the head check right.
    pub fn set_pointer(&mut self, at: u64, slot: u8, to: u64)
        requires there { HasSlots self.old.bytes at }
        requires slot { slot ≤ (head_in self.old.bytes at).level }
        ensures sets { SetsPointer self.old.bytes self.new.bytes at slot to }
        ensures size { length self.new.bytes ≡ length self.old.bytes }
        ensures spare { self.old.spare ≤ self.new.spare }
    {
        let checked = head_size_at(self.bytes(), at as usize) - 8;
        self.patch(at + 8 + 8 * slot as u64, &to.to_be_bytes());
        let word = check(part_at(self.bytes(), at as usize, checked));
        self.patch(at + checked as u64, &word.to_be_bytes());
    }

    /// Sets a pointer as [`Image::set_pointer`] does, and writes the head up to its check to the disk, in one call.
    pub fn write_pointer<D: Disk>(
        &mut self,
        disk: &mut D,
        at: u64,
        slot: u8,
        to: u64,
    ) -> Result<(), Failed>
        requires there { HasSlots self.old.bytes at }
        requires slot { slot ≤ (head_in self.old.bytes at).level }
        requires reads { Shows (D.state disk.old) → Reads (D.state disk.old) self.old.bytes }
        // What is set, and on the disk after Ok.
        ensures sets { SetsPointer self.old.bytes self.new.bytes at slot to }
        ensures size { length self.new.bytes ≡ length self.old.bytes }
        ensures spare { self.old.spare ≤ self.new.spare }
        ensures reads { OnOk result (Shows (D.state disk.new)
            → Reads (D.state disk.new) self.new.bytes) }
        // What a stop leaves, where the pointer may be set.
        ensures tied { (base : List ℕ) (says : Contents)
            → TiedToBase base says self.old.bytes (D.state disk.old)
            → MaySet base says self.old.bytes at slot to
            → OnOk result (TiedToBase base says self.new.bytes (D.state disk.new)) }
        ensures moments { (base : List ℕ) (says : Contents)
            → TiedToBase base says self.old.bytes (D.state disk.old)
            → MaySet base says self.old.bytes at slot to
            → LeavesMap (pairs says.chain) (D.state disk.old) (D.state disk.new) }
        ensures long { (most : ℕ) → length self.old.bytes ≤ most
            → StaysUpTo most (D.state disk.old) (D.state disk.new) }
        // What else the disk shows.
        ensures written { (D.state disk.new).written ≤ (D.state disk.old).written + 272 }
        ensures publishes { (D.state disk.new).publishes ≡ (D.state disk.old).publishes }
        ensures mark { (D.state disk.new).mark ≡ (D.state disk.old).mark }
        ensures cause { HasCause (D.state disk.old).faults (D.state disk.new).faults result }
        ensures rest { D.disk_rest disk.old disk.new }
    {
        let size = head_size_at(self.bytes(), at as usize) - 4;
        self.set_pointer(at, slot, to);
        disk.write_at(at, part_at(self.bytes(), at as usize, size))?;
        Ok(())
    }

    /// Writes the head of a record up to its tail check to the disk, in one call, after pointers of it were set.
    pub fn write_head<D: Disk>(&self, disk: &mut D, at: u64) -> Result<(), Failed>
        requires there { HasSlots self.now.bytes at }
        requires reads { Shows (D.state disk.old)
            → ReadsButHead (D.state disk.old) self.now.bytes at }
        ensures reads { OnOk result (Shows (D.state disk.new)
            → Reads (D.state disk.new) self.now.bytes) }
        // What a stop leaves, where the bytes are ahead of the disk by this head.
        ensures tied { (base : List ℕ) (says : Contents)
            → IsAhead base says self.now.bytes at (D.state disk.old)
            → OnOk result (TiedToBase base says self.now.bytes (D.state disk.new)) }
        ensures moments { (base : List ℕ) (says : Contents)
            → IsAhead base says self.now.bytes at (D.state disk.old)
            → LeavesMap (pairs says.chain) (D.state disk.old) (D.state disk.new) }
        ensures long { (most : ℕ) → length self.now.bytes ≤ most
            → StaysUpTo most (D.state disk.old) (D.state disk.new) }
        // What else the disk shows.
        ensures written { (D.state disk.new).written ≤ (D.state disk.old).written + 272 }
        ensures publishes { (D.state disk.new).publishes ≡ (D.state disk.old).publishes }
        ensures mark { (D.state disk.new).mark ≡ (D.state disk.old).mark }
        ensures cause { HasCause (D.state disk.old).faults (D.state disk.new).faults result }
        ensures rest { D.disk_rest disk.old disk.new }
    {
        let size = head_size_at(self.bytes(), at as usize) - 4;
        disk.write_at(at, part_at(self.bytes(), at as usize, size))?;
        Ok(())
    }
}
