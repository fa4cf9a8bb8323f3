// What stands in the records of an image.
use crate::fields::{
    free_slot_at, head_size_at, key_size_at, level_at, pointer_at, pointer_under, value_size_at,
};
use crate::image::Image;
use base_bytes::{Steps, part_at, u32_at};
use skip_form::{Head, Header, head_at, read_header};
use std::sync::ledger::Ledger;

impl Image {
    ghost use Rattle.std.specs.Prelude.{◌≡◌, ◌+◌, ◌<◌, ◌≤◌, take};
    ghost use Rattle.skip_form.specs.Fields.{pointer_in};
    ghost use Rattle.skip_form.specs.Flaws.{head_in, header_in};
    ghost use Rattle.skip_form.specs.Spelling.{IsHeader, header_bytes};
    ghost use Rattle.skip_spec.specs.Near.{free_slot_of};
    ghost use Rattle.skip_spec.specs.Records.{key_in, value_in};
    ghost use Rattle.skip_spec.specs.Successor as successor;
    ghost use Rattle.skip_spec.specs.Successor.{successor_under};
    ghost use Rattle.skip_lists.specs.Heads.{HasSlots};
    ghost use Rattle.skip_image.specs.Image.{HasHeader, HasRecord, CanStep, tail_in, step_cost};

    /// The header.
    pub fn header(&self) -> Header
        requires there { HasHeader self.now.bytes }
        ensures fields { result ≡ header_in self.now.bytes }
        ensures only { (h : Header) → IsHeader h → take 64 self.now.bytes ≡ header_bytes h
            → result ≡ h }
    {
        match read_header(self.bytes()) {
            Ok(header) => header,
            Err(_) => unreachable!(),
        }
    }

    /// The head of the record at an offset.
    pub fn head<L: Ledger>(&self, at: u64, steps: &mut Steps<L>) -> Head
        requires there { HasRecord self.now.bytes at }
        ensures fields { result ≡ head_in self.now.bytes at }
        ensures cost { steps.new ≡ steps.old + 1 }
    {
        steps.tick();
        match head_at(self.bytes(), at) {
            Ok(head) => head,
            Err(_) => unreachable!(),
        }
    }

    /// The key of the record at an offset.
    pub fn key(&self, at: u64) -> &[u8]
        requires there { HasRecord self.now.bytes at }
        ensures { result.now ≡ key_in self.now.bytes at }
    {
        let bytes = self.bytes();
        let start = at as usize;
        part_at(
            bytes,
            start + head_size_at(bytes, start),
            key_size_at(bytes, start),
        )
    }

    /// The value of the record at an offset.
    pub fn value(&self, at: u64) -> &[u8]
        requires there { HasRecord self.now.bytes at }
        ensures { result.now ≡ value_in self.now.bytes at }
    {
        let bytes = self.bytes();
        let start = at as usize;
        let front = head_size_at(bytes, start) + key_size_at(bytes, start);
        part_at(bytes, start + front, value_size_at(bytes, start))
    }

    /// The level of the record at an offset.
    pub fn level(&self, at: u64) -> u8
        requires there { HasRecord self.now.bytes at }
        ensures { result ≡ (head_in self.now.bytes at).level }
    {
        level_at(self.bytes(), at as usize)
    }

    /// The tail check that stands in the record at an offset.
    pub fn tail(&self, at: u64) -> u32
        requires there { HasRecord self.now.bytes at }
        ensures { result ≡ tail_in self.now.bytes at }
    {
        let bytes = self.bytes();
        let start = at as usize;
        u32_at(bytes, start + head_size_at(bytes, start) - 4)
    }

    /// What stands in level-zero slot 0 or 1 of the dummy or of a put record.
    pub fn slot<L: Ledger>(&self, at: u64, slot: u8, steps: &mut Steps<L>) -> u64
        requires there { HasSlots self.now.bytes at }
        requires slot { slot ≤ 1 }
        ensures value { result ≡ pointer_in self.now.bytes at slot }
        ensures cost { steps.new ≡ steps.old + 1 }
    {
        steps.tick();
        pointer_at(self.bytes(), at, slot)
    }

    /// The pointer of an upper level, from 1 on, of the dummy or of a put record that is higher.
    pub fn upper<L: Ledger>(&self, at: u64, level: u8, steps: &mut Steps<L>) -> u64
        requires there { HasSlots self.now.bytes at }
        requires upper { 1 ≤ level }
        requires level { level < (head_in self.now.bytes at).level }
        ensures value { result ≡ pointer_in self.now.bytes at (level + 1) }
        ensures cost { steps.new ≡ steps.old + 1 }
    {
        steps.tick();
        pointer_at(self.bytes(), at, level + 1)
    }

    /// The live record after the dummy or a put record, or 0 after the last one: the greatest of its two level-zero
    /// slots that is below the bound, or where a delete record stands there, its pointer.
    pub fn successor<L: Ledger>(&self, at: u64, bound: u64, steps: &mut Steps<L>) -> u64
        requires there { CanStep self.now.bytes bound at }
        ensures value { result ≡ successor_under self.now.bytes bound at }
        ensures cost { steps.new ≡ steps.old + step_cost self.now.bytes bound at }
    {
        steps.tick();
        let pointer = pointer_under(self.bytes(), at, bound);
        if pointer == 0 {
            return 0;
        }
        if self.bytes()[pointer as usize] != b'-' {
            return pointer;
        }
        steps.tick();
        skip_form::pointer(self.bytes(), pointer, 0)
    }

    /// The level-zero slot, 0 or 1, that a writer takes in the dummy or a put record: the one at or above the bound;
    /// where neither is, the lesser one; where they are equal, slot 1.
    pub fn free_slot(&self, at: u64, bound: u64) -> u8
        requires there { HasSlots self.now.bytes at }
        ensures exact { result ≡ free_slot_of self.now.bytes bound at }
        ensures range { result ≤ 1 }
    {
        free_slot_at(self.bytes(), at, bound)
    }
}
