// Where a key stands, and where the levels lead past its place.
ghost use Rattle.std.specs.Prelude.{◌≡◌, ◌≤◌, ◌<◌, ◌+◌, List, ℕ, slice_index, max};
ghost use Rattle.skip_form.specs.Fields.{pointer_in};
ghost use Rattle.skip_form.specs.Flaws.{head_in};
ghost use Rattle.skip_spec.specs.Change.{first_at};
ghost use Rattle.skip_spec.specs.Opens.{on_level};
ghost use Rattle.skip_spec.specs.Place.{height};
ghost use Rattle.skip_lists.specs.Heads.{HasSlots};
ghost use Rattle.skip_lists.specs.Levels.{ArePast};
ghost use Rattle.skip_change.specs.Changing.{HasSpot};

use base_bytes::u64_at;

/// Where a key stands among the live records, or would stand.
#[derive(Clone, Copy)]
pub struct Spot {
    /// On each level from 0 to 30 the offset of the last record before it, or 64, the dummy's.
    pub before: [u64; 31],
    /// The offset of the record of this key, or 0.
    pub same_at: u64,
    /// The offset of the first record after it, or 0.
    pub next: u64,
}

/// A pointer of the record at an offset.
fn pointer_at(bytes: &[u8], at: u64, slot: u8) -> u64
    requires there { HasSlots bytes.now at }
    requires slot { slot ≤ (head_in bytes.now at).level }
    ensures { result ≡ pointer_in bytes.now at slot }
{
    u64_at(bytes, at as usize + 8 + 8 * slot as usize)
}

/// The level of the record at an offset.
pub(crate) fn level_at(bytes: &[u8], at: u64) -> u8
    requires there { HasSlots bytes.now at }
    ensures { result ≡ (head_in bytes.now at).level }
{
    bytes[at as usize + 1]
}

/// The first record after a place on a level, or 0.
fn pointer_past(bytes: &[u8], spot: &Spot, level: u8) -> u64
    requires low { 1 ≤ level }
    requires high { level ≤ 30 }
    requires spot { (key : List ℕ) × HasSpot bytes.now key spot.now }
    ensures { (key : List ℕ) (s : HasSpot bytes.now key spot.now)
        → result ≡ first_at (on_level level s.found.place.rest) }
{
    let before = spot.before[level as usize];
    if spot.same_at == 0 {
        return pointer_at(bytes, before, level + 1);
    }
    if level_at(bytes, spot.same_at) <= level {
        return pointer_at(bytes, before, level + 1);
    }
    pointer_at(bytes, spot.same_at, level + 1)
}

/// By slots, the first record after a place on each level below a height.
pub(crate) fn pointers_past(bytes: &[u8], spot: &Spot, height: u8) -> [u64; 32]
    requires low { 1 ≤ height }
    requires height { height ≤ 31 }
    requires spot { (key : List ℕ) × HasSpot bytes.now key spot.now }
    ensures { (key : List ℕ) (s : HasSpot bytes.now key spot.now)
        → ArePast result s.found.place.rest height }
{
    let mut pointers = [0; 32];
    pointers[0] = spot.next;
    for level in 1..height {
        pointers[level as usize + 1] = pointer_past(bytes, spot, level);
    }
    pointers
}

/// The greater of a level and that of the record of the key.
pub(crate) fn height_at(bytes: &[u8], spot: &Spot, level: u8) -> u8
    requires level { level ≤ 31 }
    requires spot { (key : List ℕ) × HasSpot bytes.now key spot.now }
    ensures exact { (key : List ℕ) (s : HasSpot bytes.now key spot.now)
        → result ≡ max level (height s.found.place.dropped) }
    ensures low { level ≤ result }
    ensures high { result ≤ 31 }
{
    if spot.same_at == 0 {
        return level;
    }
    level.max(level_at(bytes, spot.same_at))
}

/// Below a level the pointers lead to one record, and from it on where they led.
pub(crate) fn toward(pointers: &[u64; 32], level: u8, to: u64) -> [u64; 32]
    requires low { 1 ≤ level }
    requires level { level ≤ 31 }
    ensures low { (i : ℕ) → 1 ≤ i → i < level → slice_index result (i + 1) ≡ to }
    ensures high { (i : ℕ) → level ≤ i → 1 ≤ i
        → slice_index result (i + 1) ≡ slice_index pointers.now (i + 1) }
{
    let mut leads = *pointers;
    for i in 1..level {
        leads[i as usize + 1] = to;
    }
    leads
}
