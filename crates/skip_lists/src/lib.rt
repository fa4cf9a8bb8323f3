//! How the lists of a twoskip file change, pointer by pointer, in stores, deletes and repair; and the
//! tie of such bytes to a disk. There are definitions and laws here, and no program.
//!
//! - `specs/Heads.antt`: one pointer of one head is set, and when that may be.
//! - `specs/Levels.antt`: the upper levels while a record is put in its place or taken out.
//! - `specs/Repair.antt`: heads that are mended and levels that are linked again.
//! - `specs/Tie.antt`: bytes and the disk that they are written to.
#![tactic(auto)]

mod laws;

pub use laws::{
    a_pointer_is_set_in_two_patches, appended_record_is_listed, changes_and_repair_may_set,
    levels_are_relinked, linked_image_recovers, lists_are_walked, other_pointers_stay,
    setting_a_pointer_is_permitted, setting_changes_links,
};
