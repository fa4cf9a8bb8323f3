//! What a twoskip file means, for all levels, clean or with DIRTY. There are definitions and laws here,
//! and no program: each law is the contract of a function with an empty body. README.md lists the
//! definitions in reading order.
//!
//! - `laws`: laws of files, live records, places, images, changes and the fresh layout.
//! - `examples`: files by their bytes, with check words from outside.
#![tactic(auto)]

mod examples;
mod laws;

pub use examples::{
    a_store_is_a_change, circular_file_has_its_flaw, deleted_file_opens, first_store_takes_slot_1,
    fresh_layouts_have_these_bytes, images_of_a_store_open, one_pair_file_opens,
    search_bounds_are_these, two_levels_file_opens,
};
pub use laws::{
    appends_are_permitted, changes_give_the_list, each_key_has_a_place, file_has_one_first_flaw,
    file_opens_to_one_map, flawless_file_opens, fresh_layout_is_tidy, layouts_keep_the_map,
    live_records_are_computed, near_images_open_alike, permitted_writes_stay_near,
    places_follow_the_map, records_end_before_the_end, recovery_gives_back_a_tidy_file,
    tidy_files_are_live,
};
