//! A twoskip file in memory, as one vector that is patched in place. What is handed out are slices of it.
//!
//! - `image.rt`: the file, how it is read from a disk, and how it grows, is patched and is cut.
//! - `records.rt`: the header, and what stands in a record.
//! - `pointers.rt`: a pointer is set, in the image and on the disk.
//! - `verify.rt`: the whole file is verified: `front.rt` its header and rows, `way.rt` the way from one live
//!   record to the next, `live.rt` what such a record must have, by the checks of `words.rt`.
//! - `checks.rt`, `marks.rt`, `fields.rt`: one check, the starts that were marked, the fields of a head.
#![tactic(auto)]

mod checks;
mod fields;
mod front;
mod image;
mod live;
mod marks;
mod pointers;
mod records;
#[cfg(test)]
mod tests;
mod verify;
mod way;
mod words;

pub use image::Image;
pub use verify::Summary;
