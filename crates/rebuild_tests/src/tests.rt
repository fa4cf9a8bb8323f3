// Folders in memory whose indexes are rebuilt.
mod bytes;
mod failing;
mod indexes;
mod many;
mod model;
mod old_index;
mod readings;
mod rows;
mod runs;
