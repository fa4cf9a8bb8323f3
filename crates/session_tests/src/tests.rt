// Sessions over a disk in memory.
mod changes;
mod looking;
mod map_db;
mod sessions;
mod steps;
