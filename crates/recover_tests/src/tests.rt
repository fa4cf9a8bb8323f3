// Files that a stop left are repaired, at once and after stops in the repair.
mod files;
mod repairs;
