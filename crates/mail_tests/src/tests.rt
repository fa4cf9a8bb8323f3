// Folders in memory, listed and scanned.
mod listing;
mod scanning;
