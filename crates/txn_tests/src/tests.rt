// Sessions over disks in memory: files by their bytes, limits, searches, and generated histories with stops.
mod climbs;
mod files;
mod histories;
mod limits;
mod listing;
mod open_file;
mod rows;
mod searches;
mod stops;
mod writes;
