// Whole scripts over devices in memory.
mod faults;
mod scripts;
mod steps;
