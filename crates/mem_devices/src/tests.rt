// What no clause says of the devices in memory.
mod landings;
mod memory;
