// Whole runs over devices in memory.
mod cases;
mod changing;
mod crashes;
mod faults;
mod limits;
mod making;
mod reading;
mod refusing;
