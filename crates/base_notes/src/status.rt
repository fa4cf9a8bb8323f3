// The statuses with which a run ends.

/// The stated result.
pub const STATUS_DONE: u8 = 0;

/// The key is absent, or the file is not consistent.
pub const STATUS_NEGATIVE: u8 = 1;

/// The words give no job.
pub const STATUS_USAGE: u8 = 64;

/// A line of the script is wrong, or a key is empty.
pub const STATUS_BAD_LINE: u8 = 65;

/// The database is absent and is not to be made.
pub const STATUS_ABSENT: u8 = 66;

/// A number passes its limit.
pub const STATUS_LIMIT: u8 = 70;

/// The new file of a conversion is there.
pub const STATUS_EXISTS: u8 = 73;

/// A device failed.
pub const STATUS_DEVICE_FAULT: u8 = 74;

/// Memory ran out.
pub const STATUS_NO_MEMORY: u8 = 75;

/// The database opens to no map.
pub const STATUS_DAMAGED: u8 = 76;
