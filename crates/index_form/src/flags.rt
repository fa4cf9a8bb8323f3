// The flags of a record that the server itself knows.

/// The message was answered.
pub const ANSWERED: u32 = 1;

/// The message is flagged.
pub const FLAGGED: u32 = 2;

/// The message is marked as deleted.
pub const DELETED: u32 = 4;

/// The message's file was removed.
pub const UNLINKED: u32 = 1_073_741_824;

/// The message was expunged: it is no longer shown, though its record stands.
pub const EXPUNGED: u32 = 2_147_483_648;
