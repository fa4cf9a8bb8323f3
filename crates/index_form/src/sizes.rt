// What depends on the version of an index.

/// The header's size in bytes, and so the offset of the first record.
pub const HEADER_SIZE: usize = 128;

/// The one version of an index that is read.
pub const MINOR_VERSION: u32 = 12;

/// The size of a record in bytes.
pub const RECORD_SIZE: usize = 96;

/// Where in a record the fields begin that versions may differ in, in bytes.
pub(crate) const LAST_FIELDS: usize = 88;
