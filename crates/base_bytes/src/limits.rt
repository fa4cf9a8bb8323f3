// How large things may be. All in bytes, unless said.

/// The longest key that is stored.
pub const KEY_LIMIT: u64 = 65_534;

/// The longest value that is stored.
pub const VALUE_LIMIT: u64 = 16_777_216;

/// The longest twoskip file, and the longest old index.
pub const SKIP_LIMIT: u64 = 268_435_456;

/// The longest flat file.
pub const FLAT_LIMIT: u64 = 67_108_864;

/// The longest script.
pub const SCRIPT_LIMIT: u64 = 67_108_864;

/// The most names that a folder may give.
pub const FILES_LIMIT: u64 = 1_048_576;

/// The longest piece in which a new file is written.
pub const PIECE_SIZE: usize = 65_536;

// Contracts and tests speak of these by name, so here the numbers stand once more.
const _: () = prove!(KEY_LIMIT == 65_534 && VALUE_LIMIT == 16_777_216);

const _: () = prove!(SKIP_LIMIT == 268_435_456 && FLAT_LIMIT == 67_108_864);

const _: () = prove!(SCRIPT_LIMIT == 67_108_864 && FILES_LIMIT == 1_048_576);

const _: () = prove!(PIECE_SIZE == 65_536);
