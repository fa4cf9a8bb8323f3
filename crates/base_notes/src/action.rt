// What the words of a command line can ask for.
use base_bytes::Bytes;

/// How a database is kept in its file.
#[derive(Clone, Copy, Debug, PartialEq, Eq)]
pub enum Backend {
    /// A skip list that is changed in place.
    Twoskip,
    /// A text that is rewritten whole.
    Flat,
}

/// What `cyr_dbtool` is to do with a database.
#[derive(Drop)]
pub enum Action {
    /// Print each pair whose key has the prefix.
    Show { prefix: Bytes },
    /// Print the value of a key.
    Get { key: Bytes },
    /// Put a pair, in a transaction of its own.
    Set { key: Bytes, value: Bytes },
    /// Take a key out, in a transaction of its own.
    Delete { key: Bytes },
    /// Say whether the file opens, or its first flaw.
    Consistent,
    /// Rewrite the file without what is dead in it.
    Repack,
    /// Do the lines of a script.
    Batch,
    /// Do so many generated transactions.
    Exercise { rounds: u32 },
}

/// The flags of `reconstruct`, by the words `-n`, `-q`, `-o` and `-G`.
#[derive(Clone, Copy, Debug, PartialEq, Eq)]
pub struct Options {
    /// Change nothing.
    pub dry: bool,
    /// Print the last line of the report only.
    pub quiet: bool,
    /// Print no line on an odd file name.
    pub skip_odd: bool,
    /// Read the messages anew, as this tool always does.
    pub force: bool,
}
