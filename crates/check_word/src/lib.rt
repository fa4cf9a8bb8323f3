//! Check words: CRC-32 as zip, gzip and PNG have it, of bytes at once or piece by piece.
#![tactic(auto)]

ghost use Rattle.std.specs.Prelude.{◌≡◌};
ghost use Rattle.check_word.specs.CheckWord.{check_word};

mod pieces;
mod register;
mod tables;

pub use pieces::Check;
use register::after_bytes;

/// The check word of the bytes. That of no bytes is 0.
pub fn check(bytes: &[u8]) -> u32
    ensures { result ≡ check_word bytes.now }
{
    after_bytes(u32::MAX, bytes) ^ u32::MAX
}

#[cfg(test)]
mod tests;
