// The first eight bytes of a record.
ghost use Rattle.std.specs.Prelude.{◌≡◌, ◌+◌, ◌≤◌, length};
ghost use Rattle.skip_form.specs.Sizes as sizes;

use crate::fields::u16_at;
use base_bytes::u32_at;

/// What stands in the first eight bytes of a record, whatever it is.
#[derive(Clone, Copy)]
pub(crate) struct Opening {
    pub(crate) type_byte: u8,
    pub(crate) level: u8,
    pub(crate) key_len: u16,
    pub(crate) value_len: u32,
}

impl Opening {
    ghost use Rattle.skip_form.specs.Flaws.{opening_in, is_bare, is_kind_at, is_level, is_extended};

    /// The first eight bytes at an offset.
    pub(crate) fn at(bytes: &[u8], at: usize) -> Opening
        requires { at + 8 ≤ length bytes.now }
        ensures { result ≡ opening_in bytes.now at }
    {
        Opening {
            type_byte: bytes[at],
            level: bytes[at + 1],
            key_len: u16_at(bytes, at + 2),
            value_len: u32_at(bytes, at + 4),
        }
    }

    fn is_bare(self) -> bool
        ensures { result ≡ is_bare self }
    {
        self.key_len == 0 && self.value_len == 0
    }

    /// The type may stand at this offset. Only a put record has a key and a value.
    pub(crate) fn is_kind_at(self, at: u64) -> bool
        ensures { result ≡ is_kind_at at self }
    {
        if at == 64 {
            self.type_byte == b'=' && self.is_bare()
        } else {
            self.type_byte == b'+'
                || ((self.type_byte == b'-' || self.type_byte == b'$') && self.is_bare())
        }
    }

    /// The type may have this level.
    pub(crate) fn is_level(self) -> bool
        ensures { result ≡ is_level self }
    {
        match self.type_byte {
            b'=' => self.level == 31,
            b'+' => 1 <= self.level && self.level <= 31,
            _ => self.level == 0,
        }
    }

    /// A length is the mark of a longer one, which is not read.
    pub(crate) fn is_extended(self) -> bool
        ensures { result ≡ is_extended self }
    {
        self.key_len == u16::MAX || self.value_len == u32::MAX
    }

    /// How many bytes the whole record takes.
    pub(crate) fn size(self) -> u64
        ensures { result ≡ sizes.record_size self.level self.key_len self.value_len }
    {
        let text = self.key_len as u64 + self.value_len as u64;
        16 + 8 * (self.level as u64 + 1) + (text + 7) / 8 * 8
    }
}
