// What is read of a file besides the shared fields.
ghost use Rattle.std.specs.Prelude.{◌≡◌, ◌+◌, ◌≤◌, length, nat_lt, not};
ghost use Rattle.std.specs.Int.{w16, to_be_bytes};
ghost use Rattle.base_bytes.specs.Fields.{part};
ghost use Rattle.skip_form.specs.Fields.{u16_in};

/// The big-endian number of 16 bits at an offset.
pub(crate) fn u16_at(bytes: &[u8], at: usize) -> u16
    requires { at + 2 ≤ length bytes.now }
    ensures { result ≡ u16_in (part bytes.now at 2) }
{
    u16::from_be_bytes([bytes[at], bytes[at + 1]])
}

/// So many bytes stand at an offset.
pub(crate) fn has_room(bytes: &[u8], at: u64, count: u64) -> bool
    ensures { result ≡ not (nat_lt (length bytes.now) (at + count)) }
{
    let length = bytes.len() as u64;
    at <= length && count <= length - at
}
