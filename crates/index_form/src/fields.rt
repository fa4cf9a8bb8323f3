// Fields that are put into bytes.
ghost use Rattle.std.specs.Prelude.{◌≡◌, ◌+◌, ◌≤◌, ◌++◌, drop, length, take};

/// Puts a field behind those that are written. What stands behind it stays.
pub(crate) fn put(bytes: &mut [u8], at: usize, field: &[u8])
    requires { at + length field.now ≤ length bytes.old }
    ensures front { take (at + length field.now) bytes.new ≡ take at bytes.old ++ field.now }
    ensures behind { drop (at + length field.now) bytes.new ≡ drop (at + length field.now) bytes.old }
    ensures size { length bytes.new ≡ length bytes.old }
{
    bytes[at..at + field.len()].copy_from_slice(field);
}
