// One bit for each eight bytes of a file, which marks where a record begins.
ghost use Rattle.std.specs.Prelude.{◌≡◌, ◌↔◌, ◌<◌, ◌*◌, ◌%◌, ◌∷◌, [], ◌++◌, List, ℕ, IsTrue, length};
ghost use Rattle.skip_spec.specs.Rows.{IsAmong};
ghost use Rattle.skip_image.specs.Verifying.{Marks};

/// Clears all marks.
pub(crate) fn clear(marks: &mut [u8])
    ensures none { Marks marks.new [] }
    ensures size { length marks.new ≡ length marks.old }
{
    marks.fill(0);
}

/// Marks the record that begins at an offset.
pub(crate) fn mark(marks: &mut [u8], at: usize)
    requires aligned { at % 8 ≡ 0 }
    requires within { at < 64 * length marks.old }
    ensures marked { (starts : List ℕ) → Marks marks.old starts
        → Marks marks.new (starts ++ at ∷ []) }
    ensures size { length marks.new ≡ length marks.old }
{
    let place = at / 8;
    marks[place / 8] |= 1 << (place % 8);
}

/// Whether a record that was marked begins at an offset.
pub(crate) fn is_marked(marks: &[u8], at: usize) -> bool
    requires aligned { at % 8 ≡ 0 }
    requires within { at < 64 * length marks.now }
    ensures { (starts : List ℕ) → Marks marks.now starts → IsTrue result ↔ IsAmong starts at }
{
    let place = at / 8;
    (marks[place / 8] >> (place % 8)) & 1 == 1
}
