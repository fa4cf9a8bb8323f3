// A source of bytes, read in pieces.
ghost use Rattle.std.specs.Prelude.{◌≡◌, ◌≤◌, ℕ, List, Some, IfOk, OnErr, length};
ghost use Rattle.base_devices.specs.Causes.{HasCause};
ghost use Rattle.base_source.specs.SourceCalls.{SourceState, Takes, left_behind};

use base_devices::Failed;

/// Bytes that are read once, from their front, as standard input is.
///
/// A source in memory shows contracts the bytes that it has left, and a real one does not.
pub trait Source {
    /// The bytes that are left, and how often a call failed.
    ghost state: { Self → SourceState };

    /// Takes the next bytes, as many as it gives: at least one where `into` is not empty and bytes are left, and 0 at
    /// the end. A call that fails takes none.
    fn read(&mut self, into: &mut [u8]) -> Result<usize, Failed>
        ensures bytes { IfOk result (λ count. (left : List ℕ) →
            (state self.old).left ≡ Some left → Takes left into.new count) }
        ensures taken { IfOk result (λ count.
            (state self.new).left ≡ left_behind count (state self.old).left) }
        ensures failed { OnErr result ((state self.new).left ≡ (state self.old).left) }
        ensures bound { IfOk result (λ count. count ≤ length into.new) }
        ensures cause { HasCause (state self.old).faults (state self.new).faults result };
}
