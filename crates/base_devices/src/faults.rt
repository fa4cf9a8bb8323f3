// Counting the faults of a real device.
ghost use Rattle.std.specs.Prelude.{◌≡◌, IsErr, MatchResult};
ghost use Rattle.base_devices.specs.Causes.{HasCause};

use crate::disk::Failed;

/// The answer, whose error is counted as a fault. The count stands still at its last value.
pub fn counted<T: Drop, E: Drop>(faults: &mut u64, answer: Result<T, E>) -> Result<T, Failed>
    ensures cause { HasCause faults.old faults.new result }
    ensures value { MatchResult result (λ v. answer ≡ Ok v) (λ _. IsErr answer) }
{
    match answer {
        Ok(value) => Ok(value),
        Err(_) => {
            *faults = faults.saturating_add(1);
            Err(Failed)
        }
    }
}
