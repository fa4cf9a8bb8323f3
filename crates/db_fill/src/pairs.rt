// The pairs of a database are looked through, by rising key.
ghost use Rattle.std.specs.Prelude.{◌≡◌, false};
ghost use Rattle.db_fill.specs.Filling.{pairs_refusal};

use base_devices::Disk;
use db_core::{Db, DbFault, pair_fault};

/// Why the pairs of this database may not stand in another one: the first, by rising key, whose key or value is too
/// long, and there the key before the value. None where each may. It takes no memory.
pub fn pairs_fault<E: Disk, B: Db<E>>(from: &B) -> Option<DbFault>
    requires { (B.state from.now).is_broken ≡ false }
    ensures { result ≡ pairs_refusal (B.state from.now).seen }
{
    let mut cursor = from.walk_from(b"");
    for _ in 0..from.count() {
        let Some(step) = from.step(cursor) else {
            break;
        };
        if let Some(fault) = pair_fault(step.pair.key, step.pair.value) {
            return Some(fault);
        }
        cursor = step.next;
    }
    None
}
