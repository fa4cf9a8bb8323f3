// The whole file.
ghost use Rattle.std.specs.Prelude.{◌≡◌, ◌≤◌, ◌<◌, ◌+◌, ◌^◌, ◌++◌, [], IfOk, length, vec_len};
ghost use Rattle.std.specs.List.{AllByRecursion};
ghost use Rattle.skip_form.specs.declared.head.Kind.TheVariants.{Dummy};
ghost use Rattle.skip_form.specs.Spelling.{header_bytes, record_bytes};
ghost use Rattle.skip_spec.specs.Appending.{record_of};
ghost use Rattle.skip_spec.specs.Layout.{fresh_layout, fresh_size};
ghost use Rattle.skip_layout.specs.Items.{FitsRecord, items_in};

use crate::item::{FRONT, LayoutItem, layout_size};
use crate::log::write_log;
use crate::record::write_record;
use base_bytes::NoMemory;
use skip_form::{Header, Kind, write_header};
use std::alloc::Global;

// The level of the dummy.
const DUMMY_LEVEL: u8 = 31;

// Spells the header and the dummy.
fn write_front(header: &Header, pointers: &[u64], into: &mut [u8])
    requires version { header.now.version ≡ 1 }
    requires pointers { length pointers.now ≡ 32 }
    requires size { length into.old ≡ 336 }
    ensures { into.new ≡ header_bytes header.now
        ++ record_bytes (record_of Dummy 31 pointers.now [] []) }
{
    let (first, dummy) = into.split_at_mut(64);
    first.copy_from_slice(&write_header(header));
    write_record(Kind::Dummy, DUMMY_LEVEL, pointers, b"", b"", dummy);
}

/// The fresh layout of these items, in the order in which they stand, with this generation and these flags. It is
/// built in one pass, from the last item to the first, in memory that is taken once. It answers `NoMemory` where there
/// is not so much.
pub fn lay_out(
    alloc: Global,
    generation: u64,
    flags: u32,
    items: &[LayoutItem],
) -> Result<Vec<u8>, NoMemory>
    requires fits { AllByRecursion FitsRecord (items_in items.now) }
    requires size { fresh_size (items_in items.now) < 2 ^ 64 }
    ensures bytes { IfOk result
        (λ file. file.items ≡ fresh_layout generation flags (items_in items.now)) }
    ensures size { IfOk result (λ file. vec_len file ≡ fresh_size (items_in items.now)) }
{
    let size = layout_size(items);
    let Ok(mut file) = vec![in alloc; 0u8; size as usize] else {
        return Err(NoMemory);
    };
    let (front, log) = file.split_at_mut(FRONT);
    let pointers = write_log(log, items);
    let header = Header {
        version: 1,
        generation,
        num_records: items.len() as u64,
        repack_size: size,
        current_size: size,
        flags,
    };
    write_front(&header, &pointers, front);
    Ok(file)
}
