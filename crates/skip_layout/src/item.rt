// Pairs with their levels, and how many bytes their layout has.
ghost use Rattle.std.specs.Prelude.{◌≡◌, ◌-◌, ◌^◌, min};
ghost use Rattle.std.specs.List.{AllByRecursion};
ghost use Rattle.skip_form.specs.Sizes as sizes;
ghost use Rattle.skip_spec.specs.Layout.{fresh_size};
ghost use Rattle.skip_layout.specs.Items.{FitsRecord, item_of, items_in};
ghost use Rattle.skip_layout.specs.Sizes.{item_size};

use skip_form::record_size;

/// How many bytes header and dummy take.
pub(crate) const FRONT: usize = 336;

/// How many bytes the commit record takes.
pub(crate) const COMMIT: usize = 24;

/// A pair, and the level that its record has, 1 to 31.
#[derive(Clone, Copy, Debug)]
pub struct LayoutItem<'a> {
    pub level: u8,
    pub key: &'a [u8],
    pub value: &'a [u8],
}

// How many bytes the record of an item takes.
pub(crate) fn size_of(item: &LayoutItem) -> u64
    requires { FitsRecord (item_of item.now) }
    ensures { result ≡ item_size (item_of item.now) }
{
    record_size(item.level, item.key.len() as u64, item.value.len() as u64)
}

/// How many bytes the fresh layout of these items has. A number past 2^64 - 1 is answered as 2^64 - 1.
pub fn layout_size(items: &[LayoutItem]) -> u64
    requires { AllByRecursion FitsRecord (items_in items.now) }
    ensures { result ≡ min (fresh_size (items_in items.now)) (2 ^ 64 - 1) }
{
    if items.is_empty() {
        return FRONT as u64;
    }
    let mut size = (FRONT + COMMIT) as u64;
    for item in items {
        size = size.saturating_add(size_of(item));
    }
    size
}
