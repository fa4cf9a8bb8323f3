// Layouts beside their bytes from outside: each row has the eight-byte words that are not zero, with check words by
// Python's zlib.
ghost use Rattle.std.specs.Prelude.{◌<◌, ◌^◌};
ghost use Rattle.std.specs.List.{AllByRecursion};
ghost use Rattle.skip_spec.specs.Layout.{fresh_size};
ghost use Rattle.skip_layout.specs.Items.{FitsRecord, items_in};

use crate::{LayoutItem, lay_out, layout_size};
use base_bytes::u64_at;
use std::alloc::Global;

/// A layout, by its words that are not zero.
#[derive(Clone, Copy)]
struct Row<'a> {
    generation: u64,
    flags: u32,
    items: &'a [LayoutItem<'a>],
    size: u64,
    words: &'a [(u64, u64)],
}

/// The word at an offset by the row: 0 where it names none.
fn word_at(row: &Row, at: u64) -> u64 {
    for (place, word) in row.words {
        if *place == at {
            return *word;
        }
    }
    0
}

/// Whether the words of the layout are those of the row.
fn has_words(row: &Row, file: &[u8]) -> bool {
    let mut same = file.len() as u64 == row.size;
    for n in 0..file.len() / 8 {
        same &= u64_at(file, 8 * n) == word_at(row, 8 * n as u64);
    }
    same
}

fn is_laid_out(alloc: Global, row: &Row) -> bool
    requires fits { AllByRecursion FitsRecord (items_in row.now.items.now) }
    requires size { fresh_size (items_in row.now.items.now) < 2 ^ 64 }
{
    match lay_out(alloc, row.generation, row.flags, row.items) {
        Ok(file) => layout_size(row.items) == row.size && has_words(row, &file),
        Err(_) => false,
    }
}

const EMPTY_WORDS: &[(u64, u64)] = &[
    (0, 0xA1028B0D74776F73),
    (8, 0x6B69702066696C65),
    (16, 0x0000000000000001),
    (24, 0x0000000000000001),
    (40, 0x0000000000000150),
    (48, 0x0000000000000150),
    (56, 0x00000000A2943880),
    (64, 0x3D1F000000000000),
    (328, 0x4339BC5300000000),
];

const ONE_PAIR_WORDS: &[(u64, u64)] = &[
    (0, 0xA1028B0D74776F73),
    (8, 0x6B69702066696C65),
    (16, 0x0000000000000001),
    (24, 0x0000000000000002),
    (32, 0x0000000000000001),
    (40, 0x0000000000000190),
    (48, 0x0000000000000190),
    (56, 0x000000006CB48C15),
    (64, 0x3D1F000000000000),
    (72, 0x0000000000000150),
    (328, 0xD90DF8BF00000000),
    (336, 0x2B01000100000001),
    (360, 0x540B03C5654A2280),
    (368, 0x6162000000000000),
    (376, 0x2400000000000000),
    (384, 0x0000000000000150),
    (392, 0x5DC51C1A00000000),
];

const TWO_LEVELS_WORDS: &[(u64, u64)] = &[
    (0, 0xA1028B0D74776F73),
    (8, 0x6B69702066696C65),
    (16, 0x0000000000000001),
    (24, 0x0000000000000002),
    (32, 0x0000000000000002),
    (40, 0x00000000000001C0),
    (48, 0x00000000000001C0),
    (56, 0x000000002633F64C),
    (64, 0x3D1F000000000000),
    (72, 0x0000000000000150),
    (88, 0x0000000000000150),
    (328, 0x297F6ABC00000000),
    (336, 0x2B02000100000001),
    (344, 0x0000000000000180),
    (368, 0x872E51157777D1AA),
    (376, 0x6131000000000000),
    (384, 0x2B01000100000001),
    (408, 0x540B03C5C810CCD4),
    (416, 0x6232000000000000),
    (424, 0x2400000000000000),
    (432, 0x0000000000000150),
    (440, 0x5DC51C1A00000000),
];

const MANY_LEVELS_WORDS: &[(u64, u64)] = &[
    (0, 0xA1028B0D74776F73),
    (8, 0x6B69702066696C65),
    (16, 0x0000000000000001),
    (24, 0x0000000000000007),
    (32, 0x0000000000000004),
    (40, 0x0000000000000318),
    (48, 0x0000000000000318),
    (56, 0x00000006EBC47D7F),
    (64, 0x3D1F000000000000),
    (72, 0x0000000000000150),
    (88, 0x0000000000000178),
    (96, 0x0000000000000178),
    (104, 0x00000000000001E8),
    (112, 0x00000000000001E8),
    (120, 0x00000000000001E8),
    (128, 0x00000000000001E8),
    (136, 0x00000000000001E8),
    (144, 0x00000000000001E8),
    (152, 0x00000000000001E8),
    (160, 0x00000000000001E8),
    (168, 0x00000000000001E8),
    (176, 0x00000000000001E8),
    (184, 0x00000000000001E8),
    (192, 0x00000000000001E8),
    (200, 0x00000000000001E8),
    (208, 0x00000000000001E8),
    (216, 0x00000000000001E8),
    (224, 0x00000000000001E8),
    (232, 0x00000000000001E8),
    (240, 0x00000000000001E8),
    (248, 0x00000000000001E8),
    (256, 0x00000000000001E8),
    (264, 0x00000000000001E8),
    (272, 0x00000000000001E8),
    (280, 0x00000000000001E8),
    (288, 0x00000000000001E8),
    (296, 0x00000000000001E8),
    (304, 0x00000000000001E8),
    (312, 0x00000000000001E8),
    (320, 0x00000000000001E8),
    (328, 0x62BAFBD800000000),
    (336, 0x2B01000100000000),
    (344, 0x0000000000000178),
    (360, 0x7714C27579637F4C),
    (368, 0x6100000000000000),
    (376, 0x2B03000200000006),
    (384, 0x00000000000001B0),
    (400, 0x00000000000001B0),
    (408, 0x00000000000001E8),
    (416, 0x86DB55EBF5025C15),
    (424, 0x6263313233343536),
    (432, 0x2B02000200000007),
    (440, 0x00000000000001E8),
    (456, 0x00000000000001E8),
    (464, 0x6BC215446C1948BD),
    (472, 0x6264313233343536),
    (480, 0x3700000000000000),
    (488, 0x2B1F000100000001),
    (752, 0x1BB7F98FE4C1E67D),
    (760, 0x6378000000000000),
    (768, 0x2400000000000000),
    (776, 0x0000000000000150),
    (784, 0x5DC51C1A00000000),
];

#[test]
fn layouts_have_these_bytes(rt: HostRuntime) {
    let empty = Row {
        generation: 1,
        flags: 0,
        items: &[],
        size: 336,
        words: EMPTY_WORDS,
    };
    let one_pair = Row {
        generation: 2,
        flags: 0,
        items: &[LayoutItem {
            level: 1,
            key: b"a",
            value: b"b",
        }],
        size: 400,
        words: ONE_PAIR_WORDS,
    };
    let two_levels = Row {
        generation: 2,
        flags: 0,
        items: &[
            LayoutItem {
                level: 2,
                key: b"a",
                value: b"1",
            },
            LayoutItem {
                level: 1,
                key: b"b",
                value: b"2",
            },
        ],
        size: 448,
        words: TWO_LEVELS_WORDS,
    };
    let many_levels = Row {
        generation: 7,
        flags: 6,
        items: &[
            LayoutItem {
                level: 1,
                key: b"a",
                value: b"",
            },
            LayoutItem {
                level: 3,
                key: b"bc",
                value: b"123456",
            },
            LayoutItem {
                level: 2,
                key: b"bd",
                value: b"1234567",
            },
            LayoutItem {
                level: 31,
                key: b"c",
                value: b"x",
            },
        ],
        size: 792,
        words: MANY_LEVELS_WORDS,
    };
    assert!(rt; is_laid_out(rt.alloc(), &empty));
    assert!(rt; is_laid_out(rt.alloc(), &one_pair));
    assert!(rt; is_laid_out(rt.alloc(), &two_levels));
    assert!(rt; is_laid_out(rt.alloc(), &many_levels));
}
