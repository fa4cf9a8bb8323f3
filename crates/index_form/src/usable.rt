// The records of an index that a rebuild can rest on.
ghost use Rattle.std.specs.Prelude.{◌≡◌};
ghost use Rattle.index_form.specs.Reading.{records_of};
ghost use Rattle.index_form.specs.Usable.{usable_records};

use crate::record_view::RecordView;
use crate::view::IndexView;

/// The usable records of an index, in the order of the file, each with its place, counted from 0. A record is usable
/// where its check word is right and its uid is above 0 and above that of the last usable one. It takes no memory.
#[derive(Drop)]
pub struct Usable<'a> {
    index: IndexView<'a>,
    // The place of the next record.
    place: u32,
    // The uid of the last usable record, or 0 before the first.
    last: u32,
}

impl<'a> IndexView<'a> {
    ghost use Rattle.index_form.specs.Views.{file_of, usable_left};

    /// The usable records, in the order of the file and so by rising uid.
    pub fn usable(&self) -> Usable<'a>
        ensures { usable_left result ≡ usable_records (records_of (file_of self.now)) }
    {
        Usable {
            index: *self,
            place: 0,
            last: 0,
        }
    }
}

impl<'a> Iterator for Usable<'a> {
    ghost use Rattle.std.specs.Iterator.{YieldsFirstBy, item_count};
    ghost use Rattle.index_form.specs.Views.{placed_record, usable_left};

    type Item = (u32, RecordView<'a>);

    ghost next_gives = { YieldsFirstBy placed_record usable_left };

    ghost remaining = { item_count usable_left };

    fn next(&mut self) -> Option<(u32, RecordView<'a>)> {
        while self.place < self.index.count() {
            let place = self.place;
            let item = self.index.at(place);
            self.place += 1;
            if item.check_right() && item.uid() > self.last {
                self.last = item.uid();
                return Some((place, item));
            }
        }
        None
    }
}
