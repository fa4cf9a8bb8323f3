// Laws over the definitions.
ghost use Rattle.skip_spec.specs.Laws.{OpensToOneMap, OpensToOrderedMap, HeadsStandBeforeEnd, RecordsStandBeforeEnd, FileListsAreComputed, LiveListsAreComputed, TidyFilesAreLive, LiveFilesAreTidy, LiveWhateverTheHeader, EachKeyHasAPlace, LiveKeysRise, PlacePuts, PlaceRemoves, PlaceTells, PlaceLeadsFrom, PlaceLeadsPast, ImagesOpenAlike, LandingsStayNear, CutsStayNear, AppendsArePermitted, LayoutsAreFresh, ConvertedFilesOpen, RepackedFilesOpen, RecoveryGivesBack, PutGivesChain, DeleteGivesChain, FirstFlawExists, FirstFlawIsUnique, FlawlessOpens};

/// A file opens to one map at most, and its keys rise strictly.
pub fn file_opens_to_one_map()
    ensures unique { OpensToOneMap }
    ensures ordered { OpensToOrderedMap }
{}

/// Verification of a file has one answer: the first flaw and its place, or none.
pub fn file_has_one_first_flaw()
    ensures unique { FirstFlawIsUnique }
    ensures exists { FirstFlawExists }
{}

/// A file, clean or dirty, has no flaw exactly where it opens to a map.
pub fn flawless_file_opens()
    ensures { FlawlessOpens }
{}

/// A file up to an end has the records of the file that end by then, and no others.
pub fn records_end_before_the_end()
    ensures heads { HeadsStandBeforeEnd }
    ensures records { RecordsStandBeforeEnd }
{}

/// The live records under an end, of a file and of the bytes of a transaction, are those that a
/// function of the bytes gives.
pub fn live_records_are_computed()
    ensures file { FileListsAreComputed }
    ensures live { LiveListsAreComputed }
{}

/// The records of a tidy file are live; and where records are live under a right header that names
/// their end and their number, the file is tidy. The header says nothing else of them.
pub fn tidy_files_are_live()
    ensures live { TidyFilesAreLive }
    ensures back { LiveFilesAreTidy }
    ensures header { LiveWhateverTheHeader }
{}

/// Each key, the empty one too, has a place among the live records, whose keys rise.
pub fn each_key_has_a_place()
    ensures place { EachKeyHasAPlace }
    ensures rise { LiveKeysRise }
{}

/// At the place of a key the list gives the map's answer, and a change there is one of the map.
pub fn places_follow_the_map()
    ensures value { PlaceTells }
    ensures from { PlaceLeadsFrom }
    ensures past { PlaceLeadsPast }
    ensures put { PlacePuts }
    ensures delete { PlaceRemoves }
{}

/// The fresh layout of an ordered map is a tidy file of this map, and of the levels that were
/// given.
pub fn fresh_layout_is_tidy()
    ensures { LayoutsAreFresh }
{}

/// Conversion writes a file that opens to the map, and repack one that opens to the old file's,
/// where the size fits.
pub fn layouts_keep_the_map()
    ensures converted { ConvertedFilesOpen }
    ensures repacked { RepackedFilesOpen }
{}

/// What recovery makes of an image of a tidy file is what the file said.
pub fn recovery_gives_back_a_tidy_file()
    ensures { RecoveryGivesBack }
{}

/// An image that an unfinished transaction or recovery leaves opens to the committed map.
pub fn near_images_open_alike()
    ensures { ImagesOpenAlike }
{}

/// An image of an unfinished transaction stays one where a permitted write lands on it, each
/// aligned line of 64 bytes whole or not at all, and where it is cut, but not below the committed
/// end.
pub fn permitted_writes_stay_near()
    ensures landings { LandingsStayNear }
    ensures cuts { CutsStayNear }
{}

/// A write from the committed end on is permitted.
pub fn appends_are_permitted()
    ensures { AppendsArePermitted }
{}

/// The list after a put is the records before the key's place, the new one and those after it;
/// after a delete it is the records before the deleted one and those after it. So it is for all
/// levels.
pub fn changes_give_the_list()
    ensures put { PutGivesChain }
    ensures delete { DeleteGivesChain }
{}
