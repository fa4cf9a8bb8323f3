// Laws of lists that change.
ghost use Rattle.skip_lists.specs.Laws.{TwoPatchesSetAPointer, SettingIsOneWrite, OtherPointersStay, UpperPointersKeepTheLog, SettingChangesLinks, LinkChangesJoin, NextIsTheSuccessor, FoundIsASpot, SettingIsPermitted, ChangesMayLead, RepairMayClear, PutBegins, DeleteBegins, LevelIsRelinked, RelinkedIsLive, RelinkingIsAllowed, LinkedImagesRecover};

/// A pointer is set by writing it and then the head check; as a write that is one piece of the
/// head.
pub fn a_pointer_is_set_in_two_patches()
    ensures sets { TwoPatchesSetAPointer }
    ensures written { SettingIsOneWrite }
{}

/// Where one pointer is set, all other pointers of the dummy and of live records stay, and right
/// head checks stay right; where it is an upper one, the records and the list stay.
pub fn other_pointers_stay()
    ensures pointers { OtherPointersStay }
    ensures log { UpperPointersKeepTheLog }
{}

/// Setting pointers of the dummy and of live records changes their links alone.
pub fn setting_changes_links()
    ensures one { SettingChangesLinks }
    ensures join { LinkChangesJoin }
{}

/// The next live record is the first of those that are left; and what a search found is the spot of
/// a change.
pub fn lists_are_walked()
    ensures next { NextIsTheSuccessor }
    ensures spot { FoundIsASpot }
{}

/// Setting a pointer that may be set is a permitted write.
pub fn setting_a_pointer_is_permitted()
    ensures { SettingIsPermitted }
{}

/// A change may lead the slot that is free in its own bytes to what it appended, and set each upper
/// pointer; a repair may clear a slot that points past the committed end.
pub fn changes_and_repair_may_set()
    ensures lead { ChangesMayLead }
    ensures relink { RelinkingIsAllowed }
    ensures clear { RepairMayClear }
{}

/// With a record appended and the one before its place leading to it, the list on level zero is the
/// new one, of a put and of a delete.
pub fn appended_record_is_listed()
    ensures put { PutBegins }
    ensures delete { DeleteBegins }
{}

/// Level by level the upper levels are led past the place of a change, and then the new list is
/// live.
pub fn levels_are_relinked()
    ensures level { LevelIsRelinked }
    ensures live { RelinkedIsLive }
{}

/// An image with tidy heads and linked levels is a recovered file once it is cut and its header is
/// clean.
pub fn linked_image_recovers()
    ensures { LinkedImagesRecover }
{}
