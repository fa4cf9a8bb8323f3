// Files that the definitions say something of.
ghost use Rattle.std.specs.Prelude.{◌≡◌, [], ◌∷◌, take, Some};
ghost use Rattle.skip_spec.specs.Examples.{circular_file, circular_flaw, deleted_file, empty_file, first_store_image, one_item, one_pair, one_pair_file, one_pair_layout, StoreChanges, stored_image, torn_image, two_items, two_levels_file, two_levels_layout, two_pairs};
ghost use Rattle.skip_spec.specs.FirstFlaw.{FirstFlaw};
ghost use Rattle.skip_spec.specs.Layout.{fresh_layout};
ghost use Rattle.skip_spec.specs.Near.{Near};
ghost use Rattle.skip_spec.specs.Opens.{Opens};
ghost use Rattle.skip_spec.specs.SearchBound.{search_bound};

/// A file of 400 bytes, with right check words, opens to the one pair that it holds.
pub fn one_pair_file_opens()
    ensures { Opens one_pair_file one_pair }
{}

/// A file of 440 bytes, with right check words, whose list is a circle: the first flaw is `Order`
/// at 336.
pub fn circular_file_has_its_flaw()
    ensures { FirstFlaw circular_file (Some circular_flaw) }
{}

/// A file of 448 bytes whose one pair was deleted opens to no pair.
pub fn deleted_file_opens()
    ensures { Opens deleted_file [] }
{}

/// A file of 472 bytes with records of levels 2 and 1 opens to their pairs.
pub fn two_levels_file_opens()
    ensures { Opens two_levels_file two_pairs }
{}

/// What a stop left of a store of `0` = `1` over the file of 400 bytes, whole or with a head whose
/// check word has landed alone, opens to the committed pair, and is near that file; also where it
/// is cut to 400 bytes.
pub fn images_of_a_store_open()
    ensures whole { Opens stored_image one_pair }
    ensures torn { Opens torn_image one_pair }
    ensures whole_near { Near one_pair_file stored_image }
    ensures torn_near { Near one_pair_file torn_image }
    ensures cut_near { Near one_pair_file (take 400 torn_image) }
{}

/// The first store into an empty database takes slot 1 of the dummy.
pub fn first_store_takes_slot_1()
    ensures { Near empty_file first_store_image }
{}

/// A real store is a change: the dummy leads to the record at 400, and all else of the file of 400
/// bytes stays.
pub fn a_store_is_a_change()
    ensures { StoreChanges }
{}

/// Three fresh layouts by their bytes: of levels 2 and 1, of one pair, of no pair.
pub fn fresh_layouts_have_these_bytes()
    ensures two_levels { fresh_layout 2 0 two_items ≡ two_levels_layout }
    ensures one_pair { fresh_layout 2 0 one_item ≡ one_pair_layout }
    ensures empty { fresh_layout 1 0 [] ≡ empty_file }
{}

/// How many pointers a search may read, counted by hand: without records; for the second of two, of
/// levels 2 and 1; past three of level 1; past four of levels 3, 1, 2 and 1.
pub fn search_bounds_are_these()
    ensures no_records { search_bound [] 0 ≡ 32 }
    ensures second_of_two { search_bound (2 ∷ 1 ∷ []) 1 ≡ 33 }
    ensures past_three { search_bound (1 ∷ 1 ∷ 1 ∷ []) 3 ≡ 38 }
    ensures past_four { search_bound (3 ∷ 1 ∷ 2 ∷ 1 ∷ []) 4 ≡ 36 }
{}
