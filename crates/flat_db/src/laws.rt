// Laws over the definitions. Each is the contract of a function that does nothing.
ghost use Rattle.db_core.specs.Sessions.{DbLaws};
ghost use Rattle.flat_db.specs.Laws.{TextIsOneMap, TextIsOrdered, FirstFlawIsOne, FirstFlawExists, FlawlessOpens, CanonicalReadsBack, PutReadsBack};
ghost use Rattle.flat_db.specs.Sessions.{flat_kind};

/// A text has one first flaw, or none; and none exactly where it is the text of a map, and then of one alone.
pub fn flawless_text_opens_once()
    ensures unique { FirstFlawIsOne }
    ensures exists { FirstFlawExists }
    ensures opens { FlawlessOpens }
    ensures once { TextIsOneMap }
    ensures ordered { TextIsOrdered }
{}

/// The canonical text of a map without an empty key is the text of this map; so is that of the map of a text
/// with a pair put.
pub fn canonical_text_reads_back()
    ensures back { CanonicalReadsBack }
    ensures put { PutReadsBack }
{}

/// A flat file opens to one map or has one first flaw, and an empty one opens to the map without a pair.
pub fn flat_kind_keeps_its_laws()
    ensures { DbLaws flat_kind }
{}
