// Two folders that the definitions say something of.
ghost use Rattle.mail_rebuild.specs.Examples.{DamagedIsReported, FiveFilesAreReported, HeaderIsLeft, NewHeaderIsLeft, TwoRecordsAreLeft};

/// Five files, of which two are messages, beside an index of three records, of which one matches: what is printed, and
/// what is left of the records and in the header.
pub fn five_files_are_rebuilt()
    ensures report { FiveFilesAreReported }
    ensures records { TwoRecordsAreLeft }
    ensures header { HeaderIsLeft }
{}

/// Two messages, of which one has the greatest uid, beside an index whose check word is wrong.
pub fn damaged_index_is_rebuilt()
    ensures report { DamagedIsReported }
    ensures header { NewHeaderIsLeft }
{}
