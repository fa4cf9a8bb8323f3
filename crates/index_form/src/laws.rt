// Laws over the spelling.
ghost use Rattle.index_form.specs.Laws.{WrittenIsRead, ReadIsWritten};

/// An index that is written is read as the same header and records, with each check word right,
/// whatever follows it. A file that is read with each check word right is the spelling of what was
/// read, up to the end of the last record.
pub fn spelling_is_exact()
    ensures written { WrittenIsRead }
    ensures read { ReadIsWritten }
{}
