// Laws over the spelling.
ghost use Rattle.skip_form.specs.Laws.{HeadersAreUnique, RecordsAreUnique};

/// Equal spelling, equal value: two headers or two records with the same bytes are the same.
pub fn spelling_is_unique()
    ensures headers { HeadersAreUnique }
    ensures records { RecordsAreUnique }
{}
