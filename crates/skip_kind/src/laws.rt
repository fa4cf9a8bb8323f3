// Laws of the kind. Each is the contract of a function that does nothing.
ghost use Rattle.db_core.specs.Sessions.{DbLaws};
ghost use Rattle.skip_kind.specs.Kind.{skip_kind};

/// A twoskip file opens to one map or has one first flaw, and an empty database opens to the map without a pair.
pub fn skip_kind_keeps_its_laws()
    ensures { DbLaws skip_kind }
{}
