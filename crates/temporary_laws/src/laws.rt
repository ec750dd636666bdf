//! The law. The function does nothing; its contract is the law.

ghost use Rattle.temporary_laws.specs.Temporaries.{TemporariesAreUntold};

/// Until a temporary is renamed onto the document's name no entry on it tells another
/// application anything: it is the file of the connection that made it alone.
pub fn temporaries_are_untold()
    ensures { TemporariesAreUntold }
{}
