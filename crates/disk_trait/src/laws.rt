//! A law of what a crash may leave. Its function does nothing: the contract is all there is.
ghost use Rattle.disk_trait.specs.Laws.{SettledAlone, TornByEachWrite};

/// What a crash may leave by the rule, which looks at all ranges at once, is what writes and syncs
/// that tear and settle one after another make of it. So a disk in memory, whose survivors are
/// those of the rule, leaves no file out that the clauses of [`Disk`](crate::Disk) allow.
pub fn torn_writes_follow_the_rule()
    ensures sync { SettledAlone }
    ensures write { TornByEachWrite }
{}
