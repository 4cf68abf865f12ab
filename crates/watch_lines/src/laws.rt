//! What follows from the definitions: functions that do nothing, whose contracts are the laws.
ghost use Rattle.std.specs.Prelude.{◌≡◌, ℕ, List, None};
ghost use Rattle.watch_lines.specs.Telling.{Rises, told_behind};
ghost use Rattle.watch_lines.specs.TellingSeveral.{given_alone, none_told, revs_alone, told_after};
ghost use Rattle.watch_lines.specs.declared.several_source.NextOf.{NextOf};
ghost use Rattle.watch_lines.specs.declared.source.Next.{Next};

/// The numbers that a session is told rise, whatever its source gives. Costs nothing.
pub fn told_numbers_rise()
    ensures { (given : List Next) → Rises None (told_behind None given) }
{}

/// Of each of several documents a session is told what one that watches it alone is told, if the
/// source gives that one only what it gave of this document: so its numbers rise, and nothing is
/// told of a document of which the source gave nothing. Costs nothing.
pub fn each_document_is_told_alone()
    ensures { (given : List NextOf) (doc : ℕ) → revs_alone doc (told_after none_told given)
        ≡ told_behind None (given_alone doc given) }
{}
