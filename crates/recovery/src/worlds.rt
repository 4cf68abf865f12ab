//! The world: any number of replicas that tell one another their operations.
ghost use Rattle.world_law.specs.Laws.{Always, AnsweredForever, EachFrontIsOne, HoldsOneOperation, KeepsWhatWasTold};
ghost use Rattle.world_law.specs.Laws.{NeverMadeAgain, ShowsTheSame, TellsOneOperation};
ghost use Rattle.world_law.specs.Together.{TokensNameOneEdit};

/// No id names two things, anywhere, ever: for any number of replicas with numbers of their own,
/// and any list of events, losses, repeats, delays and crashes. A replica here is the machine that
/// a hub's calls are a run of, in the state that a crash and an opening leave.
pub fn world()
    // No two replicas hold different operations under one id.
    ensures one_operation { Always HoldsOneOperation }
    // Nor does a message tell another one.
    ensures told_once { Always TellsOneOperation }
    // An id that was told is never made again.
    ensures never_again { NeverMadeAgain }
    // Equal clocks show equal text and spans in every document.
    ensures same_shown { Always ShowsTheSame }
    // What was told is among its maker's settled operations, across all its crashes.
    ensures settled { Always KeepsWhatWasTold }
    // Once an edit is settled, its token has the same ticket, across all its replica's crashes.
    ensures answered { AnsweredForever }
    // A replica's operations with one token are those of one edit, one after another.
    ensures tokens { Always TokensNameOneEdit }
    // So it is at each moment of a history, and not behind it alone.
    ensures moments { EachFrontIsOne }
{}
