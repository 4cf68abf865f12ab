//! An edit that has a token acts once, and is answered as it was.
ghost use Rattle.world_law.specs.Laws.{ActsOnce, Always, AnsweredForever};
ghost use Rattle.world_law.specs.Together.{TokensNameOneEdit};
ghost use Rattle.world_law.specs.Tokens.{IsAnsweredAsItWas, IsAnsweredFromThenOn};

/// An edit that was made before, under its token, is answered its ticket and adds nothing: behind a
/// failure too, and whatever it asks for. That ticket is the one that it was answered first.
pub fn known_edits_are_answered_as_they_were()
    ensures again { IsAnsweredAsItWas }
    ensures first { IsAnsweredFromThenOn }
{}

/// Once an edit is settled, its token has the same ticket at every later moment, across all crashes
/// of its replica.
pub fn settled_tokens_are_answered_forever()
    ensures { AnsweredForever }
{}

/// An edit with a token acts once: from its first answer on, over all that any replica does and all
/// crashes, it is answered the same whenever it is sent again, and adds nothing.
pub fn answered_edits_act_once()
    ensures { ActsOnce }
{}

/// In every history, over all crashes, a replica's operations with one token are those of one edit,
/// one after another in its list: an edit that was made, lost its answer in a crash, and was sent
/// again, is there once, whole or not at all.
pub fn tokens_name_one_edit()
    ensures { Always TokensNameOneEdit }
{}
