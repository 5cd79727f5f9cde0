//! What the copies of a message say.
ghost use Rattle.nb_recover.specs.Copied.{KeepIds, CarryRound, NameEndpoint};

/// The copies keep the message's id. The one for later says its round, and the one for the error queue names the endpoint
/// as the queue in which the message failed.
pub fn law_copies()
    ensures ids { KeepIds }
    ensures round { CarryRound }
    ensures queue { NameEndpoint }
{}
