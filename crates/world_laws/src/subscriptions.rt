//! What subscriptions remember of the messages that are still to be acknowledged, and that offers bring them out.
ghost use Rattle.geo_base.specs.Laws.{BetweenEvents, LawOffers};
ghost use Rattle.geo_base.specs.Safe.{NothingForgotten};
ghost use Rattle.geo_base.specs.Setup.{Setup};

/// No message of a backlog is forgotten: of each subscription, each index outside its cursor is out with a consumer that is
/// attached, due again, or still to be read, and none inside is out or due again. So it is at the end of every run, also of
/// one that a limit ends, and between any two events of it, also inside settling, for every setup and every list of steps.
/// (In the midst of an event it need not be: memory changes after the durable writes.)
pub fn law_kept()
    ensures kept { (s : Setup) → BetweenEvents s NothingForgotten }
{}

/// Offers bring out all that is due. Take a subscription that has a consumer, in a topic of m entries, and let the consumer
/// that is served (of Shared all together, of Key_Shared each) have as many permits as messages are due. After 2 m + 10 offers
/// of it, with nothing else happening at that broker but whatever elsewhere, the subscription is still there, and each message
/// that its cursor lacks is out with a consumer that is attached. So it is from the end of every run on, also of one that a
/// limit ends, and from between any two events of it, for every setup and every list of steps.
pub fn law_offers()
    ensures between { LawOffers }
{}
