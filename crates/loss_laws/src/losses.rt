//! What is missing is an end, what comes again was not passed over, and what is not named as lost is not.
ghost use Rattle.loss_laws.specs.LossLaws.{LawComesAgain, LawLost, LawMissing};

/// What a cluster has for another one is as much of it as stands there, and a rest; of this rest the messages are missing there, in order.
/// So they are at the end of every run, also of one that a limit ends, and at every moment of it, also inside settling and after each
/// single durable write, for every setup and every list of steps.
pub fn law_missing()
    ensures always { LawMissing }
{}

/// A message that would be given again at a cluster stands there, lacked there by the subscription and acknowledged at the one that goes;
/// and where it is meant for the one that goes, it stands after each index that an update of that one named which was acted on there,
/// until the subscription is deleted or sought there. It holds for every setup and every world, whether a run comes to it or not.
pub fn law_comes_again()
    ensures { LawComesAgain }
{}

/// If a cluster never comes back: what is named as lost is meant for another one and stands at none; what is named as alone is meant for
/// no other one; what is named as differing stands at another one and not at each that it is meant for; and each further message that the
/// cluster stored first stands at each other one that it is meant for. It holds for every setup and every world.
pub fn law_lost()
    ensures { LawLost }
{}
