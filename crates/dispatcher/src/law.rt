//! What holds of keyed sharing, whatever the calls.
ghost use Rattle.dispatcher.specs.Keys.{LawKeys};

/// One key, one consumer: while no consumer of a Key_Shared subscription comes or goes, nothing is redelivered and there is no
/// seek, all messages of one key are given to one consumer, and messages are given in rising order of index, so each at most
/// once. It holds over every list of calls of a dispatcher with the rule by keys, each beside a cursor that has all that it had
/// before (Pulsar manual, Key_Shared). Nothing is promised across a change of consumers.
pub fn law_keys()
    ensures { LawKeys }
{}
