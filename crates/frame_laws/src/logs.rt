//! What joins the log of a node, and where its packets go.
ghost use Rattle.frame_laws.specs.Logs.{LawLogGrows, LawLogSends};

/// An event that a node does at its state, with what the bytes that it took stand for, and that sends the canonical texts of what
/// the machine sends, joins the history of the node: what it sent stands for what the machine sent, whatever came before. So a
/// node that does such events alone has a history that replays.
pub fn law_log_grows()
    ensures { LawLogGrows }
{}

/// Whatever an event of a node sends at the state that its history replays to goes to peers of the node.
pub fn law_log_sends()
    ensures { LawLogSends }
{}
