//! What is sent of a programme: its signalling messages, the payload of each packet of its cast, the packets,
//! and the stream. The definitions stand in `specs`.
#![tactic(auto)]

ghost use Rattle.mmt_sent.specs.Messages.{MessagesOfPlanOne};

/// The messages of the worked plan, byte for byte.
pub fn plan_one_computes()
    ensures { MessagesOfPlanOne }
{}
