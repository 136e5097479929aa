//! What `pace` sends `take` can receive, and gives back.

ghost use Rattle.mmt_cli.specs.PacedBack.{PacedProgrammesAreReached, PacedProgrammesAreSendable};

/// Where the paced cast of a plan is admitted, its programme can be sent over it, with the files of the shelf: it is
/// right, it has a cast, and the files hold its units.
pub fn what_is_paced_can_be_received()
    ensures { PacedProgrammesAreSendable }
{}

/// So each near delivery of what `pace` sends meets the premises of `gives_back`, for a receiver that hears its flow.
pub fn what_is_paced_is_reached()
    ensures { PacedProgrammesAreReached }
{
    what_is_paced_can_be_received();
}
