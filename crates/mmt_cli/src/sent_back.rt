//! What `mux` sends `take` can receive, and gives back.

ghost use Rattle.mmt_cli.specs.SentBack.{SentProgrammesAreReached, SentProgrammesAreSendable, TakeGivesBackWhatMuxSent};

use mmt_headline::whole_casts::take_gives_all_back;

/// Where `mux` sends the stream of a plan, its programme is one that can be sent, with the files of the
/// shelf: it is right, it has a cast, the files hold its units, and the cast is admitted.
pub fn what_is_sent_can_be_received()
    ensures { SentProgrammesAreSendable }
{}

/// Each near delivery of what `mux` sends meets the premises of `gives_back`, for a receiver that hears
/// its flow.
pub fn what_is_sent_is_reached()
    ensures { SentProgrammesAreReached }
{
    what_is_sent_can_be_received();
}

/// `take` over exactly the bytes that a run of `mux` wrote, which was done, gives back all units of the
/// programme of its plan.
pub fn take_gives_back_what_mux_sent()
    ensures { TakeGivesBackWhatMuxSent }
{
    what_is_sent_can_be_received();
    take_gives_all_back();
}
