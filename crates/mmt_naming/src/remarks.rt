//! What is noted of an entry and of a buffer message.

ghost use Rattle.std.specs.Prelude.{◌≡◌, ◌≤◌, IsTrue, IsErrOf};
ghost use Rattle.std.specs.List.{flat_map};
ghost use Rattle.std.specs.Option.{option_to_list};
ghost use Rattle.mmt_io.specs.Port.{OnlySends, Rose};
ghost use Rattle.mmt_times.specs.EntryView.{view_entry};
ghost use Rattle.mmt_times.specs.LearnedView.{view_learned};
ghost use Rattle.mmt_output.specs.Notes.{note_text};
ghost use Rattle.mmt_io.specs.Output.{Notes};
ghost use Rattle.mmt_naming.specs.Findings.{notes_of_name, are_same as same_by};

use crate::by::By;
use mmt_io::Port;
use mmt_model::Params;
use mmt_output::{Note, Untold, tell};
use mmt_times::{Entry, Learned};

/// What is noted of an entry of a message: that another is kept for its MPU, or that there is no room
/// for it.
pub(crate) fn remark(message: u32, entry: &Entry<'_>, learned: Learned) -> Option<Note>
    ensures { option_to_list result ≡ notes_of_name message (view_entry entry.now) (view_learned learned) }
{
    let packet_id = entry.packet_id();
    let mpu = entry.mpu();
    match learned {
        Learned::New => None,
        Learned::Known => None,
        Learned::Differs { kept: _ } => Some(Note::NamesDiffer {
            message,
            packet_id,
            mpu,
        }),
        Learned::Past => None,
        Learned::EntriesFull => Some(Note::NamesFull {
            message,
            packet_id,
            mpu,
        }),
    }
}

/// Whether two buffer messages have the same values.
pub(crate) fn are_same(some: Params, others: Params) -> bool
    ensures { result ≡ same_by some others }
{
    some.bound == others.bound && (some.window == others.window && some.delay == others.delay)
}

/// Notes what there is to note.
///
/// # Errors
///
/// The port failed, and noted a prefix of the line, or there is no memory for it.
pub(crate) fn tell_any<P: Port>(port: &mut P, by: &By, note: Option<Note>) -> Result<(), Untold>
    ensures sends { OnlySends P.tells P.left P.read_faults P.write_faults port.old port.new }
    ensures cause { IsErrOf result Untold.WriteFault → Rose (P.write_faults port.old) (P.write_faults port.new) }
    ensures put { Notes P.tells P.history port.old port.new
        (flat_map (note_text by.now.place) (option_to_list note)) result }
{
    match note {
        Some(note) => tell(by.alloc, port, by.place, &note),
        None => Ok(()),
    }
}
