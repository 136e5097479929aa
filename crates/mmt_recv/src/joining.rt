//! A message in parts, joined.

ghost use Rattle.std.specs.Prelude.{◌≡◌, ◌≤◌, length, OnOk};
ghost use Rattle.mmt_model.specs.Units.{joined};

use mmt_base::OutOfMemory;
use mmt_fields::put_bytes;
use mmt_runs::MessageParts;

/// Joins the parts of a message, of which none was lent yet, into a buffer that keeps its room from
/// message to message.
///
/// # Errors
///
/// Out of memory: the buffer is empty.
pub(crate) fn join(message: &mut Vec<u8>, parts: MessageParts<'_>) -> Result<(), OutOfMemory>
    ensures joins { OnOk result (message.new.items ≡ joined parts.entry.left) }
    ensures size { length message.new.items ≤ length (joined parts.entry.left) }
{
    let mut parts = parts;
    message.clear();
    message.reserve(parts.length() as usize)?;
    'parts: while let Some(part) = parts.next() {
        put_bytes(message, part);
    }
    Ok(())
}
