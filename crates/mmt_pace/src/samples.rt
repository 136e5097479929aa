//! A worked plan, and plans that differ from it.

ghost use Rattle.std.specs.Prelude.{◌≤◌, ◌^◌, IfOk};
ghost use Rattle.mmt_model.specs.Right.{IsRight};
ghost use Rattle.mmt_model.specs.Survival.{sent_at};
ghost use Rattle.mmt_pace.specs.Asked.{CanBePaced};

use mmt_casting::cast_of;
use mmt_io::MemoryShelf;
use mmt_model::{Cast, Programme};
use mmt_plan::read_plan;
use std::alloc::Global;
use std::test::Fail;

// Two units, the first of which is cut.
pub const WORKED: &str =
    "{\"flow\":\"ff0e0000000000000000000000000101:51300\",\"source\":\"20010db8000000000000000000000001:51300\",\"context\":1,\"full_every\":3,\"limit\":1400,\"spacing\":10,\"package\":\"p1\",\"bound\":4000,\"window\":65536,\"delay\":1000,\"start\":65536000,\"signalling\":[{\"at\":0,\"kind\":\"parameters\"},{\"at\":100,\"kind\":\"table\",\"names\":[[0,0]]}],\"assets\":[{\"packet_id\":256,\"id\":\"v\",\"type\":\"hev1\",\"timed\":true,\"timescale\":60000,\"file\":\"v.bin\",\"mpus\":[{\"number\":7,\"time\":4297114779648,\"decoding_offset\":1001,\"aus\":[[1001,1001],[2002,0]],\"units\":[{\"at\":200,\"from\":0,\"length\":3000,\"movie_fragment\":1,\"sample\":1,\"offset\":0,\"priority\":0,\"dependency\":0},{\"at\":300,\"from\":3000,\"length\":500,\"movie_fragment\":1,\"sample\":2,\"offset\":0,\"priority\":0,\"dependency\":0}]}]}]}";

// A text with changes in it, one after the other: each is `FROM => TO`, and ` && ` stands between them.
pub fn changed(alloc: Global, text: &str, changes: &str) -> Result<String, Fail> {
    let mut text = String::from_str(alloc, text)?;
    for change in changes.split(" && ") {
        let (from, to) = change.split_once(" => ").ok_or("no change")?;
        let (before, after) = text.as_str().split_once(from).ok_or("not there")?;
        text = format!(in alloc; "{before}{to}{after}")?;
    }
    Ok(text)
}

// The programme that a text is.
fn programme_of(alloc: Global, text: &str) -> Result<Programme, Fail>
    ensures { IfOk result IsRight }
{
    let mut shelf = MemoryShelf::new(alloc, Vec::new(alloc));
    shelf.put("plan", text.as_bytes().to_vec(alloc)?)?;
    match read_plan(alloc, &mut shelf, "plan") {
        Ok(programme) => Ok(programme),
        Err(_) => Err("refused")?,
    }
}

// The cast of the plan that a text is.
pub fn cast_for(alloc: Global, text: &str) -> Result<Cast, Fail>
    ensures can { IfOk result CanBePaced }
    ensures start { IfOk result (λ cast. sent_at cast.packets 0 ≤ 2 ^ 48) }
{
    let programme = programme_of(alloc, text)?;
    match cast_of(alloc, &programme) {
        Ok(cast) => Ok(cast),
        Err(_) => Err("no cast")?,
    }
}
