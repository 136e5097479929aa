//! The worked plan, plans that differ from it, and what is said of them.

ghost use Rattle.std.specs.Prelude.{IfOk};
ghost use Rattle.mmt_model.specs.Right.{IsRight};

use crate::{PlanEnd, check_files, read_plan};
use mmt_io::MemoryShelf;
use mmt_model::Programme;
use std::alloc::Global;
use std::test::Fail;

pub const WORKED: &str =
    "{\"flow\":\"ff0e0000000000000000000000000101:51300\",\"source\":\"20010db8000000000000000000000001:51300\",\"context\":1,\"full_every\":3,\"limit\":1400,\"spacing\":10,\"package\":\"p1\",\"bound\":4000,\"window\":65536,\"delay\":1000,\"start\":65536000,\"signalling\":[{\"at\":0,\"kind\":\"parameters\"},{\"at\":100,\"kind\":\"table\",\"names\":[[0,0]]}],\"assets\":[{\"packet_id\":256,\"id\":\"v\",\"type\":\"hev1\",\"timed\":true,\"timescale\":60000,\"file\":\"v.bin\",\"mpus\":[{\"number\":7,\"time\":4297114779648,\"decoding_offset\":1001,\"aus\":[[1001,1001],[2002,0]],\"units\":[{\"at\":200,\"from\":0,\"length\":3000,\"movie_fragment\":1,\"sample\":1,\"offset\":0,\"priority\":0,\"dependency\":0},{\"at\":300,\"from\":3000,\"length\":500,\"movie_fragment\":1,\"sample\":2,\"offset\":0,\"priority\":0,\"dependency\":0}]}]}]}";

// The worked plan's asset but for its MPU.
pub const OF_ASSET: &str =
    "\"packet_id\":257,\"id\":\"w\",\"type\":\"aapp\",\"timed\":false,\"timescale\":1";

// An MPU of one item.
pub const ITEMS: &str =
    "{\"number\":7,\"time\":0,\"decoding_offset\":0,\"aus\":[],\"units\":[{\"at\":0,\"from\":9,\"length\":1,\"item\":1}]}";

// A shelf with a plan of the name `plan` and perhaps a file of the name `v.bin`, of which these reads fail.
pub fn shelf_of(
    alloc: Global,
    plan: &[u8],
    file: Option<&[u8]>,
    failing: &[u64],
) -> Result<MemoryShelf, Fail> {
    let mut shelf = MemoryShelf::new(alloc, failing.to_vec(alloc)?);
    shelf.put("plan", plan.to_vec(alloc)?)?;
    if let Some(bytes) = file {
        shelf.put("v.bin", bytes.to_vec(alloc)?)?;
    }
    Ok(shelf)
}

// What the bytes of a plan are.
pub fn read(alloc: Global, plan: &[u8]) -> Result<Result<Programme, PlanEnd>, Fail>
    ensures { IfOk result (λ r. IfOk r IsRight) }
{
    let mut shelf = shelf_of(alloc, plan, None, &[])?;
    Ok(read_plan(alloc, &mut shelf, "plan"))
}

// The programme that a text is.
pub fn programme_of(alloc: Global, text: &str) -> Result<Programme, Fail>
    ensures { IfOk result IsRight }
{
    match read(alloc, text.as_bytes())? {
        Ok(programme) => Ok(programme),
        Err(_) => Err("refused")?,
    }
}

// What is printed for the bytes of a plan.
pub fn told(alloc: Global, plan: &[u8]) -> Result<String, Fail> {
    let text = match read(alloc, plan)? {
        Ok(_) => format!(in alloc; "mmt: plan: right")?,
        Err(end) => format!(in alloc; "mmt: {end}")?,
    };
    Ok(text)
}

// A text with another in it in place of the first one of its kind.
pub fn replaced(alloc: Global, text: &str, from: &str, to: &str) -> Result<String, Fail> {
    let (before, after) = text.split_once(from).ok_or("not there")?;
    let text = format!(in alloc; "{before}{to}{after}")?;
    Ok(text)
}

// A text with changes in it, one after the other: each is `FROM => TO`, and ` && ` stands between them.
pub fn changed(alloc: Global, text: &str, changes: &str) -> Result<String, Fail> {
    let mut text = String::from_str(alloc, text)?;
    for change in changes.split(" && ") {
        let (from, to) = change.split_once(" => ").ok_or("no change")?;
        text = replaced(alloc, text.as_str(), from, to)?;
    }
    Ok(text)
}

// The first row of a table that is wrong, with what is told, or no text. A row is `CHANGES @ TOLD`: what
// is told of a text with these changes.
pub fn wrong_row(alloc: Global, text: &str, rows: &str) -> Result<String, Fail> {
    for row in rows.lines() {
        let (changes, want) = row.split_once(" @ ").ok_or("no row")?;
        let plan = changed(alloc, text, changes)?;
        let got = told(alloc, plan.as_bytes())?;
        if got.as_str().strip_prefix("mmt: plan: ") != Some(want) {
            return Ok(format!(in alloc; "{row}, and not {got}")?);
        }
    }
    Ok(String::new(alloc))
}

// What is printed for the files of a plan, on a shelf with this file where these reads fail.
pub fn files_of(
    alloc: Global,
    text: &str,
    file: Option<&[u8]>,
    failing: &[u64],
) -> Result<String, Fail> {
    let programme = programme_of(alloc, text)?;
    let mut shelf = shelf_of(alloc, b"", file, failing)?;
    let text = match check_files(&mut shelf, &programme) {
        Ok(()) => format!(in alloc; "right")?,
        Err(end) => format!(in alloc; "mmt: {end}")?,
    };
    Ok(text)
}
