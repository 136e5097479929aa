//! The programme.

ghost use Rattle.std.specs.Prelude.{◌≡◌, [], ◌∷◌, ◌++◌, List as Items, IfOk, OnOk};
ghost use Rattle.mmt_made.specs.Generator.{assets as made_assets, audio_track, item as item_asset, made_programme, mpus_of, video_track, audio as audio_asset, video as video_asset};
ghost use Rattle.mmt_model.specs.Right.{IsRight};

use crate::announcing::signals;
use crate::tracks::{START, Track, mpus};
use mmt_base::{LongTick, Ntp, OutOfMemory};
use mmt_model::{Asset, Flow, List, Mpu, Params, Programme, Text, Unit, UnitKey};
use std::alloc::Global;

/// The video: 60 access units of 3,000 bytes a second.
const VIDEO: Track = Track {
    per_mpu: 30,
    length: 3000,
    period: 1000,
    ticks: 16_384,
};

/// The audio: 16 access units of 300 bytes a second.
const AUDIO: Track = Track {
    per_mpu: 8,
    length: 300,
    period: 3000,
    ticks: 61_440,
};

/// A list of one item.
fn one<T: Drop>(alloc: Global, item: T) -> Result<List<T>, OutOfMemory>
    ensures { IfOk result (λ list. list ≡ item ∷ []) }
{
    let mut list = List::new(alloc);
    match list.push(item) {
        Ok(()) => Ok(list),
        Err(refused) => Err(refused),
    }
}

/// The bytes of a text.
fn bytes_of(alloc: Global, text: &str) -> Result<List<u8>, OutOfMemory>
    ensures { IfOk result (λ list. list ≡ text.now) }
{
    let bytes = text.as_bytes().to_vec(alloc)?;
    Ok(List::from_vec(bytes))
}

/// The video.
fn video(alloc: Global) -> Result<Asset, OutOfMemory>
    ensures { IfOk result (λ asset. asset ≡ video_asset) }
{
    let id = bytes_of(alloc, "video")?;
    let mpus = mpus(alloc, &VIDEO)?;
    Ok(Asset {
        packet_id: 256,
        id,
        kind: 1_751_479_857,
        timed: true,
        timescale: 60_000,
        file: 0,
        mpus,
    })
}

/// The audio.
fn audio(alloc: Global) -> Result<Asset, OutOfMemory>
    ensures { IfOk result (λ asset. asset ≡ audio_asset) }
{
    let id = bytes_of(alloc, "audio")?;
    let mpus = mpus(alloc, &AUDIO)?;
    Ok(Asset {
        packet_id: 272,
        id,
        kind: 1_836_069_985,
        timed: true,
        timescale: 48_000,
        file: 1,
        mpus,
    })
}

/// The item.
fn item(alloc: Global) -> Result<Asset, OutOfMemory>
    ensures { IfOk result (λ asset. asset ≡ item_asset) }
{
    let id = bytes_of(alloc, "item")?;
    let unit = Unit {
        at: LongTick(START + 3_932_160),
        from: 0,
        length: 5000,
        key: UnitKey::Item { item: 1 },
        priority: 0,
        dependency: 0,
    };
    let units = one(alloc, unit)?;
    let mpu = Mpu {
        number: 0,
        time: Ntp(4_556_960_301_056),
        decoding_offset: 0,
        aus: List::new(alloc),
        units,
    };
    let mpus = one(alloc, mpu)?;
    Ok(Asset {
        packet_id: 288,
        id,
        kind: 1_633_775_728,
        timed: false,
        timescale: 1,
        file: 2,
        mpus,
    })
}

/// The assets, in their order.
fn assets(alloc: Global) -> Result<List<Asset>, OutOfMemory>
    ensures { IfOk result (λ list. list ≡ made_assets) }
{
    let video = video(alloc)?;
    let audio = audio(alloc)?;
    let item = item(alloc)?;
    let mut list = one(alloc, video)?;
    list.push(audio)?;
    list.push(item)?;
    Ok(list)
}

/// The names of the files, in their order.
fn files(alloc: Global) -> Result<List<Text>, OutOfMemory>
    ensures { IfOk result (λ list. list ≡ codes "video" ∷ codes "audio" ∷ codes "item" ∷ []) }
{
    let video = Text::from_str(alloc, "video")?;
    let audio = Text::from_str(alloc, "audio")?;
    let item = Text::from_str(alloc, "item")?;
    let mut list = one(alloc, video)?;
    list.push(audio)?;
    list.push(item)?;
    Ok(list)
}

ghost use Rattle.std.specs.Prelude.{codes};

/// The programme, put together.
#[tactic(auto, unfolding(crate::specs::Generator::made_programme))]
fn build(alloc: Global) -> Result<Programme, OutOfMemory>
    ensures { IfOk result (λ programme. programme ≡ made_programme) }
{
    let package = bytes_of(alloc, "make")?;
    let signals = signals(alloc)?;
    let assets = assets(alloc)?;
    let files = files(alloc)?;
    Ok(Programme {
        flow: Flow {
            address: 0xff0e_0000_0000_0000_0000_0000_0000_0101,
            port: 51_300,
        },
        source: Flow {
            address: 0x2001_0db8_0000_0000_0000_0000_0000_0001,
            port: 51_300,
        },
        context: 1,
        full_every: 16,
        limit: 1400,
        spacing: 100,
        package,
        params: Params {
            bound: 400_000,
            window: 131_072,
            delay: 6554,
        },
        signals,
        assets,
        files,
    })
}

/// A programme of 60 seconds, in blocks of half a second: video of 60 access units a second and audio of 16, in MPUs of a
/// block each, an item at the end, and in each block a buffer message and a table. It is a right programme.
///
/// # Errors
///
/// There is no memory.
pub fn programme(alloc: Global) -> Result<Programme, OutOfMemory>
    ensures is { IfOk result (λ programme. programme ≡ made_programme) }
    ensures right { IfOk result IsRight }
{
    match build(alloc) {
        Ok(programme) => Ok(programme),
        Err(refused) => Err(refused),
    }
}
