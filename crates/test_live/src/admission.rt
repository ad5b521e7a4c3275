//! A core over a folder in memory, a journal that counts, and a link that takes little and fails: lost calls that need two records, and more calls together
//! than a client has room for. Each call of the core is made only where all that it asks for holds.

ghost use Rattle.std.specs.Prelude.{◌≡◌, ◌≤◌, ◌<◌, ◌^◌, ◌+◌, ℕ, List, true, None, length};
ghost use Rattle.dl_bytes.specs.Limits.{admitted_limit};
ghost use Rattle.dl_core.specs.Admission.{lost_frames};
ghost use Rattle.dl_hub.specs.State.{EachHasRoom};
ghost use Rattle.dl_registry.specs.Kept.{owed_change};

use dl_bytes::{
    Bytes, Conf, Id, Item, Level, Moment, OutOfMemory, Payload, Sequence, Severity, Stored,
};
use dl_core::Core;
use dl_events::{Counted, Journal, Why};
use dl_hub::Pumped;
use dl_memory::{Failing, Manner, MemoryFolder, MemoryLink, Turn};
use std::alloc::Global;
use std::test::Fail;

/// When everything happens.
const NOW: Moment = Moment {
    secs: 3,
    micros: 5,
    ticks: 7,
};

/// The application.
const APP: [u8; 4] = *b"LOG1";

/// One more than a record counts.
const LOST: u64 = 0x1_0000_0000;

/// The two records that report so many lost calls.
const RECORDS: &[u8] =
    b"\x25\0\0\x1cECU1\x26\x01LOG1\0\0\0\0\x14\0\0\0\0\x01\xff\xff\xff\xff\x25\0\0\x1cECU1\x26\x01LOG1\0\0\0\0\x14\0\0\0\0\x01\x01\0\0\0";

/// A core, and what it is run against.
#[derive(Drop)]
struct Scene {
    core: Core,
    folder: MemoryFolder,
    journal: Counted,
}

/// A configuration without a trace.
fn conf(alloc: Global) -> Conf {
    Conf {
        ecu: Id::from_bytes(*b"ECU1"),
        level: Level::from(Severity::Info),
        buffer: 10_000,
        directory: Bytes::over(Vec::new(alloc)),
        file_size: 2000,
        max_size: 4000,
        injection: true,
    }
}

/// The core of that configuration, with nothing stored.
fn core(alloc: Global) -> Result<Core, OutOfMemory> {
    let stored = Stored {
        level: None,
        own: Sequence::over(Vec::new(alloc)),
    };
    let conf = conf(alloc);
    Core::make(alloc, &conf, stored, None, 0)
}

/// The same over an empty folder, with a journal that has room for two hundred events.
fn make_scene(alloc: Global) -> Result<Scene, OutOfMemory> {
    let folder = MemoryFolder::make(alloc, 1, 1)?;
    let mut journal = Counted::make();
    journal.reserve(200)?;
    Ok(Scene {
        core: core(alloc)?,
        folder,
        journal,
    })
}

/// Whether the journal has room for an event, and no level waits.
fn is_ready(core: &mut Core, journal: &mut Counted) -> bool
    ensures spare { result ≡ true → 1 ≤ journal.new.spare }
    ensures settled { result ≡ true → owed_change core.new.registry ≡ None }
{
    journal.spare() > 0 && core.level(journal).is_none()
}

/// Connects a client, and answers its number; 0 where none comes.
fn connect(scene: &mut Scene) -> u32 {
    if !is_ready(&mut scene.core, &mut scene.journal) {
        return 0;
    }
    scene.core.connect(&mut scene.journal).unwrap_or(0)
}

/// Whether a client that was there leaves.
fn leave(scene: &mut Scene, client: u32) -> bool {
    if !is_ready(&mut scene.core, &mut scene.journal) || !scene.core.hub().is_open(client) {
        return false;
    }
    scene.core.close(client, Why::Left, &mut scene.journal);
    true
}

/// So many records suffice to report so many lost calls.
fn records_of(count: u64) -> u64
    ensures { (ecu apid : List ℕ) → length (lost_frames ecu apid count) ≤ result }
{
    dl_core::laws::how_many_records();
    count / u64::from(u32::MAX) + 1
}

/// Whether each client has room for so many bytes, and so many frames more may be admitted.
fn has_room(core: &Core, bytes: u64, frames: u64) -> bool
    ensures room { result ≡ true → EachHasRoom bytes core.now.hub }
    ensures few { result ≡ true → core.now.hub.admitted + frames ≤ admitted_limit }
{
    core.may_admit(frames) && core.hub().each_has_room(bytes)
}

/// Whether so many lost calls are reported.
fn lose(scene: &mut Scene, count: u64) -> bool {
    if count == 0 || !is_ready(&mut scene.core, &mut scene.journal) {
        return false;
    }
    if !has_room(&scene.core, scene.core.lost_need(count), records_of(count)) {
        return false;
    }
    let apid = Id::from_bytes(APP);
    scene
        .core
        .lost(0, apid, count, NOW, &mut scene.folder, &mut scene.journal);
    true
}

/// How many frames and how many bytes a client was sent; more than there can be where it is closed.
fn sent(core: &Core, client: u32) -> (u64, u64) {
    let hub = core.hub();
    if hub.is_open(client) {
        hub.sent(client)
    } else {
        (u64::MAX, u64::MAX)
    }
}

/// Whether a pump of client 1 ends so, and the link took so many bytes of the records by then.
fn pumps(core: &mut Core, link: &mut Failing<MemoryLink>, ends: Pumped, taken: usize) -> bool {
    core.hub().is_open(1)
        && core.pump(1, link) == ends
        && RECORDS.get(..taken) == Some(link.inner.taken())
}

/// Whether a client is told of the lost calls through a link, another one is handed the report that waits for it, and the next one is handed nothing.
fn tells_losses(scene: &mut Scene, link: &mut Failing<MemoryLink>) -> [bool; 12] {
    [
        connect(scene) == 1,
        lose(scene, LOST),
        sent(&scene.core, 1) == (2, 56),
        pumps(&mut scene.core, link, Pumped::Busy, 8),
        pumps(&mut scene.core, link, Pumped::Failed, 8),
        pumps(&mut scene.core, link, Pumped::All, 56),
        leave(scene, 1),
        lose(scene, LOST) && scene.core.hub().backlog().bytes == 56,
        connect(scene) == 2,
        leave(scene, 2),
        connect(scene) == 3,
        sent(&scene.core, 3) == (0, 0),
    ]
}

/// One byte, then seven, and then nothing for now.
const TAKES: &[Turn] = &[Turn::AtMost(1), Turn::AtMost(7), Turn::NotNow];

/// The fourth call fails.
const FAILS: &[u64] = &[4];

/// The manner of a link that takes so much.
fn manner(alloc: Global) -> Result<Manner, OutOfMemory> {
    let takes = Vec::from_slice(alloc, TAKES)?;
    let mut manner = Manner::plain(alloc);
    manner.takes = takes;
    Ok(manner)
}

/// A link of that manner, of whose calls one fails.
fn slow(alloc: Global) -> Result<Failing<MemoryLink>, OutOfMemory> {
    let fails = Vec::from_slice(alloc, FAILS)?;
    match MemoryLink::make(alloc, Vec::new(alloc), None, 1000, manner(alloc)?) {
        Ok(link) => Ok(Failing::make(link, fails)),
        Err(fault) => Err(fault),
    }
}

/// Whether the losses are told so by a core through such a link.
fn losses_told(alloc: Global) -> Result<[bool; 12], OutOfMemory> {
    let mut link = slow(alloc)?;
    let mut scene = make_scene(alloc)?;
    Ok(tells_losses(&mut scene, &mut link))
}

#[test]
fn one_more_than_a_record_counts(rt: HostRuntime) -> Result<(), Fail> {
    let told = losses_told(rt.alloc())?;
    assert!(rt; told == [true; 12]);
    Ok(())
}

/// Adds a letter, where there is room.
fn add_letter(payload: &mut Payload) {
    if payload.room() > 0 {
        payload.extend_from_slice(b"x");
    }
}

/// A log call with the longest payload.
fn longest(call: u64) -> Item {
    let mut payload = Payload::new();
    for _ in 0..1390u32 {
        add_letter(&mut payload);
    }
    Item {
        app: 0,
        writer: 1,
        call,
        apid: Id::from_bytes(APP),
        ctid: Id::from_bytes(*b"TEST"),
        severity: Severity::Info,
        at: 9,
        mcnt: 0,
        payload,
    }
}

/// 64 of them.
fn items(alloc: Global) -> Result<Vec<Item>, OutOfMemory> {
    let mut items = Vec::with_capacity(alloc, 64)?;
    for call in 1..65u64 {
        items.push(longest(call))?;
    }
    Ok(items)
}

/// How many bytes these log calls need together; 0 where they are too many.
fn need(core: &Core, items: &[Item]) -> u64 {
    if items.len() > 64 {
        return 0;
    }
    core.batch_need(items)
}

/// Whether log calls come together, where each client has room for them.
fn log_batch(scene: &mut Scene, items: &[Item]) -> bool {
    let count = items.len() as u64;
    if items.len() > 64 || !is_ready(&mut scene.core, &mut scene.journal) {
        return false;
    }
    if scene.journal.spare() < count
        || !has_room(&scene.core, scene.core.batch_need(items), count)
    {
        return false;
    }
    scene
        .core
        .log_batch(items, NOW, &mut scene.folder, &mut scene.journal);
    true
}

/// Whether a log call comes, where each client has room for it.
fn log(scene: &mut Scene, item: &Item) -> bool {
    if !is_ready(&mut scene.core, &mut scene.journal) {
        return false;
    }
    if !has_room(&scene.core, scene.core.log_need(item), 1) {
        return false;
    }
    scene
        .core
        .log(item, NOW, &mut scene.folder, &mut scene.journal);
    true
}

/// How many bytes more client 1 can be sent; 0 where it is closed.
fn room(core: &Core) -> u64 {
    let hub = core.hub();
    if hub.is_open(1) { hub.room(1) } else { 0 }
}

/// Whether 64 log calls come together to a client, and are counted; whether they need more room than there is then, so that they don't come once more, though one
/// call does.
fn takes_once(scene: &mut Scene, items: &[Item]) -> [bool; 7] {
    [
        connect(scene) == 1,
        log_batch(scene, items),
        scene.journal.noted() == 65,
        need(&scene.core, items) == 90_624,
        room(&scene.core) == 50_448,
        !log_batch(scene, items),
        log(scene, &longest(65)),
    ]
}

/// The same of a core of its own.
fn taken_once(alloc: Global) -> Result<[bool; 7], OutOfMemory> {
    let items = items(alloc)?;
    let mut scene = make_scene(alloc)?;
    Ok(takes_once(&mut scene, &items))
}

#[test]
fn too_much_together(rt: HostRuntime) -> Result<(), Fail> {
    let taken = taken_once(rt.alloc())?;
    assert!(rt; taken == [true; 7]);
    Ok(())
}
