//! What the daemon's own applications tell of themselves.

ghost use Rattle.std.specs.Prelude.{◌≡◌, ◌≤◌, ◌+◌, length, OnErr, OnOk};
ghost use Rattle.std.specs.List.{AllByRecursion};
ghost use Rattle.dl_bytes.specs.UserMessage.{IsFit};
ghost use Rattle.dl_rounds.specs.Greetings.{Greets, GreetsEach, GreetsFirst, IsIntroduced, IsRegistration, MayGreet, apps_in, hello_of, registered, seen};

use dl_bytes::{Moment, OutOfMemory, UserMsg};
use dl_core::Core;
use dl_desk::{App, AppList, WriterControl};
use dl_events::Journal;
use dl_outside::Folder;
use dl_turns::note_levels;
use std::alloc::Global;

/// The channel of this process.
const OWN_CHANNEL: u16 = 0;

/// Notes a registration of this process as a User event, and the Level events that it owes. Where memory ran out nothing is noted.
pub fn greet_one<D: WriterControl, J: Journal, F: Folder>(
    alloc: Global,
    core: &mut Core,
    desk: &mut D,
    journal: &mut J,
    msg: &UserMsg,
    moment: Moment,
    folder: &mut F,
) -> Result<(), OutOfMemory>
    requires fit { IsFit msg.now }
    requires kind { IsRegistration msg.now }
    requires may { MayGreet core.old (D.told desk.old) (J.spare journal.old) }
    requires place { registered core.old + apps_in msg.now ≤ (D.told desk.old).apps }
    ensures greets { OnOk result (let s = seen D.told J.events F.told in Greets moment msg.now
        (s core.old desk.old journal.old folder.old) (s core.new desk.new journal.new folder.new)) }
    ensures unnoted { OnErr result ((core.new ≡ core.old) × (D.told desk.new ≡ D.told desk.old) × (J.events journal.new ≡ J.events journal.old) × (folder.new ≡ folder.old)) }
    ensures may { MayGreet core.new (D.told desk.new) (J.spare journal.new) }
    ensures apps { (D.told desk.new).apps ≡ (D.told desk.old).apps }
    ensures place { registered core.new ≤ registered core.old + apps_in msg.now }
    ensures spare { J.spare journal.old ≤ J.spare journal.new }
    ensures rest { D.same_rest desk.old desk.new }
{
    let copy = msg.copy(alloc)?;
    let _refusal = core.user(OWN_CHANNEL, copy, moment, folder, journal)?;
    note_levels(core, desk, journal);
    Ok(())
}

/// Notes what an application tells of itself, message by message.
fn greet_app<D: WriterControl, J: Journal, F: Folder>(
    alloc: Global,
    core: &mut Core,
    desk: &mut D,
    journal: &mut J,
    app: &App,
    moment: Moment,
    folder: &mut F,
) -> Result<(), OutOfMemory>
    requires introduced { IsIntroduced app.now }
    requires may { MayGreet core.old (D.told desk.old) (J.spare journal.old) }
    requires place { registered core.old + 1 ≤ (D.told desk.old).apps }
    ensures greets { OnOk result (let s = seen D.told J.events F.told in GreetsEach moment app.now.hello
        (s core.old desk.old journal.old folder.old) (s core.new desk.new journal.new folder.new)) }
    ensures first { OnErr result (let s = seen D.told J.events F.told in GreetsFirst moment app.now.hello
        (s core.old desk.old journal.old folder.old) (s core.new desk.new journal.new folder.new)) }
    ensures may { MayGreet core.new (D.told desk.new) (J.spare journal.new) }
    ensures apps { (D.told desk.new).apps ≡ (D.told desk.old).apps }
    ensures place { registered core.new ≤ registered core.old + 1 }
    ensures spare { J.spare journal.old ≤ J.spare journal.new }
    ensures rest { D.same_rest desk.old desk.new }
{
    for msg in app.hello() {
        greet_one(alloc, core, desk, journal, msg, moment, folder)?;
    }
    Ok(())
}

/// Notes what the applications of a desk tell of themselves, in their order, before any client comes. Where memory ran out the first ones of
/// these messages are noted, each with its Level events.
pub fn greet<D: WriterControl, J: Journal, F: Folder>(
    alloc: Global,
    core: &mut Core,
    desk: &mut D,
    journal: &mut J,
    apps: &AppList,
    moment: Moment,
    folder: &mut F,
) -> Result<(), OutOfMemory>
    requires introduced { AllByRecursion IsIntroduced apps.now }
    requires may { MayGreet core.old (D.told desk.old) (J.spare journal.old) }
    requires place { registered core.old + length apps.now ≤ (D.told desk.old).apps }
    ensures greets { OnOk result (let s = seen D.told J.events F.told in GreetsEach moment (hello_of apps.now)
        (s core.old desk.old journal.old folder.old) (s core.new desk.new journal.new folder.new)) }
    ensures first { OnErr result (let s = seen D.told J.events F.told in GreetsFirst moment (hello_of apps.now)
        (s core.old desk.old journal.old folder.old) (s core.new desk.new journal.new folder.new)) }
    ensures may { MayGreet core.new (D.told desk.new) (J.spare journal.new) }
    ensures spare { J.spare journal.old ≤ J.spare journal.new }
    ensures rest { D.same_rest desk.old desk.new }
{
    for place in 0..apps.len() {
        greet_app(alloc, core, desk, journal, apps.of(place), moment, folder)?;
    }
    Ok(())
}
