//! User messages of other processes that have frames: log messages, and reports of lost ones.

ghost use Rattle.std.specs.Prelude.{◌≡◌, ◌≤◌, ◌+◌, [], true, None, count_by, length};
ghost use Rattle.std.specs.List.{AllByRecursion};
ghost use Rattle.dl_bytes.specs.Limits.{admitted_limit};
ghost use Rattle.dl_bytes.specs.UserMessage.{IsFit};
ghost use Rattle.dl_model.specs.Frames.{user_frames};
ghost use Rattle.dl_registry.specs.Kept.{owed_change};
ghost use Rattle.dl_hub.specs.State.{is_open};
ghost use Rattle.dl_core.specs.Admission.{has_frames, IsLog};
ghost use Rattle.dl_admission.specs.Admission.{Forwards, ForwardsAll, Uses};
ghost use Rattle.dl_admission.specs.Part.{part};

use crate::slow::close_slow;
use circular_buffer::HeapCircularBuffer;
use dl_bytes::{Moment, UserMsg};
use dl_core::Core;
use dl_events::Journal;
use dl_outside::Folder;

/// Notes a user message that has frames, which is fit, and admits these, behind the Closes of the clients that are too slow for them. It
/// takes no memory.
pub fn admit_message<F: Folder, J: Journal>(
    core: &mut Core,
    journal: &mut J,
    channel: u16,
    msg: UserMsg,
    moment: Moment,
    folder: &mut F,
)
    requires frames { has_frames msg ≡ true }
    requires fit { IsFit msg }
    requires settled { owed_change core.old.registry ≡ None }
    requires spare { count_by is_open core.old.hub.clients + 1 ≤ J.spare journal.old }
    requires few { core.old.hub.admitted + length (user_frames core.old.ecu msg) ≤ admitted_limit }
    ensures forwards { Forwards moment channel msg (part core.old (J.events journal.old) (F.told folder.old)) (part core.new (J.events journal.new) (F.told folder.new)) }
    ensures uses { Uses 1 core.old.hub core.new.hub (J.noted journal.old) (J.noted journal.new) (J.spare journal.old) (J.spare journal.new) }
{
    let need = core.user_need(&msg);
    close_slow(core, journal, need);
    let _refusal = core.user(channel, msg, moment, folder, journal);
}

/// Notes log messages of one channel and one moment, at most 64, and admits their frames; before each of them, clients that are too slow for
/// its frame are closed. Where every client has room for all of them, the trace stores them together. None is left. It takes no memory.
pub fn admit_messages<F: Folder, J: Journal>(
    core: &mut Core,
    journal: &mut J,
    channel: u16,
    msgs: &mut HeapCircularBuffer<UserMsg>,
    moment: Moment,
    folder: &mut F,
)
    requires few_messages { length msgs.old.items ≤ 64 }
    requires logs { AllByRecursion IsLog msgs.old.items }
    requires settled { owed_change core.old.registry ≡ None }
    requires spare { count_by is_open core.old.hub.clients + length msgs.old.items ≤ J.spare journal.old }
    requires few { core.old.hub.admitted + length msgs.old.items ≤ admitted_limit }
    ensures forwards { ForwardsAll moment channel msgs.old.items
        (part core.old (J.events journal.old) (F.told folder.old)) (part core.new (J.events journal.new) (F.told folder.new)) }
    ensures uses { Uses (length msgs.old.items) core.old.hub core.new.hub
        (J.noted journal.old) (J.noted journal.new) (J.spare journal.old) (J.spare journal.new) }
    ensures admitted { core.new.hub.admitted ≡ core.old.hub.admitted + length msgs.old.items }
    ensures none { msgs.new ≡ record msgs.old { items = [] } }
{
    if core.hub().each_has_room(core.messages_need(msgs)) {
        core.user_batch(channel, msgs, moment, folder, journal);
    } else {
        admit_each(core, journal, channel, msgs, moment, folder);
    }
}

/// The same, one by one.
fn admit_each<F: Folder, J: Journal>(
    core: &mut Core,
    journal: &mut J,
    channel: u16,
    msgs: &mut HeapCircularBuffer<UserMsg>,
    moment: Moment,
    folder: &mut F,
)
    requires logs { AllByRecursion IsLog msgs.old.items }
    requires settled { owed_change core.old.registry ≡ None }
    requires spare { count_by is_open core.old.hub.clients + length msgs.old.items ≤ J.spare journal.old }
    requires few { core.old.hub.admitted + length msgs.old.items ≤ admitted_limit }
    ensures forwards { ForwardsAll moment channel msgs.old.items
        (part core.old (J.events journal.old) (F.told folder.old)) (part core.new (J.events journal.new) (F.told folder.new)) }
    ensures uses { Uses (length msgs.old.items) core.old.hub core.new.hub
        (J.noted journal.old) (J.noted journal.new) (J.spare journal.old) (J.spare journal.new) }
    ensures none { msgs.new ≡ record msgs.old { items = [] } }
{
    while let Some(msg) = msgs.pop_front() {
        admit_message(core, journal, channel, msg, moment, folder);
    }
}
