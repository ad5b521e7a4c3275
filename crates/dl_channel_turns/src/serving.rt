//! The user messages of a channel are taken in.

ghost use Rattle.std.specs.Prelude.{◌≡◌, ◌≤◌, ◌<◌, ◌+◌, ◌*◌, ◌++◌, ◌∷◌, [], ℕ, List, true, None, length, IfErr, OnErr, OnOk};
ghost use Rattle.std.specs.List.{AllByRecursion};
ghost use Rattle.std.specs.Result.{result_err};
ghost use Rattle.dl_bytes.specs.Limits.{admitted_limit};
ghost use Rattle.dl_bytes.specs.UserMessage.{IsFit};
ghost use Rattle.dl_model.specs.Frames.{user_frames};
ghost use Rattle.dl_registry.specs.Kept.{owed_change};
ghost use Rattle.dl_channel.specs.State.{Outbox};
ghost use Rattle.dl_channel.specs.declared.outcome.ChannelEnd.TheVariants.{NoMemory};
ghost use Rattle.dl_core.specs.Admission.{IsLog, has_frames};
ghost use Rattle.dl_channel_turns.specs.Messages.{ServesOne};
ghost use Rattle.dl_channel_turns.specs.Turns.{Finishes, HasServed, ServesAll, StopsServing};
ghost use Rattle.dl_channel_turns.specs.State.{side};

use crate::clients::open_clients;
use crate::gathered::Gathered;
use crate::levels::answer;
use crate::outboxes::Outboxes;
use crate::registration::{accepted, registration_in};
use dl_admission::admit_message;
use dl_bytes::{Moment, UserMsg};
use dl_channel::{ChannelEnd, Inbox, Next};
use dl_core::Core;
use dl_events::Journal;
use dl_outside::Folder;

/// Whether a message has frames: it is a log message, or a report of lost ones.
fn has_frames_in(msg: &UserMsg) -> bool
    ensures { result ≡ has_frames msg.now }
{
    matches!(msg, UserMsg::Log(_) | UserMsg::Overflow { .. })
}

/// Takes in a message of a channel: its frames are admitted, behind the Closes of the clients that are too slow for them, or it goes to the
/// registry, and the Level events that it owes follow. A context that registers is told its level in any case. Where memory runs out nothing is
/// done.
pub fn serve_one<J: Journal, F: Folder>(
    core: &mut Core,
    outboxes: &mut Outboxes,
    journal: &mut J,
    channel: u16,
    msg: UserMsg,
    moment: Moment,
    folder: &mut F,
) -> Result<(), ChannelEnd>
    requires fit { IsFit msg }
    requires settled { owed_change core.old.registry ≡ None }
    requires few { core.old.hub.admitted + length (user_frames core.old.ecu msg) ≤ admitted_limit }
    ensures serves { OnOk result (ServesOne channel moment msg
        (side core.old outboxes.old (J.events journal.old) (F.told folder.old)) (side core.new outboxes.new (J.events journal.new) (F.told folder.new))) }
    ensures unserved { OnErr result (side core.new outboxes.new (J.events journal.new) (F.told folder.new) ≡ side core.old outboxes.old (J.events journal.old) (F.told folder.old)) }
    ensures cause { IfErr result (λ end. end ≡ NoMemory) }
    ensures settled { owed_change core.new.registry ≡ None }
    ensures admitted { core.new.hub.admitted ≤ core.old.hub.admitted + length (user_frames core.old.ecu msg) }
{
    let Some(need) = open_clients(core.hub()).checked_add(1) else {
        return Err(ChannelEnd::NoMemory);
    };
    if journal.reserve(need).is_err() {
        return Err(ChannelEnd::NoMemory);
    }
    if has_frames_in(&msg) {
        admit_message(core, journal, channel, msg, moment, folder);
        return Ok(());
    }
    let asked = registration_in(&msg);
    match core.user(channel, msg, moment, folder, journal) {
        Ok(refusal) => {
            let registered = accepted(asked, refusal);
            answer(core, outboxes, journal, channel, registered);
            Ok(())
        }
        Err(_) => Err(ChannelEnd::NoMemory),
    }
}

/// Admits the log messages that are gathered. Where memory runs out nothing is done.
fn serve_gathered<J: Journal, F: Folder>(
    core: &mut Core,
    journal: &mut J,
    gathered: &mut Gathered,
    channel: u16,
    moment: Moment,
    folder: &mut F,
) -> Result<(), ChannelEnd>
    requires settled { owed_change core.old.registry ≡ None }
    requires logs { AllByRecursion IsLog gathered.old }
    requires few { core.old.hub.admitted + length gathered.old ≤ admitted_limit }
    ensures serves { OnOk result ((outboxes : List (ℕ × Outbox)) → HasServed channel moment gathered.old gathered.new
        (side core.old outboxes (J.events journal.old) (F.told folder.old)) (side core.new outboxes (J.events journal.new) (F.told folder.new))) }
    ensures none { OnOk result (gathered.new ≡ []) }
    ensures some { OnErr result (0 < length gathered.old) }
    ensures unserved { OnErr result ((core.new ≡ core.old) × (J.events journal.new ≡ J.events journal.old) × (folder.new ≡ folder.old) × (gathered.new ≡ gathered.old)) }
    ensures cause { IfErr result (λ end. end ≡ NoMemory) }
    ensures settled { owed_change core.new.registry ≡ None }
    ensures ecu { core.new.ecu ≡ core.old.ecu }
    ensures admitted { core.new.hub.admitted + length gathered.new ≡ core.old.hub.admitted + length gathered.old }
{
    let count = gathered.len() as u64;
    if count == 0 {
        return Ok(());
    }
    let Some(need) = open_clients(core.hub()).checked_add(count) else {
        return Err(ChannelEnd::NoMemory);
    };
    if journal.reserve(need).is_err() {
        return Err(ChannelEnd::NoMemory);
    }
    gathered.admit(core, journal, channel, moment, folder);
    Ok(())
}

/// Makes room for one more log message behind those that are gathered: where there is none, they are admitted.
fn make_room<J: Journal, F: Folder>(
    core: &mut Core,
    journal: &mut J,
    gathered: &mut Gathered,
    channel: u16,
    moment: Moment,
    folder: &mut F,
) -> Result<(), ChannelEnd>
    requires settled { owed_change core.old.registry ≡ None }
    requires logs { AllByRecursion IsLog gathered.old }
    requires few { core.old.hub.admitted + length gathered.old ≤ admitted_limit }
    ensures serves { OnOk result ((outboxes : List (ℕ × Outbox)) → HasServed channel moment gathered.old gathered.new
        (side core.old outboxes (J.events journal.old) (F.told folder.old)) (side core.new outboxes (J.events journal.new) (F.told folder.new))) }
    ensures room { OnOk result (length gathered.new < 64) }
    ensures logs { OnOk result (AllByRecursion IsLog gathered.new) }
    ensures some { OnErr result (0 < length gathered.old) }
    ensures unserved { OnErr result ((core.new ≡ core.old) × (J.events journal.new ≡ J.events journal.old) × (folder.new ≡ folder.old)) }
    ensures cause { IfErr result (λ end. end ≡ NoMemory) }
    ensures settled { owed_change core.new.registry ≡ None }
    ensures admitted { core.new.hub.admitted + length gathered.new ≡ core.old.hub.admitted + length gathered.old }
{
    if gathered.is_full() {
        serve_gathered(core, journal, gathered, channel, moment, folder)
    } else {
        Ok(())
    }
}

/// Whether it is a log message.
fn is_log(msg: &UserMsg) -> bool
    ensures { result ≡ true → IsFit msg.now → IsLog msg.now }
{
    matches!(msg, UserMsg::Log(_))
}

/// Gathers a log message behind those that are gathered.
fn gather<J: Journal, F: Folder>(
    core: &mut Core,
    journal: &mut J,
    gathered: &mut Gathered,
    channel: u16,
    msg: UserMsg,
    moment: Moment,
    folder: &mut F,
) -> Result<(), ChannelEnd>
    requires log { IsLog msg }
    requires settled { owed_change core.old.registry ≡ None }
    requires logs { AllByRecursion IsLog gathered.old }
    requires few { core.old.hub.admitted + length gathered.old ≤ admitted_limit }
    ensures serves { OnOk result ((outboxes : List (ℕ × Outbox)) → HasServed channel moment (gathered.old ++ msg ∷ []) gathered.new
        (side core.old outboxes (J.events journal.old) (F.told folder.old)) (side core.new outboxes (J.events journal.new) (F.told folder.new))) }
    ensures logs { OnOk result (AllByRecursion IsLog gathered.new) }
    ensures some { OnErr result (0 < length gathered.old) }
    ensures unserved { OnErr result ((core.new ≡ core.old) × (J.events journal.new ≡ J.events journal.old) × (folder.new ≡ folder.old)) }
    ensures cause { IfErr result (λ end. end ≡ NoMemory) }
    ensures settled { owed_change core.new.registry ≡ None }
    ensures admitted { OnOk result (core.new.hub.admitted + length gathered.new ≡ core.old.hub.admitted + length gathered.old + 1) }
    ensures few { core.new.hub.admitted ≤ admitted_limit }
{
    match make_room(core, journal, gathered, channel, moment, folder) {
        Ok(()) => {
            gathered.push(msg);
            Ok(())
        }
        Err(end) => Err(end),
    }
}

/// Takes in a message that comes behind the log messages that are gathered: a log message is gathered with them, and before any other they
/// are admitted.
fn serve_next<J: Journal, F: Folder>(
    core: &mut Core,
    outboxes: &mut Outboxes,
    journal: &mut J,
    gathered: &mut Gathered,
    channel: u16,
    msg: UserMsg,
    moment: Moment,
    folder: &mut F,
) -> Result<(), ChannelEnd>
    requires fit { IsFit msg }
    requires settled { owed_change core.old.registry ≡ None }
    requires logs { AllByRecursion IsLog gathered.old }
    requires few { core.old.hub.admitted + length gathered.old + length (user_frames core.old.ecu msg) ≤ admitted_limit }
    ensures serves { OnOk result (HasServed channel moment (gathered.old ++ msg ∷ []) gathered.new
        (side core.old outboxes.old (J.events journal.old) (F.told folder.old)) (side core.new outboxes.new (J.events journal.new) (F.told folder.new))) }
    ensures logs { OnOk result (AllByRecursion IsLog gathered.new) }
    ensures stops { OnErr result (StopsServing channel moment (gathered.old ++ msg ∷ [])
        (side core.old outboxes.old (J.events journal.old) (F.told folder.old)) (side core.new outboxes.new (J.events journal.new) (F.told folder.new))) }
    ensures cause { IfErr result (λ end. end ≡ NoMemory) }
    ensures settled { owed_change core.new.registry ≡ None }
    ensures admitted { OnOk result (core.new.hub.admitted + length gathered.new ≤ core.old.hub.admitted + length gathered.old + length (user_frames core.old.ecu msg)) }
    ensures few { core.new.hub.admitted ≤ admitted_limit }
{
    if is_log(&msg) {
        return gather(core, journal, gathered, channel, msg, moment, folder);
    }
    match serve_gathered(core, journal, gathered, channel, moment, folder) {
        Ok(()) => serve_one(core, outboxes, journal, channel, msg, moment, folder),
        Err(end) => Err(end),
    }
}

/// Admits the log messages that are gathered, behind which the channel goes on or ends.
fn finish<J: Journal, F: Folder>(
    core: &mut Core,
    journal: &mut J,
    gathered: &mut Gathered,
    channel: u16,
    moment: Moment,
    folder: &mut F,
    behind: Result<(), ChannelEnd>,
) -> Result<(), ChannelEnd>
    requires settled { owed_change core.old.registry ≡ None }
    requires logs { AllByRecursion IsLog gathered.old }
    requires few { core.old.hub.admitted + length gathered.old ≤ admitted_limit }
    ensures serves { (outboxes : List (ℕ × Outbox)) → Finishes channel moment gathered.old (result_err behind) (result_err result)
        (side core.old outboxes (J.events journal.old) (F.told folder.old)) (side core.new outboxes (J.events journal.new) (F.told folder.new)) }
    ensures settled { owed_change core.new.registry ≡ None }
    ensures few { core.new.hub.admitted ≤ admitted_limit }
{
    match serve_gathered(core, journal, gathered, channel, moment, folder) {
        Ok(()) => behind,
        Err(end) => Err(end),
    }
}

/// Takes in the messages that a piece of what a program sends makes whole, in order, log messages that come one behind the other together. An
/// error is why the channel ends behind them.
pub fn serve_each<J: Journal, F: Folder>(
    core: &mut Core,
    outboxes: &mut Outboxes,
    journal: &mut J,
    inbox: &mut Inbox,
    gathered: &mut Gathered,
    channel: u16,
    piece: &[u8],
    moment: Moment,
    folder: &mut F,
) -> Result<(), ChannelEnd>
    requires none { gathered.old ≡ [] }
    requires settled { owed_change core.old.registry ≡ None }
    requires few { 8 * core.old.hub.admitted + length (inbox.old.unread ++ piece.now) ≤ 8 * admitted_limit }
    ensures serves { ServesAll channel moment (inbox.old.unread ++ piece.now) (result_err result) inbox.new
        (side core.old outboxes.old (J.events journal.old) (F.told folder.old)) (side core.new outboxes.new (J.events journal.new) (F.told folder.new)) }
    ensures settled { owed_change core.new.registry ≡ None }
    ensures few { core.new.hub.admitted ≤ admitted_limit }
{
    let mut rest = piece;
    loop {
        match inbox.next(rest) {
            Next::Message(msg, taken) => {
                rest = &rest[taken..];
                match serve_next(
                    core, outboxes, journal, gathered, channel, msg, moment, folder,
                ) {
                    Ok(()) => {}
                    Err(end) => return Err(end),
                }
            }
            Next::NoMore => {
                return finish(core, journal, gathered, channel, moment, folder, Ok(()));
            }
            Next::Bad(fault) => {
                let behind = Err(ChannelEnd::Bad(fault));
                return finish(core, journal, gathered, channel, moment, folder, behind);
            }
            Next::NoMemory => {
                let behind = Err(ChannelEnd::NoMemory);
                return finish(core, journal, gathered, channel, moment, folder, behind);
            }
        }
    }
}
