//! Log messages of a program, on their way to be admitted together.

ghost use Rattle.std.specs.Prelude.{◌≡◌, ◌≤◌, ◌<◌, ◌+◌, ◌++◌, ◌∷◌, [], true, false, None, count_by, length, IfOk};
ghost use Rattle.std.specs.List.{AllByRecursion};
ghost use Rattle.dl_bytes.specs.Limits.{admitted_limit};
ghost use Rattle.dl_registry.specs.Kept.{owed_change};
ghost use Rattle.dl_hub.specs.State.{is_open};
ghost use Rattle.dl_core.specs.Admission.{IsLog};
ghost use Rattle.dl_admission.specs.Admission.{ForwardsAll};
ghost use Rattle.dl_admission.specs.Part.{part};

use circular_buffer::HeapCircularBuffer;
use dl_admission::admit_messages;
use dl_bytes::{BATCH_LIMIT, Moment, OutOfMemory, UserMsg};
use dl_core::Core;
use dl_events::Journal;
use dl_outside::Folder;
use std::alloc::Global;
use std::marker::Model;

/// Log messages of one program that are to be admitted together, at most 64. Their memory is taken once, when it is made.
#[derive(Drop)]
pub struct Gathered {
    messages: HeapCircularBuffer<UserMsg>,
}

impl Model for Gathered {
    ghost use Rattle.std.specs.Prelude.{◌≡◌, List};
    ghost use Rattle.dl_bytes.specs.declared.user.UserMsg.{UserMsg as message_type};

    ghost Value = { List message_type };

    ghost view = { λ g. g.messages.items };

    ghost invariant = { λ g. g.messages.capacity ≡ 64 };
}

impl Gathered {
    /// None.
    pub fn make(alloc: Global) -> Result<Gathered, OutOfMemory>
        ensures { IfOk result (λ gathered. gathered ≡ []) }
    {
        let messages = HeapCircularBuffer::with_capacity(alloc, BATCH_LIMIT)?;
        Ok(Gathered { messages })
    }

    /// How many there are.
    pub fn len(&self) -> usize
        ensures count { result ≡ length self.now }
        ensures few { length self.now ≤ 64 }
    {
        self.messages.len()
    }

    /// Whether there is no room for one more.
    pub fn is_full(&self) -> bool
        ensures full { result ≡ true → length self.now ≡ 64 }
        ensures room { result ≡ false → length self.now < 64 }
    {
        let len = self.len();
        len >= BATCH_LIMIT
    }

    /// One more comes, as the last.
    pub fn push(&mut self, msg: UserMsg)
        requires { length self.old < 64 }
        ensures { self.new ≡ self.old ++ msg ∷ [] }
    {
        let _none_is_pushed_out = self.messages.push_back(msg);
    }

    /// Drops all.
    pub fn clear(&mut self)
        ensures { self.new ≡ [] }
    {
        self.messages.clear();
    }

    /// Notes them at one moment, and admits their frames, behind the Closes of the clients that are too slow for them. None is left.
    pub fn admit<J: Journal, F: Folder>(
        &mut self,
        core: &mut Core,
        journal: &mut J,
        channel: u16,
        moment: Moment,
        folder: &mut F,
    )
        requires logs { AllByRecursion IsLog self.old }
        requires settled { owed_change core.old.registry ≡ None }
        requires spare { count_by is_open core.old.hub.clients + length self.old ≤ J.spare journal.old }
        requires few { core.old.hub.admitted + length self.old ≤ admitted_limit }
        ensures forwards { ForwardsAll moment channel self.old
            (part core.old (J.events journal.old) (F.told folder.old)) (part core.new (J.events journal.new) (F.told folder.new)) }
        ensures admitted { core.new.hub.admitted ≡ core.old.hub.admitted + length self.old }
        ensures none { self.new ≡ [] }
    {
        self.len();
        admit_messages(core, journal, channel, &mut self.messages, moment, folder);
    }
}
