//! Laws of a channel's turns: what they are to all that its program sent, and to the journal.

ghost use Rattle.std.specs.Prelude.{◌≡◌, [], ℕ, ℤ, List, Option, Some, None, IfOk};
ghost use Rattle.dl_bytes.specs.declared.moment.Moment.{Moment};
ghost use Rattle.dl_bytes.specs.declared.user.UserMsg.{UserMsg};
ghost use Rattle.dl_bytes.specs.declared.user.UserMsg.TheVariants.{RegisterContext};
ghost use Rattle.dl_user.specs.Channel.{unfed};
ghost use Rattle.dl_registry.specs.Kept.{owed_change};
ghost use Rattle.dl_model.specs.Registry.{IsInOrder, Registry, applied};
ghost use Rattle.dl_model.specs.declared.registry.LevelChange.{LevelChange};
ghost use Rattle.dl_model.specs.declared.registry.Slot.{Slot};
ghost use Rattle.dl_channel.specs.State.{Outbox};
ghost use Rattle.dl_channel.specs.declared.outcome.ChannelEnd.{ChannelEnd};
ghost use Rattle.dl_channel_turns.specs.Heard.{HasHeard, HearsMore};
ghost use Rattle.dl_channel_turns.specs.Later.{IsLater};
ghost use Rattle.dl_channel_turns.specs.Levels.{TellsLevels};
ghost use Rattle.dl_channel_turns.specs.Put.{IsAnswered, IsPut};
ghost use Rattle.dl_channel_turns.specs.State.{Side, Stage, outbox_of};
ghost use Rattle.dl_channel_turns.specs.Turns.{IsTurn};

/// An inbox that is new has heard nothing.
pub fn nothing_is_heard_at_first()
    ensures { HasHeard [] [] unfed }
{}

/// The User events of a channel are the first messages of all that its link gave, each once, whatever the pieces: all of them while the
/// channel goes on, and those before the fault where its bytes are bad.
pub fn a_turn_hears_more()
    ensures { (channel : ℕ) (moment : Moment) (end : Option ChannelEnd) (old new : Stage) (stream : List ℕ) (msgs : List UserMsg)
        → HasHeard stream msgs old.inbox → IsTurn channel moment end old new → HearsMore channel end stream msgs old new }
{}

/// What is put for a channel are the messages of its applications' Level events, in their order, up to the first that found no room.
pub fn levels_are_put()
    ensures { (channel : ℕ) (changes : List LevelChange) (old new : Side) (outbox : Outbox) → TellsLevels changes old new
        → outbox_of old.outboxes channel ≡ Some outbox → IsPut channel changes outbox old new }
{}

/// A registration of a context that is accepted is answered in any case: with the context's level, for the position that the message gave, where no
/// Level event is owed for it.
pub fn registrations_are_answered()
    ensures { (slots : ℕ → Slot) (registry : Registry) (channel : ℕ) (apid ctid : List ℕ) (position : ℕ) (own : Option ℕ) (trace : ℤ) (pid : ℕ) (text : List ℕ)
        → IfOk (applied slots registry channel (RegisterContext apid ctid position own trace pid text)) (λ left. IsInOrder left → IsAnswered apid ctid position left) }
{}

/// A turn is its events: the core and the folder are afterwards those of the longer journal, which stays well-formed.
pub fn a_turn_is_its_events()
    ensures { (channel : ℕ) (moment : Moment) (end : Option ChannelEnd) (old new : Stage) → IsTurn channel moment end old new
        → owed_change old.side.core.registry ≡ None → IsLater old.side new.side }
{}
