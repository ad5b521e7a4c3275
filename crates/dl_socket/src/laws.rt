//! Laws of channels: what their turns are to all that their programs sent, and what clients' requests tell them.

ghost use Rattle.std.specs.Prelude.{ℕ, List, Option};
ghost use Rattle.dl_bytes.specs.declared.moment.Moment.{Moment};
ghost use Rattle.dl_bytes.specs.declared.user.UserMsg.{UserMsg};
ghost use Rattle.dl_channel.specs.declared.outcome.ChannelEnd.{ChannelEnd};
ghost use Rattle.dl_channel_turns.specs.Heard.{HasHeard, HearsMore};
ghost use Rattle.dl_events.specs.declared.event.Why.{Why};
ghost use Rattle.dl_message.specs.Cutting.{Cutting};
ghost use Rattle.dl_socket.specs.Channels.{Channels};
ghost use Rattle.dl_socket.specs.Told.{IsTold};
ghost use Rattle.dl_socket.specs.Turns.{HasAsked, HasTurned, ChannelView, stage_after, stage_before};

/// The User events of a channel are the first messages of all that its link gave, each once, whatever the pieces: all of them while the channel goes
/// on, and those before the fault where its bytes are bad.
pub fn a_turn_hears_more()
    ensures { (channel : ℕ) (moment : Moment) (end : Option ChannelEnd) (before after : ChannelView) (old new : Channels)
        (stream : List ℕ) (msgs : List UserMsg)
        → (turned : HasTurned channel moment end before after old new) → HasHeard stream msgs turned.inbox
        → HearsMore channel end stream msgs (stage_before before turned.inbox old) (stage_after after turned.inbox_now new) }
{
    dl_channel_turns::laws::a_turn_hears_more();
}

/// What is put for the channels in a client's turn are the levels of the Level events that it adds, in their order, and nothing else.
pub fn levels_that_are_asked_for_are_told()
    ensures { (number : ℕ) (why : Option Why) (cutter cutter_now : Cutting) (before after : ChannelView) (old new : Channels)
        → HasAsked number why cutter cutter_now before after old new → IsTold before after old new }
{
    dl_turns::laws::a_turn_is_its_events();
}
