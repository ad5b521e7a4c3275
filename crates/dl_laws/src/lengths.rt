//! Laws on the lengths that frames tell.

ghost use Rattle.std.specs.Prelude.{◌≡◌, ◌≤◌, ℕ, List, [], ◌++◌, length};
ghost use Rattle.std.specs.List.{AllByRecursion};
ghost use Rattle.dl_bytes.specs.Bytes.{IsBytes};
ghost use Rattle.dl_bytes.specs.Limits.{payload_limit};
ghost use Rattle.dl_bytes.specs.UserMessage.{IsFit};
ghost use Rattle.dl_bytes.specs.declared.item.Item.{Item};
ghost use Rattle.dl_bytes.specs.declared.outcome.Done.{Done};
ghost use Rattle.dl_bytes.specs.declared.user.UserMsg.{UserMsg};
ghost use Rattle.dl_headers.specs.Message.{Message, IsMessage};
ghost use Rattle.dl_message.specs.Cut.{IsWholeMessage};
ghost use Rattle.dl_message.specs.Frames.{log_message};
ghost use Rattle.dl_control.specs.Reply.{control_reply};
ghost use Rattle.dl_control.specs.declared.reply.Reply.{Reply};
ghost use Rattle.dl_user.specs.Cut.{Begins, messages_of};
ghost use Rattle.dl_events.specs.declared.event.Event.{Event};
ghost use Rattle.dl_model.specs.declared.registry.Slot.{Slot};
ghost use Rattle.dl_model.specs.Setting.{Setting};
ghost use Rattle.dl_model.specs.Registry.{Registry};
ghost use Rattle.dl_model.specs.Reply.{reply_frame_to};
ghost use Rattle.dl_model.specs.Frames.{FrameSource, user_frames};
ghost use Rattle.dl_model.specs.Overflow.{overflow_frames};
ghost use Rattle.dl_model.specs.Traffic.{Traffic};
ghost use Rattle.dl_model.specs.ClientStream.{sent, traffic_of, traffic};
ghost use Rattle.dl_laws.specs.Frames.{TellsLen};
ghost use Rattle.dl_laws.specs.FrameLengths.{CarriesLen, HasId, GivesLengths, EachGivesLengths};

/// A message by its layout tells its length, and so does a whole message within any limit.
pub fn messages_tell_their_length()
    ensures spelled { (m : Message) (bytes : List ℕ) → IsMessage m bytes → TellsLen bytes }
    ensures whole { (limit : ℕ) (bytes : List ℕ) → IsWholeMessage limit bytes → TellsLen bytes }
{}

/// The frame of a log call tells its length.
pub fn log_calls_tell_their_length()
    ensures { (ecu : List ℕ) (item : Item) → length ecu ≡ 4 → length item.apid ≡ 4 → length item.ctid ≡ 4 →
        length item.payload.bytes ≤ payload_limit → TellsLen (log_message ecu item) }
{}

/// Each record of lost messages tells its length.
pub fn overflow_records_tell_their_length()
    ensures { (ecu apid ctid : List ℕ) (count : ℕ) → length ecu ≡ 4 → length apid ≡ 4 → length ctid ≡ 4 →
        AllByRecursion TellsLen (overflow_frames ecu apid ctid count) }
{}

/// Each frame of a user message tells its length. Messages that come on a channel are within their limits, each that begins its
/// bytes, and all of their one cut.
pub fn user_messages_tell_their_length()
    ensures fit { (ecu : List ℕ) (msg : UserMsg) → length ecu ≡ 4 → IsFit msg → HasId msg → AllByRecursion TellsLen (user_frames ecu msg) }
    ensures begins { (bytes after : List ℕ) (msg : UserMsg) → Begins bytes msg after → IsFit msg × HasId msg }
    ensures heard { (bytes : List ℕ) → IsBytes bytes → AllByRecursion (λ (msg : UserMsg). IsFit msg × HasId msg) (messages_of bytes) }
{}

/// A reply tells its length, where LEN can tell it. The daemon's reply to any control message is one.
pub fn replies_tell_their_length()
    ensures short { (ecu : List ℕ) (reply : Reply) → length ecu ≡ 4 → length (control_reply ecu reply) ≤ 65535 → TellsLen (control_reply ecu reply) }
    ensures every { (setting : Setting) (slots : ℕ → Slot) (registry : Registry) (frame : List ℕ) (answer : Done) → length setting.ecu ≡ 4 →
        TellsLen (reply_frame_to setting slots registry frame answer) }
{}

/// Each frame that a client is sent tells its length, where those do that are admitted and replied: so do the frames of a backlog
/// that is handed over, with the records of those that it refused.
pub fn streams_tell_their_lengths()
    ensures { (ecu : List ℕ) (buffer client : ℕ) (traffic : List Traffic) → length ecu ≡ 4 → AllByRecursion CarriesLen traffic →
        AllByRecursion TellsLen (sent ecu buffer client traffic) }
{}

/// What an event is for the clients carries frames that tell their lengths; so does the traffic of a journal, and goes on to do so
/// with more events.
pub fn events_tell_their_lengths()
    ensures one { (source : FrameSource) (before : List Event) (event : Event) → length source.ecu ≡ 4 → GivesLengths source before event →
        AllByRecursion CarriesLen (traffic_of source before event) }
    ensures journal { (source : FrameSource) (events : List Event) → length source.ecu ≡ 4 → EachGivesLengths source [] events →
        AllByRecursion CarriesLen (traffic source events) }
    ensures more { (source : FrameSource) (events more : List Event) → length source.ecu ≡ 4 → AllByRecursion CarriesLen (traffic source events) →
        EachGivesLengths source events more → AllByRecursion CarriesLen (traffic source (events ++ more)) }
{}
