//! Laws of the definitions that the contracts of this crate stand on.

ghost use Rattle.std.specs.Prelude.{◌≡◌, ◌↔◌, ◌≤◌, ℕ, List, ◌++◌, length, IsSome};
ghost use Rattle.dl_bytes.specs.Bytes.{IsBytes};
ghost use Rattle.dl_bytes.specs.Cutting.{Call, Runs, fed_by, given_by, AreCut};
ghost use Rattle.dl_bytes.specs.Limits.{frame_limit, message_limit};
ghost use Rattle.dl_bytes.specs.UserMessage.{HoldsMessage};
ghost use Rattle.dl_bytes.specs.declared.item.Item.{Item};
ghost use Rattle.dl_headers.specs.Message.{Message, IsMessage};
ghost use Rattle.dl_message.specs.Cut.{IsWholeMessage, IsCut, pieces, messages, rest_of, rest_fault};
ghost use Rattle.dl_message.specs.Cutting.{Cutting, Found, Begins, Stops, Does, unfed, messages_in};
ghost use Rattle.dl_message.specs.declared.cutter.Cut.{Cut};
ghost use Rattle.dl_message.specs.Frames.{log_call, log_message, overflow_report, overflow_record, IsLogCall};
ghost use Rattle.dl_message.specs.Requests.{requests};

/// A stream has one cut, so its messages don't depend on how it came.
pub fn one_cut()
    ensures some { (limit : ℕ) (stream : List ℕ) → IsCut limit stream (pieces limit stream) (rest_of limit stream) }
    ensures one { (limit : ℕ) (stream : List ℕ) (ps : List (List ℕ)) (rest : List ℕ) →
        IsCut limit stream ps rest → (ps ≡ pieces limit stream) × (rest ≡ rest_of limit stream) }
{}

/// The three ways to say that bytes are one message agree: each whole message is the spelling of some message, a message
/// by its layout is a whole one, and what a user message holds is a whole message within the limit of frames.
pub fn whole_messages()
    ensures spelled { (limit : ℕ) (bytes : List ℕ) → IsBytes bytes → IsWholeMessage limit bytes → (m : Message) × IsMessage m bytes }
    ensures whole { (limit : ℕ) (m : Message) (bytes : List ℕ) → IsMessage m bytes → m.standard.len ≤ limit → IsWholeMessage limit bytes }
    ensures held { (bytes : List ℕ) → HoldsMessage bytes ↔ IsWholeMessage frame_limit bytes }
{}

/// However the bytes came, a cutter has given the first messages of the bytes that it took and holds what stands behind
/// them. Where it gives no more, these are all messages of the bytes.
pub fn a_cutter_gives_the_cut()
    ensures so_far { (limit : ℕ) (calls : List (Call Found)) (new : Cutting) → Runs Does (unfed limit) calls new
        → AreCut (Begins limit) (fed_by calls) (given_by messages_in calls) new.unread }
    ensures whole { (limit : ℕ) (calls : List (Call Found)) (new : Cutting) (cut : Cut) → Runs Does (unfed limit) calls new
        → Stops limit new.unread cut
        → (given_by messages_in calls ≡ messages limit (fed_by calls)) × (new.unread ≡ rest_of limit (fed_by calls)) }
{}

/// A client that is cut off at any byte has sent a prefix of its requests. After a bad header it has sent all of them.
pub fn requests_of_a_prefix()
    ensures prefix { (a b : List ℕ) → (more : List (List ℕ)) × (requests (a ++ b) ≡ requests a ++ more) }
    ensures bad { (a b : List ℕ) → IsSome (rest_fault message_limit (rest_of message_limit a)) → requests (a ++ b) ≡ requests a }
{}

/// What `log_frame` and `overflow_frame` write are messages of these parts, so they are read again as the same parts.
pub fn frames_are_messages()
    ensures log { (ecu : List ℕ) (item : Item) → length ecu ≡ 4 → IsLogCall item → IsMessage (log_call ecu item) (log_message ecu item) }
    ensures overflow { (ecu apid ctid : List ℕ) (counter : ℕ) → length ecu ≡ 4 → length apid ≡ 4 → length ctid ≡ 4
        → IsMessage (overflow_report ecu apid ctid counter) (overflow_record ecu apid ctid counter) }
{}
