//! Laws of the definitions: what the text says of a message, that it goes on, and that its gaps are the calls that were
//! lost.

ghost use Rattle.std.specs.Prelude.{◌≡◌, ℕ, List, ◌++◌, map};
ghost use Rattle.std.specs.List.{concat, AllByRecursion};
ghost use Rattle.dl_headers.specs.Message.{Message, IsMessage};
ghost use Rattle.dl_message.specs.Cut.{IsWholeMessage};
ghost use Rattle.dl_model.specs.Backlog.{refused};
ghost use Rattle.dl_model.specs.ClientStream.{stream};
ghost use Rattle.dl_receive.specs.Counting.{entry_of};
ghost use Rattle.dl_receive.specs.declared.counting.Counting.{Counting};
ghost use Rattle.dl_receive.specs.Laws.{GapsAreLostCalls, HearsFromComing, HearsWithBacklog};
ghost use Rattle.dl_receive.specs.MessageKind.{kind_in, kind_of};
ghost use Rattle.dl_receive.specs.Text.{len_limit, received, text_of};

/// What is read of a message's bytes are the fields of the message that they spell.
pub fn read_by_layout()
    ensures { (m : Message) (bytes : List ℕ) → IsMessage m bytes → kind_of bytes ≡ kind_in m }
{}

/// Messages that are sent one behind another, as the daemon sends its frames, print as themselves.
pub fn frames_print()
    ensures { (by : Counting) (frames : List (List ℕ)) → AllByRecursion (IsWholeMessage len_limit) frames → received by (concat frames) ≡ text_of (map (entry_of by) frames) }
{}

/// With more bytes the text goes on, and nothing in it changes.
pub fn text_goes_on()
    ensures { (by : Counting) (stream more : List ℕ) → (lines : List ℕ) × (received by (stream ++ more) ≡ received by stream ++ lines) }
{}

/// A client hears all that is admitted while it is there. It hears from where it came on; and where nobody was there
/// before it and the backlog refused nothing, from where the backlog began.
pub fn heard_whole()
    ensures listening { HearsFromComing }
    ensures waited { HearsWithBacklog }
{}

/// Of two log messages of a writer that a client hears, one after the other, the gap before the second is the number of
/// the writer's calls that were lost between them. The records count each call's message counter, and the journal admits
/// the calls that the ring took in their order.
pub fn gaps_are_lost_calls()
    ensures { GapsAreLostCalls }
{}
