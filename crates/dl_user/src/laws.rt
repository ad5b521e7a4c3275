//! Laws of user messages and of their cutting, each as what a function that does nothing ensures.

ghost use Rattle.std.specs.Prelude.{◌≡◌, List, ℕ, ◌++◌};
ghost use Rattle.dl_bytes.specs.Bytes.{IsBytes};
ghost use Rattle.dl_bytes.specs.Cutting.{Call, Runs, fed_by, given_by, AreCut};
ghost use Rattle.dl_bytes.specs.declared.user.UserMsg.{UserMsg};
ghost use Rattle.dl_user.specs.declared.fault.UserFault.{UserFault};
ghost use Rattle.dl_user.specs.declared.fault.Stop.{Stop};
ghost use Rattle.dl_user.specs.Faults.{ProvesFault};
ghost use Rattle.dl_user.specs.Cut.{IsSpelled, Begins, Stops, IsCut, messages_of, rest_of};
ghost use Rattle.dl_user.specs.Channel.{Channel, unfed};
ghost use Rattle.dl_user.specs.declared.cutter.UserCut.{UserCut};
ghost use Rattle.dl_user.specs.Cutter.{Does, messages_in};

/// No spelling of a user message begins another one.
pub fn no_spelling_begins_another()
    ensures { (a b x y : List ℕ) (m n : UserMsg) → IsSpelled a m → IsSpelled b n → a ++ x ≡ b ++ y
        → (a ≡ b) × (m ≡ n) }
{}

/// Bytes that begin with a message show no fault, whatever follows it. So what was written is given again.
pub fn a_message_shows_no_fault()
    ensures { (bytes after : List ℕ) (msg : UserMsg) (fault : UserFault) → Begins bytes msg after → ProvesFault bytes fault → ⊥ }
{}

/// Bytes that show a fault show this one alone.
pub fn there_is_one_fault()
    ensures { (bytes : List ℕ) (f g : UserFault) → ProvesFault bytes f → ProvesFault bytes g → f ≡ g }
{}

/// Bytes that show a fault show it whatever follows them. So they become no message.
pub fn a_fault_stays()
    ensures { (bytes more : List ℕ) (fault : UserFault) → ProvesFault bytes fault → ProvesFault (bytes ++ more) fault }
{}

/// The bytes of a channel have one cut, so its messages don't depend on how the bytes came.
pub fn there_is_one_cut()
    ensures some { (bytes : List ℕ) → IsBytes bytes
        → (stop : Stop) × IsCut bytes (messages_of bytes) (rest_of bytes) stop }
    ensures one { (bytes : List ℕ) (ms ns : List UserMsg) (x y : List ℕ) (s t : Stop) →
        IsCut bytes ms x s → IsCut bytes ns y t → (ms ≡ ns) × (x ≡ y) × (s ≡ t) }
{}

/// With more bytes the messages stay and others may follow. After a fault none does.
pub fn a_cut_goes_on()
    ensures more { (a b : List ℕ) → IsBytes (a ++ b) → (messages_of (a ++ b) ≡ messages_of a ++ messages_of (rest_of a ++ b))
        × (rest_of (a ++ b) ≡ rest_of (rest_of a ++ b)) }
    ensures bad { (a b : List ℕ) (fault : UserFault) → IsBytes (a ++ b) → ProvesFault (rest_of a) fault
        → messages_of (a ++ b) ≡ messages_of a }
{}

/// However the bytes came, a cutter has given the first messages of the bytes that it took and holds what is behind
/// them, and where it gives no more this is their cut.
pub fn a_cutter_gives_the_cut()
    ensures so_far { (calls : List (Call UserCut)) (new : Channel) → Runs Does unfed calls new
        → AreCut Begins (fed_by calls) (given_by messages_in calls) new.unread }
    ensures whole { (calls : List (Call UserCut)) (new : Channel) (stop : Stop) → Runs Does unfed calls new
        → Stops new.unread stop → IsCut (fed_by calls) (given_by messages_in calls) new.unread stop }
{}
