//! Laws of requests, over the definitions.

ghost use Rattle.std.specs.Prelude.{◌≡◌, ◌≢◌, ℕ, List, Result};
ghost use Rattle.dl_bytes.specs.declared.outcome.Done.{Done};
ghost use Rattle.dl_bytes.specs.declared.outcome.Done.TheVariants as done;
ghost use Rattle.dl_control.specs.declared.request.Request.{Request};
ghost use Rattle.dl_control.specs.declared.request.RequestFault.{RequestFault};
ghost use Rattle.dl_model.specs.declared.registry.Slot.{Slot};
ghost use Rattle.dl_model.specs.Registry.{Registry};
ghost use Rattle.dl_model.specs.Reply.{need_of, reply_to, served};
ghost use Rattle.dl_model.specs.Setting.{Setting};
ghost use Rattle.dl_services.specs.Wish.{wanted, needed};
ghost use Rattle.dl_services.specs.declared.wish.Want.TheVariants as want;

/// What a request wants is what it needs by the definition: of the folder, or of the queue of the same application.
pub fn wants_are_needs()
    ensures { (setting : Setting) (slots : ℕ → Slot) (registry : Registry) (apid ctid : List ℕ) (request : Result Request RequestFault) →
        need_of setting slots registry apid ctid request ≡ needed (wanted setting slots registry apid ctid request) }
{}

/// Where a request wants nothing, it makes no difference to the registry or the reply what came of it.
pub fn answers_count_where_something_is_wanted()
    ensures registry { (setting : Setting) (slots : ℕ → Slot) (registry : Registry) (apid ctid : List ℕ) (request : Result Request RequestFault) (one other : Done) →
        wanted setting slots registry apid ctid request ≡ want.Nothing → served setting slots registry request one ≡ served setting slots registry request other }
    ensures reply { (setting : Setting) (slots : ℕ → Slot) (registry : Registry) (apid ctid : List ℕ) (request : Result Request RequestFault) (one other : Done) →
        wanted setting slots registry apid ctid request ≡ want.Nothing → reply_to setting slots registry apid ctid request one ≡ reply_to setting slots registry apid ctid request other }
{}

/// Where a request wants something that was not done, the registry stays as it was, and the status tells it.
pub fn what_was_not_done_changes_nothing()
    ensures registry { (setting : Setting) (slots : ℕ → Slot) (registry : Registry) (apid ctid : List ℕ) (request : Result Request RequestFault) (answer : Done) →
        wanted setting slots registry apid ctid request ≢ want.Nothing → answer ≢ done.Yes → served setting slots registry request answer ≡ registry }
    ensures status { (setting : Setting) (slots : ℕ → Slot) (registry : Registry) (apid ctid : List ℕ) (request : Result Request RequestFault) (answer : Done) →
        wanted setting slots registry apid ctid request ≢ want.Nothing → answer ≢ done.Yes → (reply_to setting slots registry apid ctid request answer).status ≢ 0 }
{}
