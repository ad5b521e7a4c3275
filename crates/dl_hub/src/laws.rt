//! Laws of the hub's state, over all traffic.

ghost use Rattle.std.specs.Prelude.{◌≡◌, ◌≤◌, ℕ, List, IsSomeAnd, length, map};
ghost use Rattle.dl_model.specs.Traffic.{Traffic};
ghost use Rattle.dl_model.specs.ClientStream.{sent};
ghost use Rattle.dl_hub.specs.Untaken.{Outgoing, outgoing};
ghost use Rattle.dl_hub.specs.State.{bytes_before, changed, outbox_of, without};
ghost use Rattle.dl_hub.specs.State as state;
ghost use Rattle.dl_hub.specs.Follows.{IsAfter, took_more};

/// Where a link takes bytes from the front of its client's outbox, the hub stands for the same traffic as before, with
/// those bytes behind what the link had taken: nothing is lost, and nothing sent twice.
pub fn what_links_take()
    ensures { (count number : ℕ) (traffic : List Traffic) (taken : ℕ → List ℕ) (hub : state.Hub) → IsAfter traffic taken hub
        → IsSomeAnd (outbox_of hub number) (λ outbox. count ≤ length outbox.bytes)
        → IsAfter traffic (took_more taken number (bytes_before count (outbox_of hub number))) (changed number (without count) hub) }
{}

/// What is said of a client's stream with its messages is said of the frames that it is sent: they are the same, in the same order.
pub fn frames_of_a_stream()
    ensures { (ecu : List ℕ) (buffer client : ℕ) (traffic : List Traffic) → map (λ (item : Outgoing). item.frame) (outgoing ecu buffer client traffic) ≡ sent ecu buffer client traffic }
{}
