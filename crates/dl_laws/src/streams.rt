//! Laws on client streams and the backlog.

ghost use Rattle.std.specs.Prelude.{◌≡◌, ◌≤◌, ◌<◌, ◌+◌, ℕ, true, nat_le, List, [], ◌∷◌, ◌++◌, length, sum, if◌then◌else◌};
ghost use Rattle.std.specs.List.{filter_map};
ghost use Rattle.dl_events.specs.declared.event.Event.{Event};
ghost use Rattle.dl_model.specs.Frames.{FrameSource, admitted};
ghost use Rattle.dl_model.specs.Overflow.{counters};
ghost use Rattle.dl_model.specs.Traffic.{Traffic, Connected, Admitted, Reply, Closed, is_coming, comes_or_goes, meant_for, admitted_in, is_open, is_any_open};
ghost use Rattle.dl_model.specs.Backlog.{size_of, waiting, fitting, refused, due_backlog};
ghost use Rattle.dl_model.specs.ClientStream.{put, sent, traffic_of, traffic};
ghost use Rattle.dl_laws.specs.OneStay.{ComesOnce};

/// With one entry of traffic more, a client's stream goes on with what the entry puts, and nothing in it changes.
pub fn streams_go_on()
    ensures { (ecu : List ℕ) (buffer client : ℕ) (traffic : List Traffic) (entry : Traffic) →
        sent ecu buffer client (traffic ++ entry ∷ []) ≡ sent ecu buffer client traffic ++ put ecu buffer client traffic entry }
{}

/// Who is open after one entry more: the client that came is, the client that went isn't, all others are as before.
pub fn open_after_one_more()
    ensures { (client : ℕ) (traffic : List Traffic) (entry : Traffic) →
        is_open client (traffic ++ entry ∷ []) ≡ (if comes_or_goes client entry then is_coming entry else is_open client traffic) }
{}

/// Somebody is open exactly where a client is.
pub fn somebody_is_open()
    ensures one { (traffic : List Traffic) → is_any_open traffic ≡ true → (client : ℕ) × (is_open client traffic ≡ true) }
    ensures any { (traffic : List Traffic) (client : ℕ) → is_open client traffic ≡ true → is_any_open traffic ≡ true }
{}

/// The traffic of a journal admits the frames that its events admit, in their order; with one event more it goes on with
/// what that event is for the clients.
pub fn traffic_of_journals()
    ensures admits { (source : FrameSource) (events : List Event) → admitted_in (traffic source events) ≡ admitted source events }
    ensures one_more { (source : FrameSource) (events : List Event) (event : Event) →
        traffic source (events ++ event ∷ []) ≡ traffic source events ++ traffic_of source events event }
{}

/// What waits after one entry more: nothing where a client came or went, one frame more where nobody is open.
pub fn waiting_after_one_more()
    ensures comes { (client : ℕ) (traffic : List Traffic) → waiting (traffic ++ Connected client ∷ []) ≡ [] }
    ensures goes { (client : ℕ) (traffic : List Traffic) → waiting (traffic ++ Closed client ∷ []) ≡ [] }
    ensures reply { (client : ℕ) (frame : List ℕ) (traffic : List Traffic) → waiting (traffic ++ Reply client frame ∷ []) ≡ waiting traffic }
    ensures admit { (frame : List ℕ) (traffic : List Traffic) →
        waiting (traffic ++ Admitted frame ∷ []) ≡ (if is_any_open traffic then [] else waiting traffic ++ frame ∷ []) }
{}

/// What a buffer keeps of one frame more: that too where all of it fits, else what it kept before.
pub fn fitting_after_one_more()
    ensures { (limit : ℕ) (frames : List (List ℕ)) (frame : List ℕ) → fitting limit (frames ++ frame ∷ [])
        ≡ (if nat_le (size_of (frames ++ frame ∷ [])) limit then frames ++ frame ∷ [] else fitting limit frames) }
{}

/// The backlog accounts for each frame that waits: it is kept, or it is counted as refused. What is kept is a prefix that
/// has room, and the next frame has none. The counters of the overflow records add up to the frames refused.
pub fn backlog_accounts()
    ensures prefix { (limit : ℕ) (frames : List (List ℕ)) → (others : List (List ℕ)) × (frames ≡ fitting limit frames ++ others) }
    ensures room { (limit : ℕ) (frames : List (List ℕ)) → size_of (fitting limit frames) ≤ limit }
    ensures longest { (limit : ℕ) (frames others : List (List ℕ)) (frame : List ℕ) →
        frames ≡ fitting limit frames ++ frame ∷ others → limit < size_of (fitting limit frames) + length frame }
    ensures counted { (limit : ℕ) (frames : List (List ℕ)) → length (fitting limit frames) + refused limit frames ≡ length frames }
    ensures counters { (n : ℕ) → sum (counters n) ≡ n }
{}

/// Nothing is refused while there is room: frames that have room together are all kept, and a client is handed just these.
pub fn nothing_is_refused_while_there_is_room()
    ensures kept { (limit : ℕ) (frames : List (List ℕ)) → size_of frames ≤ limit → fitting limit frames ≡ frames }
    ensures none { (limit : ℕ) (frames : List (List ℕ)) → size_of frames ≤ limit → refused limit frames ≡ 0 }
    ensures due { (ecu : List ℕ) (limit : ℕ) (frames : List (List ℕ)) → size_of frames ≤ limit → due_backlog ecu limit frames ≡ frames }
{}

/// A whole stay of a client, which comes once: its stream is what waited, and then all that was admitted until it went,
/// with its replies where they were put. Nothing is left out.
pub fn unbroken()
    ensures { (ecu : List ℕ) (buffer client : ℕ) (before middle after : List Traffic) →
        ComesOnce client before middle after →
        sent ecu buffer client (before ++ Connected client ∷ (middle ++ Closed client ∷ after))
        ≡ due_backlog ecu buffer (waiting before) ++ filter_map (meant_for client) middle }
{}
