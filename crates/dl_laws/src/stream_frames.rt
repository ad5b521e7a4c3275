//! Laws on streams that go on: what was put into them is whole frames.

ghost use Rattle.std.specs.Prelude.{◌≡◌, ◌<◌, ℕ, false, List, [], ◌∷◌, ◌++◌, length};
ghost use Rattle.std.specs.List.{concat, list_any, range_with_len, AllByRecursion};
ghost use Rattle.dl_events.specs.declared.event.Event.{Event};
ghost use Rattle.dl_model.specs.Along.{along_from};
ghost use Rattle.dl_model.specs.Frames.{FrameSource};
ghost use Rattle.dl_model.specs.Journal as journal;
ghost use Rattle.dl_model.specs.Traffic.{Traffic, clients, comes_or_goes, is_open};
ghost use Rattle.dl_model.specs.Backlog.{size_of};
ghost use Rattle.dl_model.specs.ClientStream.{put, sent, traffic_of, traffic, stream};
ghost use Rattle.dl_laws.specs.Frames.{TellsLen};
ghost use Rattle.dl_laws.specs.FrameLengths.{CarriesLen};
ghost use Rattle.dl_laws.specs.FramesPut.{IsPut};

/// With more entries of traffic a client's stream goes on with what those put, each after all before it; with more events the
/// traffic goes on with what those are for the clients.
pub fn streams_go_on()
    ensures one { (ecu : List ℕ) (buffer client : ℕ) (traffic : List Traffic) (entry : Traffic) →
        sent ecu buffer client (traffic ++ entry ∷ []) ≡ sent ecu buffer client traffic ++ put ecu buffer client traffic entry }
    ensures more { (ecu : List ℕ) (buffer client : ℕ) (traffic more : List Traffic) →
        sent ecu buffer client (traffic ++ more) ≡ sent ecu buffer client traffic ++ along_from (put ecu buffer client) traffic more }
    ensures events { (source : FrameSource) (events more : List Event) →
        traffic source (events ++ more) ≡ traffic source events ++ along_from (traffic_of source) events more }
{}

/// What more traffic or more events put into a client's stream are frames that tell their lengths.
pub fn what_is_put_tells_its_length()
    ensures traffic { (ecu : List ℕ) (buffer client : ℕ) (traffic more : List Traffic) → length ecu ≡ 4 → AllByRecursion CarriesLen (traffic ++ more) →
        (parts : List (List ℕ)) × AllByRecursion TellsLen parts × (sent ecu buffer client (traffic ++ more) ≡ sent ecu buffer client traffic ++ parts) }
    ensures events { (source : FrameSource) (buffer client : ℕ) (events more : List Event) → length source.ecu ≡ 4 →
        AllByRecursion CarriesLen (traffic source (events ++ more)) →
        (parts : List (List ℕ)) × AllByRecursion TellsLen parts × (stream source buffer client (events ++ more) ≡ stream source buffer client events ++ parts) }
{}

/// Bytes that came behind those of the first frames are the other frames.
pub fn bytes_behind_frames()
    ensures { (frames parts : List (List ℕ)) (bytes : List ℕ) → concat (frames ++ parts) ≡ concat frames ++ bytes → bytes ≡ concat parts }
{}

/// Where the bytes of a client's stream after more traffic are those of its frames before it and these bytes, the bytes are just
/// the frames that were put, and each tells its length. So whoever cuts the bytes by the lengths that they tell has the frames.
pub fn bytes_are_the_frames_put()
    ensures traffic { (ecu : List ℕ) (buffer client : ℕ) (traffic more : List Traffic) (frames : List (List ℕ)) (bytes : List ℕ) →
        length ecu ≡ 4 → AllByRecursion CarriesLen (traffic ++ more) → frames ≡ sent ecu buffer client traffic →
        concat (sent ecu buffer client (traffic ++ more)) ≡ concat frames ++ bytes →
        IsPut frames bytes (sent ecu buffer client (traffic ++ more)) }
    ensures events { (source : FrameSource) (buffer client : ℕ) (events more : List Event) (frames : List (List ℕ)) (bytes : List ℕ) →
        length source.ecu ≡ 4 → AllByRecursion CarriesLen (traffic source (events ++ more)) → frames ≡ stream source buffer client events →
        concat (stream source buffer client (events ++ more)) ≡ concat frames ++ bytes →
        IsPut frames bytes (stream source buffer client (events ++ more)) }
{}

/// The bytes of frames together are as many as those of each, added up.
pub fn bytes_of_frames()
    ensures { (frames : List (List ℕ)) → length (concat frames) ≡ size_of frames }
{}

/// A client that is not there is put nothing, as long as it doesn't come; nor is one by the event after which it isn't there. One
/// whose number is above those of the clients that came isn't there, and has no stream yet.
pub fn who_is_not_there_is_put_nothing()
    ensures traffic { (ecu : List ℕ) (buffer client : ℕ) (traffic more : List Traffic) → is_open client traffic ≡ false →
        list_any (comes_or_goes client) more ≡ false → sent ecu buffer client (traffic ++ more) ≡ sent ecu buffer client traffic }
    ensures events { (source : FrameSource) (buffer client : ℕ) (events more : List Event) → is_open client (traffic source events) ≡ false →
        list_any (journal.comes_or_goes client) more ≡ false → stream source buffer client (events ++ more) ≡ stream source buffer client events }
    ensures after { (source : FrameSource) (buffer client : ℕ) (events : List Event) (event : Event) →
        is_open client (traffic source (events ++ event ∷ [])) ≡ false →
        stream source buffer client (events ++ event ∷ []) ≡ stream source buffer client events }
    ensures not_yet { (ecu : List ℕ) (buffer client count : ℕ) (traffic : List Traffic) → clients traffic ≡ range_with_len 1 count →
        count < client → (is_open client traffic ≡ false) × (sent ecu buffer client traffic ≡ []) }
{}
