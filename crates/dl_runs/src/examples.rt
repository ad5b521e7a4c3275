//! Examples of whole runs: what the definitions give for small scripts.
#![tactic(auto, unfolding(dl_script_model::specs::Steps::changes, dl_control::specs::Reading::request_of, dl_control::specs::Reading::log_level_at, dl_control::specs::Reading::default_level_at, dl_control::specs::Reading::injection_of, dl_control::specs::Reading::body_at))]

ghost use Rattle.std.specs.Prelude.{◌≡◌, ℕ, List, [], ◌∷◌, ◌++◌, codes, map, drop, replicate, count_by, Option, Some, None, negsuc, true, false};
ghost use Rattle.std.specs.Option.{option_map};
ghost use Rattle.dl_bytes.specs.declared.level.Severity.TheVariants.{Debug, Fatal, Info};
ghost use Rattle.dl_bytes.specs.declared.moment.Moment.{Moment};
ghost use Rattle.dl_bytes.specs.declared.user.UserMsg.TheVariants.{Overflow, RegisterApp, RegisterContext};
ghost use Rattle.dl_events.specs.declared.event.Event.TheVariants as event;
ghost use Rattle.dl_script_model.specs.declared.step.Step.TheVariants.{Call, Connect, Close, Level, Levels, Bytes, Inject};
ghost use Rattle.dl_script_model.specs.declared.step.LevelEvents.TheVariants.{Later, Now};
ghost use Rattle.dl_model.specs.Accounts.{claims};
ghost use Rattle.dl_model.specs.RegistryExamples.{hex, defaults, query, id};
ghost use Rattle.dl_events.specs.declared.event.Event.TheVariants.{User};
ghost use Rattle.dl_model.specs.Journal.{is_connect, registry_of};
ghost use Rattle.dl_model.specs.Registry.{context_named};
ghost use Rattle.dl_script_model.specs.Steps.{loaded, run};
ghost use Rattle.dl_script_model.specs.Replay.{printed, source_of, stream_of};
ghost use Rattle.dl_model.specs.Frames.{frames_of, stored_frames};
ghost use Rattle.dl_model.specs.Overflow.{counters};
ghost use Rattle.dl_model.specs.TraceFiles.{is_spent, trace_files};
ghost use Rattle.dl_script_model.specs.Marks.{records_of, journal};
ghost use Rattle.dl_bytes.specs.declared.outcome.Done.TheVariants.{Yes, Failed};
ghost use Rattle.dl_events.specs.declared.record.Answer.TheVariants.{Filtered, Queued, Lost};
ghost use Rattle.dl_runs.specs.Scripts.{frame_of, status_reply, waiting_script, two_frames, full_buffer_script, store_script, channel_script, log_info, one_writer, log_filled, small_files, file_four, version, injection, injections_script, ask, call_info, later_script, two_clients_script, full_ring_script, between_script, with_level, loaded_level, text, call_line, two_levels_script, calls_that_passed, clocked_script, claimed_script, same_context_script, waiting_claim_script};

/// A client that is there hears a call, and leaves.
pub fn one_call()
    ensures stream { stream_of defaults (run defaults [] (one_writer 16 ++ Connect ∷ log_info 100 (codes "hi") ∷ Close 1 ∷ [])) 1
        ≡ hex (codes "3D 00 00 23 45 43 55 31 00 00 00 01 00 00 00 64 41 01 4C 4F 47 31 54 45 53 54 00 82 00 00 03 00 68 69 00") ∷ [] }
    ensures report { printed defaults [] [] true (one_writer 16 ++ Connect ∷ log_info 100 (codes "hi") ∷ Close 1 ∷ [])
        ≡ codes "client 1 left 1 35 complete\n3D 00 00 23 45 43 55 31 00 00 00 01 00 00 00 64 41 01 4C 4F 47 31 54 45 53 54 00 82 00 00 03 00 68 69 00\napp LOG1 calls 1 queued 1 filtered 0 lost 0 reported 0\n" }
{}

/// A client is handed what waited for it, and no overflow record.
pub fn waits_for_a_client()
    ensures { stream_of defaults (run defaults [] waiting_script) 1
        ≡ frame_of 0 1 (codes "a") ∷ frame_of 1 2 (codes "b") ∷ frame_of 2 3 (codes "c") ∷ frame_of 3 4 (codes "d") ∷ [] }
{}

/// The second client, which comes while the first is there, is handed nothing.
pub fn two_clients()
    ensures first { stream_of defaults (run defaults [] two_clients_script) 1
        ≡ frame_of 0 1 (codes "z") ∷ frame_of 1 1 (codes "a") ∷ frame_of 2 1 (codes "b") ∷ [] }
    ensures second { stream_of defaults (run defaults [] two_clients_script) 2
        ≡ frame_of 2 1 (codes "b") ∷ [] }
{}

/// A ring that holds one call: the second call is lost, and the daemon tells it at the end.
pub fn a_full_ring()
    ensures answers { map (λ r. r.answer) (records_of 1 (run defaults [] full_ring_script)) ≡ Queued ∷ Lost ∷ Queued ∷ [] }
    ensures stream { stream_of defaults (run defaults [] full_ring_script) 1
        ≡ frame_of 0 1 (codes "a") ∷ frame_of 2 3 (codes "c") ∷ hex (codes "25 00 00 1C 45 43 55 31 26 01 4C 4F 47 31 00 00 00 00 14 00 00 00 00 01 01 00 00 00") ∷ [] }
{}

/// A level that changes between the load and the push of a call doesn't count for it; the next call loads the new one.
pub fn a_level_between_load_and_push()
    ensures versions { map loaded_level (records_of 1 (run defaults [] between_script)) ≡ with_level Queued 1 4 ∷ with_level Filtered 2 3 ∷ [] }
    ensures stream { stream_of defaults (run defaults [] between_script) 1
        ≡ status_reply 1 0 ∷ frame_of 0 1 (codes "a") ∷ [] }
{}

/// A buffer of 70 bytes holds two frames of 34: the third is refused, and the fourth with it, though it is smaller.
pub fn a_full_buffer()
    ensures { stream_of two_frames (run two_frames [] full_buffer_script) 1
        ≡ frame_of 0 1 (codes "a") ∷ frame_of 1 1 (codes "b") ∷ hex (codes "25 00 00 1C 45 43 55 31 26 01 44 41 31 00 44 43 31 00 14 00 00 00 00 01 02 00 00 00") ∷ [] }
{}

/// Nine stored frames of 500 bytes in files of 2000, of which 4000 bytes may stand: the first file went when the third
/// began.
pub fn trace_files_rotate()
    ensures { printed small_files [] [] false (one_writer 16 ++ replicate 9 (log_filled 451))
        ≡ codes "backlog 9 4356 0\napp LOG1 calls 9 queued 9 filtered 0 lost 0 reported 0\nfile trace/dlt_offlinetrace.000002.dlt 2000\nfile trace/dlt_offlinetrace.000003.dlt 500\n" }
{}

/// The same where file 4 of an earlier run stands, with 1500 bytes: this run's files have the numbers behind it, and it
/// goes when it has no room.
pub fn earlier_files_stand()
    ensures two { printed small_files [] (file_four ∷ []) false (one_writer 16 ++ replicate 2 (log_filled 451))
        ≡ codes "backlog 2 968 0\napp LOG1 calls 2 queued 2 filtered 0 lost 0 reported 0\nfile trace/dlt_offlinetrace.000004.dlt 1500\nfile trace/dlt_offlinetrace.000005.dlt 1000\n" }
    ensures nine { printed small_files [] (file_four ∷ []) false (one_writer 16 ++ replicate 9 (log_filled 451))
        ≡ codes "backlog 9 4356 0\napp LOG1 calls 9 queued 9 filtered 0 lost 0 reported 0\nfile trace/dlt_offlinetrace.000006.dlt 2000\nfile trace/dlt_offlinetrace.000007.dlt 500\n" }
    ensures none { printed small_files [] (file_four ∷ []) false [] ≡ codes "file trace/dlt_offlinetrace.000004.dlt 1500\n" }
{}

/// A bad header behind a request: the request is served, and then the client is closed.
pub fn a_malformed_client()
    ensures { stream_of defaults (run defaults [] (one_writer 16 ++ Connect ∷ Bytes 1 (query version ++ hex (codes "41 00 00 04")) ∷ ask version ∷ [])) 1
        ≡ hex (codes "25 00 00 24 45 43 55 31 26 01 44 41 31 00 44 43 31 00 13 00 00 00 00 09 00 00 00 64 6C 74 5F 72 75 6E 20 31") ∷ [] }
{}

/// Where Level events wait, the new level counts from the event before which it is handed out: the call that was loaded
/// in between holds the old one.
pub fn level_events_wait()
    ensures later { map loaded_level (records_of 1 (run defaults [] (later_script ++ call_info 1 (codes "a") ∷ Level ∷ call_info 2 (codes "b") ∷ [])))
        ≡ with_level Queued 1 4 ∷ with_level Filtered 2 3 ∷ [] }
    ensures now { map loaded_level (records_of 1 (run defaults [] (later_script ++ Levels Now ∷ call_info 1 (codes "a") ∷ Connect ∷ call_info 2 (codes "b") ∷ [])))
        ≡ with_level Queued 1 4 ∷ with_level Filtered 2 3 ∷ [] }
{}

/// An application on a channel of its own registers, and logs a message of its own; four other bytes end the channel.
#[tactic(auto, unfolding(dl_script_model::specs::Steps::changes, dl_user::specs::Reading::limited_at, dl_user::specs::Reading::inner_len, dl_user::specs::Reading::log_at, dl_user::specs::Reading::register_app_at, dl_user::specs::Reading::fields_at, dl_user::specs::Reading::kind_at, dl_user::specs::Reading::message_at, dl_user::specs::Fields::app_at))]
pub fn a_user_channel()
    ensures { stream_of defaults (run defaults [] channel_script) 1
        ≡ hex (codes "20 00 00 05 AA") ∷ [] }
{}

/// A Store and a Reset, where the folder does the one and fails at the other: the replies say so, and the own level of
/// the context stays.
pub fn a_folder_that_fails()
    ensures { stream_of defaults (run defaults (Yes ∷ Failed ∷ []) store_script) 1
        ≡ status_reply 5 0 ∷ status_reply 6 2 ∷ frame_of 0 1 (codes "a") ∷ [] }
{}

/// The ninth client is refused while eight are open, and taken once one of them has gone.
pub fn nine_clients()
    ensures full { count_by is_connect (journal (run defaults [] (replicate 9 Connect))) ≡ 8 }
    ensures room { count_by is_connect (journal (run defaults [] (replicate 9 Connect ++ Close 3 ∷ Connect ∷ []))) ≡ 9 }
{}

/// The queue of an application takes 16 injections; the next one is refused until the application takes one out.
pub fn injections_wait()
    ensures full { drop 16 (stream_of defaults (run defaults [] (injections_script ++ replicate 17 injection)) 1)
        ≡ status_reply 0xfff 2 ∷ [] }
    ensures taken { drop 16 (stream_of defaults (run defaults [] (injections_script ++ replicate 16 injection ++ Inject (id (codes "LOG1")) ∷ injection ∷ [])) 1)
        ≡ status_reply 0xfff 0 ∷ [] }
{}

/// Two contexts of one application have slots and levels of their own: the same call passes in the one and is filtered in the other.
pub fn two_levels_of_one_application()
    ensures levels { map loaded_level (records_of 1 (run defaults [] two_levels_script)) ≡ with_level Queued 1 5 ∷ with_level Filtered 1 2 ∷ [] }
    ensures slots { map (λ r. r.slot) (records_of 1 (run defaults [] two_levels_script)) ≡ 1 ∷ 0 ∷ [] }
{}

/// Before the first Level event of its slot a call holds level 0, of version 0, which lets nothing through.
pub fn before_the_first_level()
    ensures { map loaded_level (records_of 1 (run defaults [] (Levels Later ∷ one_writer 16 ++ Call (call_line Fatal 1 (text [])) ∷ Level ∷ call_info 1 [] ∷ [])))
        ≡ with_level Filtered 0 0 ∷ with_level Queued 1 4 ∷ [] }
{}

/// A context that a writer claims: until the daemon has taken the claim its slot has level 0, and its calls are filtered. Then it has the
/// level that it asked for.
pub fn a_claimed_context()
    ensures levels { map loaded_level (records_of 1 (run defaults [] claimed_script)) ≡ with_level Filtered 0 0 ∷ with_level Queued 1 5 ∷ [] }
    ensures slots { map (λ r. r.slot) (records_of 1 (run defaults [] claimed_script)) ≡ 1 ∷ 1 ∷ [] }
    ensures report { printed defaults [] [] true claimed_script
        ≡ codes "client 1 stopped 1 34 complete\n3D 00 00 22 45 43 55 31 00 00 00 01 00 00 00 02 51 01 4C 4F 47 31 43 54 58 32 00 82 00 00 02 00 62 00\napp LOG1 calls 2 queued 1 filtered 1 lost 0 reported 0\n" }
{}

/// Two writers claim places for one context: both places get the level of the first claim.
pub fn two_claims_of_one_context()
    ensures first { map loaded_level (records_of 1 (run defaults [] same_context_script)) ≡ with_level Queued 1 4 ∷ [] }
    ensures second { map loaded_level (records_of 2 (run defaults [] same_context_script)) ≡ with_level Queued 1 4 ∷ [] }
    ensures places { map (λ claim. claim.place) (claims 0 (journal (run defaults [] same_context_script))) ≡ 0 ∷ 1 ∷ [] }
    ensures report { printed defaults [] [] false same_context_script
        ≡ codes "backlog 2 68 0\napp LOG1 calls 2 queued 2 filtered 0 lost 0 reported 0\n" }
{}

/// A claim that the ring refuses waits, and is the first when the writer announces again.
pub fn a_claim_waits()
    ensures { map (λ claim. claim.ctid) (claims 0 (journal (run defaults [] waiting_claim_script))) ≡ id (codes "AAAA") ∷ id (codes "BBBB") ∷ [] }
{}

/// The message counter of a call has one byte: behind 256 calls that passed their level it is 0 again, and the call's number is 257.
pub fn counters_begin_again()
    ensures last { option_map (λ c. c.item.mcnt) (loaded defaults (call_line Info 1 (text [])) (calls_that_passed 255)) ≡ Some 255 }
    ensures again { option_map (λ c. c.item.mcnt) (loaded defaults (call_line Info 1 (text [])) (calls_that_passed 256)) ≡ Some 0 }
    ensures number { option_map (λ c. c.item.call) (loaded defaults (call_line Info 1 (text [])) (calls_that_passed 256)) ≡ Some 257 }
{}

/// A call that is filtered, one that a ring of one call takes, and two that are lost: the report adds them up.
pub fn a_report_adds_up()
    ensures { printed defaults [] [] false (one_writer 1 ++ Call (call_line Debug 1 (text [])) ∷ call_info 1 (codes "a") ∷ call_info 2 (codes "b") ∷ call_info 3 (codes "c") ∷ [])
        ≡ codes "backlog 2 62 0\napp LOG1 calls 4 queued 1 filtered 1 lost 2 reported 2\n" }
{}

/// A buffer of 70 bytes that keeps two frames of 34 and refuses a third, and nobody who comes: what is left says so.
pub fn nobody_comes()
    ensures { printed two_frames [] [] false (one_writer 16 ++ log_info 1 (codes "a") ∷ log_info 2 (codes "b") ∷ log_info 3 (codes "c") ∷ [])
        ≡ codes "backlog 2 68 1\napp LOG1 calls 3 queued 3 filtered 0 lost 0 reported 0\n" }
{}

/// A stored frame: the pattern, the moment with the lowest bytes first, the control unit, and the message.
pub fn one_stored_frame()
    ensures { stored_frames (source_of defaults (run defaults [] clocked_script)) (journal (run defaults [] clocked_script))
        ≡ hex (codes "44 4C 54 01 01 00 00 00 02 01 00 00 45 43 55 31 3D 00 00 22 45 43 55 31 00 00 00 01 00 00 00 01 41 01 4C 4F 47 31 54 45 53 54 00 82 00 00 02 00 61 00") ∷ [] }
{}

/// What an application on a channel of its own tells of lost messages is an overflow record with its APID. One record counts up to
/// 4,294,967,295; one more makes two records.
pub fn overflow_records()
    ensures user { (at : Moment) → frames_of (source_of defaults []) (event.User 1 (Overflow 5 (id (codes "LOG2"))) at)
        ≡ hex (codes "25 00 00 1C 45 43 55 31 26 01 4C 4F 47 32 00 00 00 00 14 00 00 00 00 01 05 00 00 00") ∷ [] }
    ensures two { counters 4294967296 ≡ 4294967295 ∷ 1 ∷ [] }
    ensures most { counters 4294967295 ≡ 4294967295 ∷ [] }
{}

/// The last file that has a name is used, and a frame that needs another one behind it ends the trace.
pub fn the_last_number()
    ensures used { trace_files 8 100 (record { number = 999998; bytes = 1 ∷ 2 ∷ 3 ∷ 4 ∷ 5 ∷ [] } ∷ []) ((6 ∷ 7 ∷ 8 ∷ 9 ∷ []) ∷ [])
        ≡ record { number = 999998; bytes = 1 ∷ 2 ∷ 3 ∷ 4 ∷ 5 ∷ [] } ∷ record { number = 999999; bytes = 6 ∷ 7 ∷ 8 ∷ 9 ∷ [] } ∷ [] }
    ensures goes_on { is_spent 8 (record { number = 999998; bytes = 1 ∷ 2 ∷ 3 ∷ 4 ∷ 5 ∷ [] } ∷ []) ((6 ∷ 7 ∷ 8 ∷ 9 ∷ []) ∷ []) ≡ false }
    ensures ends { is_spent 8 (record { number = 999999; bytes = 1 ∷ 2 ∷ 3 ∷ 4 ∷ 5 ∷ [] } ∷ []) ((6 ∷ 7 ∷ 8 ∷ 9 ∷ []) ∷ []) ≡ true }
{}

/// A context that registers again is at its new position from then on.
pub fn registers_at_another_position()
    ensures { (at : Moment) → option_map (λ found. found.1.position)
        (context_named (registry_of defaults (User 1 (RegisterApp (id (codes "APP1")) 0 []) at
        ∷ User 1 (RegisterContext (id (codes "APP1")) (id (codes "CTX1")) 3 None (negsuc 0) 0 []) at
        ∷ User 1 (RegisterContext (id (codes "APP1")) (id (codes "CTX1")) 5 None (negsuc 0) 0 []) at ∷ [])) (id (codes "APP1")) (id (codes "CTX1")))
        ≡ Some 5 }
{}
