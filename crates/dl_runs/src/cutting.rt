//! Laws on bytes that come in pieces: what a run comes to doesn't depend on how its bytes were cut.

ghost use Rattle.std.specs.Prelude.{ℕ, List};
ghost use Rattle.std.specs.List.{AllByRecursion};
ghost use Rattle.dl_bytes.specs.Bytes.{IsBytes};
ghost use Rattle.dl_bytes.specs.declared.outcome.Done.{Done};
ghost use Rattle.dl_script_model.specs.declared.step.Step.TheVariants.{Bytes, User};
ghost use Rattle.dl_model.specs.Setting.{Setting};
ghost use Rattle.dl_runs.specs.SameRuns.{ComeToTheSame, Cut, HoldsBytes, in_lines, in_one_line, pieces_of};

/// The bytes of a client come to the same in one line and in any lines next to each other.
pub fn cut_requests_come_to_the_same()
    ensures { (setting : Setting) (answers : List Done) (client : ℕ) (cut : Cut) →
        ComeToTheSame setting answers (in_one_line (Bytes client) cut) (in_lines (Bytes client) cut) }
{}

/// So do the bytes of a channel of user messages.
pub fn cut_messages_come_to_the_same()
    ensures { (setting : Setting) (answers : List Done) (channel : ℕ) (cut : Cut) →
        AllByRecursion HoldsBytes cut.before → AllByRecursion IsBytes (pieces_of cut) →
        ComeToTheSame setting answers (in_one_line (User channel) cut) (in_lines (User channel) cut) }
{}
