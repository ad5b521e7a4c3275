//! Laws of what lines say, and of what can be played: the steps that a text is read as, and those that a number makes.

ghost use Rattle.std.specs.Prelude.{◌≡◌, ◌≤◌, ◌++◌, ◌+◌, ◌*◌, List, ℕ, true, Some, Ok, length};
ghost use Rattle.std.specs.List.{list_all};
ghost use Rattle.std.specs.Str.{is_utf8};
ghost use Rattle.dl_script_fields.specs.Joined.{is_field, is_plain, parted_by_blanks};
ghost use Rattle.dl_script_model.specs.declared.scenario.ScenarioLine.{ScenarioLine};
ghost use Rattle.dl_script_model.specs.declared.step.Step.{Step};
ghost use Rattle.dl_text.specs.Faults.{size_limit};
ghost use Rattle.dl_script.specs.Earlier.{nothing};
ghost use Rattle.dl_script.specs.Generated.{generated};
ghost use Rattle.dl_script.specs.Playable.{IsPlayable, IsRunnable};
ghost use Rattle.dl_script.specs.Script.{steps_of, scenario_of};
ghost use Rattle.dl_script.specs.Spelled.{SpellsStep, SpellsScenarioLine, step_claim, scenario_claim, IsSayableStep, IsSayableScenarioLine, AreSpelled, MayFollow, text_of};
ghost use Rattle.dl_script_lines.specs.Word.{step_word, scenario_word};
ghost use Rattle.dl_script.specs.Line.{says, step_by_word, scenario_by_word, step_of, scenario_line_of};
ghost use Rattle.dl_script_lines.specs.declared.word.StepWord.{StepWord};
ghost use Rattle.dl_script_lines.specs.declared.word.ScenarioWord.{ScenarioWord};

/// A line of a word and of fields, parted by blanks, says what the word makes of those fields.
pub fn a_line_is_a_word_with_fields()
    ensures step { (word : List ℕ) (w : StepWord) (fields : List (List ℕ)) → is_plain word ≡ true → list_all is_field fields ≡ true
        → is_utf8 (word ++ parted_by_blanks fields) ≡ true → step_word word ≡ Some w → step_of (word ++ parted_by_blanks fields) ≡ step_by_word w fields }
    ensures scenario { (word : List ℕ) (w : ScenarioWord) (fields : List (List ℕ)) → is_plain word ≡ true → list_all is_field fields ≡ true
        → is_utf8 (word ++ parted_by_blanks fields) ≡ true → scenario_word word ≡ Some w → scenario_line_of (word ++ parted_by_blanks fields) ≡ scenario_by_word w fields }
{}

/// A line that spells a step, or a line of a scenario, is read as that, with what it declares and asks.
pub fn a_line_says_what_it_spells()
    ensures step { (line : List ℕ) (s : Step) → SpellsStep line s → step_of line ≡ Ok (says (step_claim s) s) }
    ensures scenario { (line : List ℕ) (entry : ScenarioLine) → SpellsScenarioLine line entry → scenario_line_of line ≡ Ok (says (scenario_claim entry) entry) }
{}

/// Each step, and each line of a scenario, has a line that spells it, but for what no script can say: an id without a
/// name, a number out of its range, no bytes, a line feed or what is no UTF-8 in a text, a blank in a text with a name.
pub fn a_line_can_spell_each()
    ensures step { (s : Step) → IsSayableStep s → (line : List ℕ) × SpellsStep line s }
    ensures scenario { (entry : ScenarioLine) → IsSayableScenarioLine entry → (line : List ℕ) × SpellsScenarioLine line entry }
{}

/// A text of such lines, of which each may follow those before it, is read as what they spell.
pub fn a_script_says_what_its_lines_spell()
    ensures steps { (lines : List (List ℕ)) (steps : List Step) → AreSpelled SpellsStep lines steps → MayFollow step_claim nothing steps
        → length (text_of lines) ≤ size_limit → steps_of (text_of lines) ≡ Ok steps }
    ensures scenario { (lines : List (List ℕ)) (scenario : List ScenarioLine) → AreSpelled SpellsScenarioLine lines scenario → MayFollow scenario_claim nothing scenario
        → length (text_of lines) ≤ size_limit → scenario_of (text_of lines) ≡ Ok scenario }
{}

/// A script that is read can be played: each of its steps may follow those before it, its applications and the contexts that
/// writers claim have names, its descriptions are short, and its user messages come on channels from 1 on. It has no more
/// steps than its text has bytes.
pub fn what_is_read_can_be_played()
    ensures playable { (text : List ℕ) (steps : List Step) → steps_of text ≡ Ok steps → IsPlayable steps }
    ensures bounded { (text : List ℕ) (steps : List Step) → steps_of text ≡ Ok steps → (length steps ≤ length text) × (length text ≤ size_limit) }
{}

/// So can a scenario that is read be run: each of its lines may follow those before it, its applications, its contexts and
/// those that writers claim have names, its rings hold 1 to 4096 calls, and its descriptions are short.
pub fn what_is_read_can_be_run()
    ensures runnable { (text : List ℕ) (lines : List ScenarioLine) → scenario_of text ≡ Ok lines → IsRunnable lines }
    ensures bounded { (text : List ℕ) (lines : List ScenarioLine) → scenario_of text ≡ Ok lines → (length lines ≤ length text) × (length text ≤ size_limit) }
{}

/// The steps that a number makes can be played too, up to as many calls as a script may have. There are 21 steps before the first call,
/// and at most seven for each call.
pub fn what_is_generated_can_be_played()
    ensures playable { (number calls : ℕ) → calls ≤ 1000000 → IsPlayable (generated number calls) }
    ensures bounded { (number calls : ℕ) → calls ≤ 1000000 → length (generated number calls) ≤ 21 + 7 * calls }
{}
