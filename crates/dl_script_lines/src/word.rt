//! The first word of a line.

ghost use Rattle.std.specs.Prelude.{◌≡◌};
ghost use Rattle.dl_script_lines.specs.Word.{step_word, scenario_word};

/// What a line of a step script is, by its first word.
#[derive(Clone, Copy)]
pub enum StepWord {
    App,
    Context,
    Writer,
    Clock,
    Load,
    Push,
    Count,
    Call,
    Log,
    Claim,
    Announce,
    Register,
    Take,
    Losses,
    Levels,
    Level,
    Connect,
    Bytes,
    Close,
    User,
    Inject,
}

/// What a line of a scenario is, by its first word.
#[derive(Clone, Copy)]
pub enum ScenarioWord {
    App,
    Context,
    Writer,
    Register,
    Calls,
    Client,
    Send,
    Leave,
}

/// The word of a line of a step script.
pub fn step_word(field: &str) -> Option<StepWord>
    ensures { result ≡ step_word field.now }
{
    match field {
        "app" => Some(StepWord::App),
        "context" => Some(StepWord::Context),
        "writer" => Some(StepWord::Writer),
        "clock" => Some(StepWord::Clock),
        "load" => Some(StepWord::Load),
        "push" => Some(StepWord::Push),
        "count" => Some(StepWord::Count),
        "call" => Some(StepWord::Call),
        "log" => Some(StepWord::Log),
        "claim" => Some(StepWord::Claim),
        "announce" => Some(StepWord::Announce),
        "register" => Some(StepWord::Register),
        "take" => Some(StepWord::Take),
        "losses" => Some(StepWord::Losses),
        "levels" => Some(StepWord::Levels),
        "level" => Some(StepWord::Level),
        "connect" => Some(StepWord::Connect),
        "bytes" => Some(StepWord::Bytes),
        "close" => Some(StepWord::Close),
        "user" => Some(StepWord::User),
        "inject" => Some(StepWord::Inject),
        _ => None,
    }
}

/// The word of a line of a scenario.
pub fn scenario_word(field: &str) -> Option<ScenarioWord>
    ensures { result ≡ scenario_word field.now }
{
    match field {
        "app" => Some(ScenarioWord::App),
        "context" => Some(ScenarioWord::Context),
        "writer" => Some(ScenarioWord::Writer),
        "register" => Some(ScenarioWord::Register),
        "calls" => Some(ScenarioWord::Calls),
        "client" => Some(ScenarioWord::Client),
        "send" => Some(ScenarioWord::Send),
        "leave" => Some(ScenarioWord::Leave),
        _ => None,
    }
}
