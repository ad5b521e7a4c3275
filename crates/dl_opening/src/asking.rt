//! How many calls a scenario asks for.

ghost use Rattle.std.specs.Prelude.{◌≡◌, ◌<◌, ◌^◌};
ghost use Rattle.dl_opening.specs.Scenario.{all_calls, calls_in};

use dl_script_model::ScenarioLine;

/// How many calls the lines ask for, of all writers together.
pub fn all_calls(lines: &[ScenarioLine]) -> u32
    requires { all_calls lines.now < 2 ^ 32 }
    ensures { result ≡ all_calls lines.now }
{
    let mut calls = 0;
    for line in lines {
        calls += calls_in(line);
    }
    calls
}

// How many calls a line asks for.
fn calls_in(line: &ScenarioLine) -> u32
    ensures { result ≡ calls_in line.now }
{
    match line {
        ScenarioLine::Calls { count, .. } => *count,
        _ => 0,
    }
}
