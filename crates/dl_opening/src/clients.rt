//! The clients of a scenario.

ghost use Rattle.std.specs.Prelude.{◌≡◌, ◌<◌, ◌≤◌, ◌^◌, IfOk};
ghost use Rattle.dl_opening.specs.Scenario.{clients, clients_in, leave_in, script_of, scripts_of, sent_in};

use dl_bytes::{Bytes, OutOfMemory};
use dl_outside::ClientScript;
use dl_script_model::ScenarioLine;
use std::alloc::Global;

/// What each client does, by their numbers from 1.
pub fn scripts(alloc: Global, lines: &[ScenarioLine]) -> Result<Vec<ClientScript>, OutOfMemory>
    requires { clients lines.now < 2 ^ 32 }
    ensures { IfOk result (λ scripts. scripts.items ≡ scripts_of lines.now) }
{
    let mut scripts = Vec::new(alloc);
    for client in 0..count(lines) {
        scripts.push(script(alloc, lines, client + 1)?)?;
    }
    Ok(scripts)
}

// How many clients there are.
fn count(lines: &[ScenarioLine]) -> u32
    requires { clients lines.now < 2 ^ 32 }
    ensures { result ≡ clients lines.now }
{
    let mut count = 0;
    for line in lines {
        count += clients_in(line);
    }
    count
}

// How many clients a line declares.
fn clients_in(line: &ScenarioLine) -> u32
    ensures { result ≡ clients_in line.now }
{
    match line {
        ScenarioLine::Client => 1,
        _ => 0,
    }
}

// What the client with this number does.
fn script(alloc: Global, lines: &[ScenarioLine], client: u32) -> Result<ClientScript, OutOfMemory>
    ensures { IfOk result (λ script. script ≡ script_of lines.now client) }
{
    let mut sends = Vec::new(alloc);
    let mut leave = None;
    for line in lines {
        sends.extend_from_slice(sent_in(line, client))?;
        leave = leave.or(leave_in(line, client));
    }
    Ok(ClientScript {
        sends: Bytes::over(sends),
        leave,
    })
}

// What a line lets this client send.
fn sent_in(line: &ScenarioLine, client: u32) -> &[u8]
    ensures { result.now ≡ sent_in client line.now }
{
    match line {
        ScenarioLine::Send {
            client: number,
            bytes,
        } if *number == client => bytes.all(),
        _ => &[],
    }
}

// After how many bytes a line lets this client leave.
fn leave_in(line: &ScenarioLine, client: u32) -> Option<u64>
    ensures { result ≡ leave_in client line.now }
{
    match line {
        ScenarioLine::Leave {
            client: number,
            bytes,
        } if *number == client => Some(*bytes),
        _ => None,
    }
}
