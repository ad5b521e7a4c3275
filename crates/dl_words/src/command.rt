//! The commands of the programs.

ghost use Rattle.std.specs.Prelude.{◌≡◌, IfOk, codes, false};
ghost use Rattle.clap.specs.Words.{app_of, rule_of};
ghost use Rattle.dl_words.specs.Command.{daemon_command, number_option, option, port_limit, round_limit, run_command, scenario, second_limit, serve_command};

use clap::{Arg, Command};
use std::alloc::{AllocError, Global};

/// The option `--conf NAME`.
fn conf<'a>(alloc: Global) -> Arg<'a>
    ensures rule { rule_of result ≡ option (codes "conf") }
    ensures own { result.global ≡ false }
{
    Arg::new(alloc, "conf").long("conf")
}

/// An option of this name whose value is a port, from 1 on.
fn port_option<'a>(alloc: Global, name: &'a str) -> Arg<'a>
    ensures rule { rule_of result ≡ number_option name.entry.now port_limit }
    ensures own { result.global ≡ false }
{
    Arg::new(alloc, name)
        .long(name)
        .value_parser(clap::value_parser!(u16).range(1..))
}

/// The option `--rounds N`.
fn rounds<'a>(alloc: Global) -> Arg<'a>
    ensures rule { rule_of result ≡ number_option (codes "rounds") round_limit }
    ensures own { result.global ≡ false }
{
    Arg::new(alloc, "rounds")
        .long("rounds")
        .value_parser(clap::value_parser!(u32).range(1..=1_000_000_000))
}

/// The option `--status SECONDS`.
fn status<'a>(alloc: Global) -> Arg<'a>
    ensures rule { rule_of result ≡ number_option (codes "status") second_limit }
    ensures own { result.global ≡ false }
{
    Arg::new(alloc, "status")
        .long("status")
        .value_parser(clap::value_parser!(u32).range(1..))
}

/// The scenario's name.
fn scenario<'a>(alloc: Global) -> Arg<'a>
    ensures rule { rule_of result ≡ scenario }
    ensures own { result.global ≡ false }
{
    Arg::new(alloc, "SCENARIO").required(true)
}

/// The command of `dlt_run` that plays a scenario.
pub fn run_command<'a>(alloc: Global) -> Result<Command<'a>, AllocError>
    ensures { IfOk result (λ command. app_of command ≡ run_command) }
{
    Command::new(alloc, "dlt_run")
        .disable_help_flag(true)
        .arg(conf(alloc))?
        .arg(port_option(alloc, "port"))?
        .arg(scenario(alloc))
}

/// The command of `dlt_run` that serves external applications, for the words from `--serve` on.
pub fn serve_command<'a>(alloc: Global) -> Result<Command<'a>, AllocError>
    ensures { IfOk result (λ command. app_of command ≡ serve_command) }
{
    Command::new(alloc, "dlt_run")
        .disable_help_flag(true)
        .arg(conf(alloc))?
        .arg(port_option(alloc, "port"))?
        .arg(port_option(alloc, "users"))?
        .arg(rounds(alloc))
}

/// The command of `dlt_daemon`. It has words for help and for its version besides.
pub fn daemon_command<'a>(alloc: Global) -> Result<Command<'a>, AllocError>
    ensures { IfOk result (λ command. app_of command ≡ daemon_command) }
{
    Command::new(alloc, "dlt_daemon")
        .version("1")
        .arg(conf(alloc))?
        .arg(port_option(alloc, "port"))?
        .arg(port_option(alloc, "users"))?
        .arg(status(alloc))
}
