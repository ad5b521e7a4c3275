//! A scenario that was opened.

ghost use Rattle.std.specs.Prelude.{IfOk};
ghost use Rattle.dl_opening.specs.Opening.{IsOpened};
ghost use Rattle.dl_script.specs.Playable.{IsRunnable};

use crate::applications::{contexts, specs};
use crate::books::books;
use crate::clients::scripts;
use dl_bytes::{OutOfMemory, Sequence};
use dl_crew::Plan;
use dl_desk::{AppList, Desk};
use dl_outside::ClientScript;
use dl_script_model::Scenario;
use dl_writer::BookList;
use std::alloc::Global;

/// What a run of threads begins with.
#[derive(Drop)]
pub struct Opened {
    /// The daemon's side of the library.
    pub desk: Desk,
    /// The applications, with their contexts.
    pub apps: AppList,
    /// The lines, and the handles of all contexts.
    pub plan: Plan,
    /// The book of each writer.
    pub books: BookList,
    /// What each client does.
    pub scripts: Sequence<ClientScript>,
}

/// Makes all that a scenario declares. It takes the memory of all that the writers and the daemon share, and of all records.
pub fn open(alloc: Global, scenario: Scenario) -> Result<Opened, OutOfMemory>
    requires { IsRunnable scenario }
    ensures { IfOk result (IsOpened scenario) }
{
    let lines = scenario.all();
    let specs = specs(alloc, lines)?;
    let (mut desk, mut apps) = Desk::make(alloc, specs.as_slice())?;
    let contexts = contexts(alloc, lines, specs.as_slice(), &mut apps)?;
    let books = books(alloc, lines, &mut apps, &mut desk)?;
    let scripts = scripts(alloc, lines)?;
    Ok(Opened {
        desk,
        apps,
        plan: Plan {
            lines: scenario,
            contexts: Sequence::over(contexts),
        },
        books,
        scripts: Sequence::over(scripts),
    })
}
