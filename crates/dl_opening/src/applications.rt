//! The applications of a scenario, and their contexts.

ghost use Rattle.std.specs.Prelude.{◌≡◌, ◌≤◌, ◌++◌, ◌-◌, [], IfOk, length, map, option_map};
ghost use Rattle.std.specs.Option.{option_to_list};
ghost use Rattle.dl_desk.specs.Apps.{declared_apps, next_context, with_context};
ghost use Rattle.dl_opening.specs.Scenario.{app_in, apps, context_in, contexts_of, handles_from, opened_from, placed, registered, spec_of, specs_of};

use dl_bytes::{AppSpec, Ctx, Id, OutOfMemory};
use dl_desk::{App, AppList};
use dl_script_model::{AppLine, ContextLine, ScenarioLine};
use std::alloc::Global;

/// The applications, in the order of their lines.
pub fn specs(alloc: Global, lines: &[ScenarioLine]) -> Result<Vec<AppSpec>, OutOfMemory>
    ensures { IfOk result (λ specs. specs.items ≡ specs_of lines.now) }
{
    let mut specs = Vec::new(alloc);
    for line in lines {
        add_spec(alloc, line, &mut specs)?;
    }
    Ok(specs)
}

// Adds the application that a line declares.
fn add_spec(alloc: Global, line: &ScenarioLine, specs: &mut Vec<AppSpec>) -> Result<(), OutOfMemory>
    ensures { IfOk result (λ _. specs.new.items ≡ specs.old.items ++ map spec_of (option_to_list (app_in line.now))) }
{
    if let ScenarioLine::App(app) = line {
        specs.push(spec(alloc, app)?)?;
    }
    Ok(())
}

// An application as its line declares it.
fn spec(alloc: Global, app: &AppLine) -> Result<AppSpec, OutOfMemory>
    ensures { IfOk result (λ spec. spec ≡ spec_of app.now) }
{
    Ok(AppSpec {
        apid: app.apid,
        capacity: app.capacity,
        text: app.text.copy(alloc)?,
    })
}

/// Declares the contexts of all applications, and gives their handles, one application's after the other's.
pub fn contexts(
    alloc: Global,
    lines: &[ScenarioLine],
    specs: &[AppSpec],
    list: &mut AppList,
) -> Result<Vec<Ctx>, OutOfMemory>
    requires specs { specs.now ≡ specs_of lines.now }
    requires new { list.old ≡ declared_apps 0 (specs_of lines.now) }
    ensures handles { IfOk result (λ contexts. contexts.items ≡ handles_from lines.now 0 (apps lines.now)) }
    ensures apps { IfOk result (λ _. list.new ≡ opened_from lines.now [] 0 (apps lines.now)) }
{
    let mut contexts = Vec::new(alloc);
    for place in 0..list.len() {
        let apid = specs[place as usize].apid;
        declare(lines, apid, list.of_mut(place), &mut contexts)?;
    }
    Ok(contexts)
}

// Declares the contexts of one application, in the order of their lines, and adds their handles.
fn declare(
    lines: &[ScenarioLine],
    apid: Id,
    app: &mut App,
    contexts: &mut Vec<Ctx>,
) -> Result<(), OutOfMemory>
    requires own { app.old.apid ≡ apid }
    requires some { 1 ≤ length app.old.hello }
    ensures handles { IfOk result (λ _. contexts.new.items ≡ contexts.old.items ++ placed app.old.number apid (length app.old.hello - 1) (contexts_of apid lines.now)) }
    ensures hello { IfOk result (λ _. app.new ≡ record app.old { hello = app.old.hello ++ map (registered apid) (contexts_of apid lines.now) }) }
{
    for line in lines {
        declare_in(line, apid, app, contexts)?;
    }
    Ok(())
}

// Declares the context of the application that a line says, where it says one.
fn declare_in(
    line: &ScenarioLine,
    apid: Id,
    app: &mut App,
    contexts: &mut Vec<Ctx>,
) -> Result<(), OutOfMemory>
    requires own { app.old.apid ≡ apid }
    ensures handles { IfOk result (λ _. contexts.new.items ≡ contexts.old.items ++ placed app.old.number apid (length app.old.hello - 1) (option_to_list (context_in apid line.now))) }
    ensures hello { IfOk result (λ _. app.new ≡ record app.old { hello = app.old.hello ++ map (registered apid) (option_to_list (context_in apid line.now)) }) }
{
    if let Some(context) = context_in(line, apid) {
        contexts.push(declared(app, context)?)?;
    }
    Ok(())
}

// The context of this application that a line declares.
fn context_in(line: &ScenarioLine, apid: Id) -> Option<&ContextLine>
    ensures { option_map (λ context. context.now) result ≡ context_in apid line.now }
{
    match line {
        ScenarioLine::Context(context) if context.apid == apid => Some(context),
        _ => None,
    }
}

// Declares a context, and gives its handle.
fn declared(app: &mut App, context: &ContextLine) -> Result<Ctx, OutOfMemory>
    ensures handle { IfOk result (λ ctx. ctx ≡ next_context app.old context.now.ctid) }
    ensures app { IfOk result (λ _. app.new ≡ with_context app.old context.now.ctid context.now.level context.now.text) }
{
    match app.context(context.ctid, context.text.all(), context.level) {
        Ok(ctx) => Ok(ctx),
        Err(_) => Err(OutOfMemory),
    }
}
