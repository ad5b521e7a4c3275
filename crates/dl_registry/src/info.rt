//! What GetLogInfo tells of the applications and contexts.

ghost use Rattle.std.specs.Prelude.{◌≡◌, ◌⊎◌, ◌==◌, ◌++◌, ◌^◌, ◌-◌, ◌+◌, length, min, map, OnOk};
ghost use Rattle.std.specs.List.{flat_map, filter};
ghost use Rattle.byteorder.specs.Endian.{little_bytes};
ghost use Rattle.dl_model.specs.Registry.{names, named_contexts, named_in};
ghost use Rattle.dl_model.specs.Reply.{described, context_info, app_info, info_body, listed};
ghost use Rattle.dl_registry.specs.Info.{GivesInfo, info_of};

use crate::registry::Registry;
use dl_apps::{Application, is_named};
use dl_bytes::{Bytes, Id, OutOfMemory};
use dl_model::Context;

/// Why GetLogInfo tells nothing.
#[derive(Clone, Copy, Debug, PartialEq, Eq)]
pub enum InfoFault {
    /// The ids name no context.
    Nobody,
    /// The reply would have more than 65,535 bytes, the most that its field LEN can tell.
    TooLong,
    /// There was no memory.
    OutOfMemory,
}

impl From<OutOfMemory> for InfoFault {
    ghost use Rattle.dl_registry.specs.declared.info.InfoFault.TheVariants as fault;

    ghost from_gives = { λ _ made. made ≡ fault.OutOfMemory };

    fn from(_error: OutOfMemory) -> InfoFault {
        InfoFault::OutOfMemory
    }
}

/// The most bytes of a body: a message has 65,535 at most, of which headers, service id and status are 23.
const BODY_LIMIT: usize = 65_512;

/// The trace status, which is not known.
const NO_TRACE_STATUS: u8 = 0xff;

impl Registry {
    /// The body of a reply to GetLogInfo: the contexts that both ids name, the zero id naming all, application by
    /// application, with option 7 also their descriptions. Its size is known before memory is taken, once.
    pub fn info(&self, options: u8, apid: Id, ctid: Id) -> Result<Bytes, InfoFault>
        requires { (options ≡ 6) ⊎ (options ≡ 7) }
        ensures { GivesInfo self.now.registry options apid ctid result }
    {
        if self.names_nobody(apid, ctid) {
            return Err(InfoFault::Nobody);
        }
        let size = self.info_len(options, apid, ctid);
        if BODY_LIMIT < size {
            return Err(InfoFault::TooLong);
        }
        let mut body = Vec::with_capacity(self.alloc, size)?;
        self.push_info(&mut body, options, apid, ctid)?;
        Ok(Bytes::over(body))
    }

    /// Whether the ids name no context.
    fn names_nobody(&self, apid: Id, ctid: Id) -> bool
        ensures { result ≡ (length (named_contexts self.now.registry apid ctid) == 0) }
    {
        self.listed(apid, ctid) == 0
    }

    /// How many bytes the body has.
    fn info_len(&self, options: u8, apid: Id, ctid: Id) -> usize
        ensures { result ≡ min (2 ^ 64 - 1) (length (info_body options self.now.registry apid ctid)) }
    {
        let mut len: usize = 6;
        for (id, app) in self.apps.iter() {
            len = len.saturating_add(app_len(options, apid, ctid, *id, app));
        }
        len
    }

    /// Adds the body.
    fn push_info(
        &self,
        body: &mut Vec<u8>,
        options: u8,
        apid: Id,
        ctid: Id,
    ) -> Result<(), OutOfMemory>
        ensures { OnOk result (body.new.items ≡ body.old.items ++ info_body options self.now.registry apid ctid) }
    {
        push_count(body, self.listed(apid, ctid))?;
        for (id, app) in self.apps.iter() {
            push_app(body, options, apid, ctid, *id, app)?;
        }
        body.extend_from_slice(&[0; 4])
    }

    /// How many applications have a context that both ids name.
    fn listed(&self, apid: Id, ctid: Id) -> usize
        ensures { result ≡ length (listed self.now.registry apid ctid) }
    {
        self.apps
            .iter()
            .filter(|(id, app)| named_of(apid, ctid, **id, app) != 0)
            .count()
    }
}

/// How many contexts of an application both ids name.
fn named_of(apid: Id, ctid: Id, id: Id, app: &Application) -> usize
    ensures { result ≡ length (named_in apid ctid (id, app.now)) }
{
    if is_named(apid, id) {
        app.named(ctid)
    } else {
        0
    }
}

/// How many bytes a description takes: none but with option 7.
fn described_len(options: u8, text: &[u8]) -> usize
    ensures { result ≡ length (described options text.now) }
{
    if options == 7 { 2 + text.len() } else { 0 }
}

/// How many bytes a context takes.
fn context_len(options: u8, ctid: Id, context: &Context) -> usize
    ensures { result ≡ length (context_info options (ctid, context.now)) }
{
    6 + described_len(options, context.text.all())
}

/// How many bytes the contexts of an application take that the id names.
fn contexts_len(options: u8, ctid: Id, app: &Application) -> usize
    ensures { result ≡ min (2 ^ 64 - 1) (length (flat_map (context_info options) (filter (λ entry. names ctid entry.0) app.now.contexts))) }
{
    let mut len: usize = 0;
    for (id, context) in app.contexts().iter() {
        if is_named(ctid, *id) {
            len = len.saturating_add(context_len(options, *id, context));
        }
    }
    len
}

/// How many bytes an application takes: none where no context of it is named.
fn app_len(options: u8, apid: Id, ctid: Id, id: Id, app: &Application) -> usize
    ensures { result ≡ min (2 ^ 64 - 1) (length (info_of options apid ctid (id, app.now))) }
{
    if named_of(apid, ctid, id, app) == 0 {
        return 0;
    }
    contexts_len(options, ctid, app).saturating_add(6 + described_len(options, app.text()))
}

/// Adds a number of two bytes, the lowest first.
fn push_count(body: &mut Vec<u8>, count: usize) -> Result<(), OutOfMemory>
    ensures { OnOk result (body.new.items ≡ body.old.items ++ little_bytes 2 count) }
{
    body.extend_from_slice(&[(count % 256) as u8, (count / 256 % 256) as u8])
}

/// Adds a description behind its length, with option 7.
fn push_described(body: &mut Vec<u8>, options: u8, text: &[u8]) -> Result<(), OutOfMemory>
    ensures { OnOk result (body.new.items ≡ body.old.items ++ described options text.now) }
{
    if options != 7 {
        return Ok(());
    }
    push_count(body, text.len())?;
    body.extend_from_slice(text)
}

/// Adds a context: its id, its own level, the trace status, and its description.
fn push_context(
    body: &mut Vec<u8>,
    options: u8,
    ctid: Id,
    context: &Context,
) -> Result<(), OutOfMemory>
    ensures { OnOk result (body.new.items ≡ body.old.items ++ context_info options (ctid, context.now)) }
{
    let own = context.own.number().cast_unsigned();
    body.extend_from_slice(&ctid.bytes())?;
    body.extend_from_slice(&[own, NO_TRACE_STATUS])?;
    push_described(body, options, context.text.all())
}

/// Adds the contexts of an application that the id names.
fn push_contexts(
    body: &mut Vec<u8>,
    options: u8,
    ctid: Id,
    app: &Application,
) -> Result<(), OutOfMemory>
    ensures { OnOk result (body.new.items ≡ body.old.items ++ flat_map (context_info options) (filter (λ entry. names ctid entry.0) app.now.contexts)) }
{
    for (id, context) in app.contexts().iter() {
        if is_named(ctid, *id) {
            push_context(body, options, *id, context)?;
        }
    }
    Ok(())
}

/// Adds an application, where a context of it is named.
fn push_app(
    body: &mut Vec<u8>,
    options: u8,
    apid: Id,
    ctid: Id,
    id: Id,
    app: &Application,
) -> Result<(), OutOfMemory>
    ensures { OnOk result (body.new.items ≡ body.old.items ++ info_of options apid ctid (id, app.now)) }
{
    let count = named_of(apid, ctid, id, app);
    if count == 0 {
        return Ok(());
    }
    body.extend_from_slice(&id.bytes())?;
    push_count(body, count)?;
    push_contexts(body, options, ctid, app)?;
    push_described(body, options, app.text())
}
