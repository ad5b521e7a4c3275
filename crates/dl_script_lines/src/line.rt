//! What the fields of a line say, for each form of line.

ghost use Rattle.std.specs.Prelude.{◌≡◌, true, IfOk};
ghost use Rattle.std.specs.List.{list_all};
ghost use Rattle.dl_script_fields.specs.Argument.{hex_field, is_argument};
ghost use Rattle.dl_script_fields.specs.Fields.{texts};
ghost use Rattle.dl_script_fields.specs.Kind.{Says, is_of_form, formed};
ghost use Rattle.dl_script_lines.specs.Line.{text_field, text_fields, payload_fields, app_line, context_line, id_line, call_line, clock_line, writer_line, brief, claim_line, levels_of, levels_line, bare_line, client_line, bytes_line, user_line, leave_line, line_in};

use dl_bytes::{Bytes, ClaimText, Id, Payload, Severity, TEXT_LIMIT};
use dl_script_fields::argument::{add, behind_quote, has_form, is_closed, raw, unescape};
use dl_script_fields::value::{client, count, id, number, own_level, severity, writer};
use dl_script_fields::{LineError, ScriptKind};
use dl_script_model::{
    AppLine, CallArguments, CallLine, ClaimLine, ContextLine, LevelEvents, Step,
};
use std::alloc::Global;

/// A log call, or several, as a line has them.
#[derive(Drop)]
pub struct Call {
    /// The writer's number; 0 for one that none has.
    pub writer: u8,
    /// The context's id.
    pub ctid: Id,
    /// How grave it is.
    pub severity: Severity,
    /// The timestamp, or the count of calls.
    pub number: u32,
    /// The arguments, or nothing where they don't fit a log call.
    pub payload: Option<CallArguments>,
}

/// A text in quotes.
fn text(alloc: Global, field: &str) -> Result<Bytes, LineError>
    ensures { Says (λ x. x) result (text_field field.now) }
{
    let Some(quoted) = behind_quote(field) else {
        return Err(LineError::Fault(ScriptKind::Fields));
    };
    let text = unescape(alloc, quoted)?;
    if text.len() > TEXT_LIMIT {
        return Err(LineError::Fault(ScriptKind::Text));
    }
    Ok(Bytes::over(text.into_bytes()))
}

/// A text that may be left out.
fn optional_text(alloc: Global, fields: &[&str]) -> Result<Bytes, LineError>
    ensures { Says (λ x. x) result (text_fields (texts fields.now)) }
{
    match fields {
        [] => Ok(Bytes::over(Vec::new(alloc))),
        [field] => text(alloc, field),
        _ => Err(LineError::Fault(ScriptKind::Fields)),
    }
}

/// Whether a field is a text in quotes, however long.
#[tactic(auto, using(crate::proofs::Refused::as_text))]
fn is_text(field: &str) -> bool
    ensures { result ≡ is_of_form (text_field field.now) }
{
    match behind_quote(field) {
        Some(quoted) => is_closed(quoted),
        None => false,
    }
}

/// Whether fields are a text in quotes, or none.
fn are_optional_text(fields: &[&str]) -> bool
    ensures { result ≡ is_of_form (text_fields (texts fields.now)) }
{
    match fields {
        [] => true,
        [field] => is_text(field),
        _ => false,
    }
}

/// Bytes in hexadecimal digits.
fn hex(alloc: Global, field: &str) -> Result<Bytes, LineError>
    ensures { Says (λ x. x) result (hex_field field.now) }
{
    Ok(Bytes::over(raw(alloc, field)?))
}

/// `ID CAPACITY [TEXT]`
#[tactic(auto, unfolding(crate::specs::Line::app_line))]
pub fn app(alloc: Global, fields: &[&str]) -> Result<AppLine, LineError>
    ensures { Says (λ x. x) result (app_line (texts fields.now)) }
{
    let [name, capacity, text @ ..] = fields else {
        return Err(LineError::Fault(ScriptKind::Fields));
    };
    if !are_optional_text(text) {
        return Err(LineError::Fault(ScriptKind::Fields));
    }
    let apid = id(name)?;
    let capacity = number(capacity, 1, 4096)? as u16;
    let text = optional_text(alloc, text)?;
    Ok(AppLine {
        apid,
        capacity,
        text,
    })
}

/// `APID CTID LEVEL [TEXT]`
#[tactic(auto, unfolding(crate::specs::Line::context_line))]
pub fn context(alloc: Global, fields: &[&str]) -> Result<ContextLine, LineError>
    ensures { Says (λ x. x) result (context_line (texts fields.now)) }
{
    let [apid, ctid, level, text @ ..] = fields else {
        return Err(LineError::Fault(ScriptKind::Fields));
    };
    if !are_optional_text(text) {
        return Err(LineError::Fault(ScriptKind::Fields));
    }
    let apid = id(apid)?;
    let ctid = id(ctid)?;
    let level = own_level(level)?;
    let text = optional_text(alloc, text)?;
    Ok(ContextLine {
        apid,
        ctid,
        level,
        text,
    })
}

/// The text of a claim.
fn claim_text(text: &[u8]) -> Result<ClaimText, ScriptKind>
    ensures { result ≡ brief text.now }
{
    ClaimText::of(text).ok_or(ScriptKind::Text)
}

/// `W CTID LEVEL [TEXT]`
#[tactic(auto, unfolding(crate::specs::Line::claim_line))]
pub fn claim(alloc: Global, fields: &[&str]) -> Result<ClaimLine, LineError>
    ensures { Says (λ x. x) result (claim_line (texts fields.now)) }
{
    let [writer_number, ctid, level, text @ ..] = fields else {
        return Err(LineError::Fault(ScriptKind::Fields));
    };
    if !are_optional_text(text) {
        return Err(LineError::Fault(ScriptKind::Fields));
    }
    let writer = writer(writer_number)?;
    let ctid = id(ctid)?;
    let level = own_level(level)?;
    let text = optional_text(alloc, text)?;
    let text = claim_text(text.all())?;
    Ok(ClaimLine {
        writer,
        ctid,
        level,
        text,
    })
}

/// `APID`
#[tactic(auto, unfolding(crate::specs::Line::id_line))]
pub fn app_id(fields: &[&str]) -> Result<Id, ScriptKind>
    ensures { result ≡ id_line (texts fields.now) }
{
    match fields {
        [apid] => id(apid),
        _ => Err(ScriptKind::Fields),
    }
}

/// Whether each field is an argument of a known form.
fn each_is_argument(fields: &[&str]) -> bool
    ensures { result ≡ list_all (λ field. is_argument field.now) fields.now }
{
    fields.iter().all(|field| has_form(field))
}

/// The same, said of their texts.
fn are_arguments(fields: &[&str]) -> bool
    ensures { result ≡ list_all is_argument (texts fields.now) }
{
    each_is_argument(fields)
}

/// The payload of a log call, by its arguments; nothing where they don't fit.
#[inline(always)]
fn payload(
    alloc: Global,
    payload: &mut Payload,
    fields: &[&str],
) -> Result<Option<CallArguments>, LineError>
    ensures { Says (λ x. x) result (payload_fields (texts fields.now)) }
{
    payload.clear();
    let mut fits = true;
    for field in fields {
        if !add(alloc, payload, field)? {
            fits = false;
        }
    }
    if !fits {
        return Ok(None);
    }
    Ok(Some(CallArguments::of(alloc, payload)?))
}

/// The payload of a log call, or what is wrong with it, where each argument is of a known form. So a call whose
/// arguments are all right is looked at once.
#[inline(always)]
#[tactic(auto, using(crate::proofs::Refused::payload_read))]
fn formed_payload(
    alloc: Global,
    room: &mut Payload,
    fields: &[&str],
) -> Result<Result<Option<CallArguments>, ScriptKind>, LineError>
    ensures form { Says (λ _. true) result (formed (list_all is_argument (texts fields.now))) }
    ensures value { IfOk result (λ read. read ≡ payload_fields (texts fields.now)) }
{
    match payload(alloc, room, fields) {
        Ok(payload) => Ok(Ok(payload)),
        Err(LineError::OutOfMemory) => Err(LineError::OutOfMemory),
        Err(LineError::Fault(kind)) => {
            if are_arguments(fields) {
                Ok(Err(kind))
            } else {
                Err(LineError::Fault(ScriptKind::Fields))
            }
        }
    }
}

/// `W CTID SEV NUMBER ARG..`, with a number in this range. The arguments are put together in this payload, in place of what it
/// held; one serves many lines.
#[inline(always)]
#[tactic(auto, unfolding(crate::specs::Line::call_line))]
pub fn log_call(
    alloc: Global,
    room: &mut Payload,
    fields: &[&str],
    low: u32,
    high: u32,
) -> Result<Call, LineError>
    ensures { Says (λ x. x) result (call_line low high (texts fields.now)) }
{
    let [
        writer_number,
        ctid,
        severity_word,
        call_number,
        arguments @ ..,
    ] = fields
    else {
        return Err(LineError::Fault(ScriptKind::Fields));
    };
    let payload = formed_payload(alloc, room, arguments)?;
    let writer = writer(writer_number)?;
    let ctid = id(ctid)?;
    let severity = severity(severity_word)?;
    let number = number(call_number, low, high)?;
    let payload = payload?;
    Ok(Call {
        writer,
        ctid,
        severity,
        number,
        payload,
    })
}

/// `SECS MICROS`
#[tactic(auto, unfolding(crate::specs::Line::clock_line))]
pub fn clock(fields: &[&str]) -> Result<Step, ScriptKind>
    ensures { result ≡ clock_line (texts fields.now) }
{
    let [secs, micros] = fields else {
        return Err(ScriptKind::Fields);
    };
    let secs = number(secs, 0, u32::MAX)?;
    let micros = number(micros, 0, 999_999)?;
    Ok(Step::Clock { secs, micros })
}

/// `W`
#[tactic(auto, unfolding(crate::specs::Line::writer_line))]
pub fn writer_number(fields: &[&str]) -> Result<u8, ScriptKind>
    ensures { result ≡ writer_line (texts fields.now) }
{
    match fields {
        [field] => writer(field),
        _ => Err(ScriptKind::Fields),
    }
}

/// `later` or `now`, as a field.
fn levels_of(field: &str) -> Option<LevelEvents>
    ensures { result ≡ levels_of field.now }
{
    match field {
        "later" => Some(LevelEvents::Later),
        "now" => Some(LevelEvents::Now),
        _ => None,
    }
}

/// `later` or `now`
#[tactic(auto, unfolding(crate::specs::Line::levels_line))]
pub fn levels(fields: &[&str]) -> Result<LevelEvents, ScriptKind>
    ensures { result ≡ levels_line (texts fields.now) }
{
    match fields {
        [field] => levels_of(field).ok_or(ScriptKind::Fields),
        _ => Err(ScriptKind::Fields),
    }
}

/// No field.
#[tactic(auto, unfolding(crate::specs::Line::bare_line))]
pub fn bare(fields: &[&str]) -> Result<(), ScriptKind>
    ensures { result ≡ bare_line (texts fields.now) }
{
    if fields.is_empty() {
        Ok(())
    } else {
        Err(ScriptKind::Fields)
    }
}

/// `C`
#[tactic(auto, unfolding(crate::specs::Line::client_line))]
pub fn client_number(fields: &[&str]) -> Result<u32, ScriptKind>
    ensures { result ≡ client_line (texts fields.now) }
{
    match fields {
        [field] => client(field),
        _ => Err(ScriptKind::Fields),
    }
}

/// `C HEX`
#[tactic(auto, unfolding(crate::specs::Line::bytes_line))]
pub fn client_bytes(alloc: Global, fields: &[&str]) -> Result<(u32, Bytes), LineError>
    ensures { Says (λ x. x) result (bytes_line (texts fields.now)) }
{
    let [client_field, digits] = fields else {
        return Err(LineError::Fault(ScriptKind::Fields));
    };
    let number = client(client_field)?;
    let bytes = hex(alloc, digits)?;
    Ok((number, bytes))
}

/// `CH HEX`
#[tactic(auto, unfolding(crate::specs::Line::user_line))]
pub fn user(alloc: Global, fields: &[&str]) -> Result<Step, LineError>
    ensures { Says (λ x. x) result (user_line (texts fields.now)) }
{
    let [channel, digits] = fields else {
        return Err(LineError::Fault(ScriptKind::Fields));
    };
    let channel = number(channel, 1, 16)? as u8;
    let bytes = hex(alloc, digits)?;
    Ok(Step::User { channel, bytes })
}

/// `C BYTES`
#[tactic(auto, unfolding(crate::specs::Line::leave_line))]
pub fn leave(fields: &[&str]) -> Result<(u32, u64), ScriptKind>
    ensures { result ≡ leave_line (texts fields.now) }
{
    let [client_field, bytes] = fields else {
        return Err(ScriptKind::Fields);
    };
    let number = client(client_field)?;
    let bytes = count(bytes)?;
    Ok((number, bytes))
}

impl Call {
    /// A line of a step script, whose number is its timestamp.
    pub fn into_line(self) -> Option<CallLine>
        ensures { result ≡ line_in self }
    {
        let payload = self.payload?;
        Some(CallLine {
            writer: self.writer,
            ctid: self.ctid,
            severity: self.severity,
            at: self.number,
            payload,
        })
    }
}
