//! User messages as bytes.

ghost use Rattle.std.specs.Prelude.{◌≡◌, ◌<◌, ◌≤◌, ◌^◌, ◌++◌, negsuc, length, IfOk, IfSome, OnOk};
ghost use Rattle.dl_bytes.specs.UserMessage.{IsFit};
ghost use Rattle.dl_user.specs.Cut.{HasRanges, IsSpelled};
ghost use Rattle.dl_user.specs.Layout.{user_message, kind_of as kind_of_message, fields_of, uint32, signed, level_number};

use dl_bytes::{Bytes, OutOfMemory, OwnLevel, UserMsg};
use std::alloc::Global;

/// The bytes that each user message begins with.
pub const MARKER: [u8; 4] = *b"DUH\x01";

/// The bytes of a user message. A context without a level of its own has the level -1 there.
pub fn write_user(alloc: Global, msg: &UserMsg) -> Result<Bytes, OutOfMemory>
    requires { IsFit msg.now }
    ensures written { IfOk result (λ bytes. bytes ≡ user_message msg.now) }
    // What is spelled is read again, whatever follows it.
    ensures spelled { IfOk result (λ bytes. IsSpelled bytes msg.now) }
{
    let mut out = Vec::new(alloc);
    out.extend_from_slice(&MARKER)?;
    put_number(&mut out, kind_of(msg))?;
    put_fields(&mut out, msg)?;
    Ok(Bytes::over(out))
}

/// The number of the kind.
fn kind_of(msg: &UserMsg) -> u32
    ensures { result ≡ kind_of_message msg.now }
{
    match msg {
        UserMsg::Log(_) => 1,
        UserMsg::RegisterApp { .. } => 2,
        UserMsg::UnregisterApp { .. } => 3,
        UserMsg::RegisterContext { .. } => 4,
        UserMsg::UnregisterContext { .. } => 5,
        UserMsg::LogLevel { .. } => 6,
        UserMsg::Injection { .. } => 7,
        UserMsg::Overflow { .. } => 8,
    }
}

/// Adds what stands behind the kind.
fn put_fields(out: &mut Vec<u8>, msg: &UserMsg) -> Result<(), OutOfMemory>
    requires { IsFit msg.now }
    ensures fields { OnOk result (out.new.items ≡ out.old.items ++ fields_of (negsuc 0) msg.now) }
    ensures ranges { OnOk result (HasRanges msg.now) }
{
    match msg {
        UserMsg::Log(message) => out.extend_from_slice(message.all())?,
        UserMsg::RegisterApp { apid, pid, text } => {
            out.extend_from_slice(&apid.bytes())?;
            put_process(out, *pid, text.all())?;
        }
        UserMsg::UnregisterApp { apid, pid } => {
            out.extend_from_slice(&apid.bytes())?;
            put_number(out, *pid)?;
        }
        UserMsg::RegisterContext {
            apid,
            ctid,
            position,
            level,
            trace,
            pid,
            text,
        } => {
            out.extend_from_slice(&apid.bytes())?;
            out.extend_from_slice(&ctid.bytes())?;
            put_number(out, *position)?;
            put_level(out, *level)?;
            out.extend_from_slice(&trace.to_le_bytes())?;
            put_process(out, *pid, text.all())?;
        }
        UserMsg::UnregisterContext { apid, ctid, pid } => {
            out.extend_from_slice(&apid.bytes())?;
            out.extend_from_slice(&ctid.bytes())?;
            put_number(out, *pid)?;
        }
        UserMsg::LogLevel {
            level,
            trace,
            position,
        } => {
            out.extend_from_slice(&[level.number()])?;
            out.extend_from_slice(&trace.to_le_bytes())?;
            put_number(out, *position)?;
        }
        UserMsg::Injection {
            position,
            service,
            body,
        } => {
            put_number(out, *position)?;
            put_number(out, *service)?;
            put_counted(out, body.all())?;
        }
        UserMsg::Overflow { counter, apid } => {
            put_number(out, *counter)?;
            out.extend_from_slice(&apid.bytes())?;
        }
    }
    Ok(())
}

/// Adds a number of four bytes.
fn put_number(out: &mut Vec<u8>, number: u32) -> Result<(), OutOfMemory>
    ensures { OnOk result (out.new.items ≡ out.old.items ++ uint32 number) }
{
    out.extend_from_slice(&number.to_le_bytes())
}

/// Adds the process id of a registration and the description.
fn put_process(out: &mut Vec<u8>, pid: u32, text: &[u8]) -> Result<(), OutOfMemory>
    requires { length text.now < 2 ^ 32 }
    ensures { OnOk result (out.new.items ≡ out.old.items ++ (uint32 pid ++ uint32 (length text.now) ++ text.now)) }
{
    put_number(out, pid)?;
    put_counted(out, text)
}

/// Adds the level that a context has of its own, as a signed byte.
fn put_level(out: &mut Vec<u8>, level: OwnLevel) -> Result<(), OutOfMemory>
    ensures number { OnOk result (out.new.items ≡ out.old.items ++ signed (level_number (negsuc 0) level)) }
    ensures range { IfSome level (λ n. n ≤ 6) }
{
    out.extend_from_slice(&level.number().to_le_bytes())
}

/// Adds bytes behind their length.
fn put_counted(out: &mut Vec<u8>, bytes: &[u8]) -> Result<(), OutOfMemory>
    requires { length bytes.now < 2 ^ 32 }
    ensures { OnOk result (out.new.items ≡ out.old.items ++ (uint32 (length bytes.now) ++ bytes.now)) }
{
    put_number(out, bytes.len() as u32)?;
    out.extend_from_slice(bytes)
}
