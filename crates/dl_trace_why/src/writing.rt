//! The account of what was read is written, and drawn where a picture is wanted.

ghost use Rattle.std.specs.Prelude.{◌≡◌, IfOk, List, Some, option_map};
ghost use Rattle.dl_picture.specs.Picture.{picture};
ghost use Rattle.dl_sessions.specs.Follows.{IsAt};
ghost use Rattle.dl_sessions.specs.declared.session.Told.{Told};
ghost use Rattle.dl_timeline.specs.Timeline.{timeline};
ghost use Rattle.dl_trace_why.specs.Account.{Ends, Runs, seen, sides, text_of};
ghost use Rattle.dl_trace_why.specs.Wanted.{files_wanted, picture_wanted};
ghost use Rattle.dl_trace_why.specs.Writes.{Prints, PutsPicture, TriesToDraw, Writes};

use crate::reading::{Reading, read_wanted};
use crate::status::Status;
use crate::wanted::Wanted;
use dl_bytes::OutOfMemory;
use dl_outside::{Folder, FolderFault, Sink, write_text};
use dl_picture::draw;
use dl_pieces::ReadAt;
use dl_sessions::Follower;
use dl_timeline::timeline_of;
use std::alloc::Global;

/// The text of an account.
fn text_of(alloc: Global, reading: &Reading) -> Result<Vec<u8>, OutOfMemory>
    ensures { (stream : List Told) → IsAt stream reading.now.follower → IfOk result (λ text. text.items ≡ text_of stream reading.now.ends.items) }
{
    let mut text = Vec::new(alloc);
    reading.follower.print(&mut text)?;
    text.extend_from_slice(&reading.ends)?;
    Ok(text)
}

/// The picture of what was followed; there is none where it wasn't kept.
fn picture_of(alloc: Global, follower: &Follower) -> Result<Vec<u8>, OutOfMemory>
    ensures { (stream : List Told) → IsAt stream follower.now → IfOk result (λ text. text.items ≡ picture (timeline stream)) }
{
    let Some(stream) = follower.stream() else {
        return Err(OutOfMemory);
    };
    let shown = timeline_of(alloc, stream, follower.account())?;
    draw(alloc, &shown)
}

/// Puts a picture into the file of this name.
fn put_picture<F: Folder>(folder: &mut F, name: &str, text: &[u8]) -> Result<(), Status>
    ensures { PutsPicture name.now text.now (F.told folder.old) (F.told folder.new) result }
{
    match folder.put(name, text) {
        Ok(()) => Ok(()),
        Err(FolderFault::Failed) => Err(Status::PictureFault),
        Err(FolderFault::OutOfMemory) => Err(Status::OutOfMemory),
    }
}

/// Draws what was followed into the file of this name.
fn draw_into<F: Folder>(
    alloc: Global,
    follower: &Follower,
    name: &str,
    folder: &mut F,
) -> Result<(), Status>
    ensures { (stream : List Told) → IsAt stream follower.now → TriesToDraw (Some name.now) stream (F.told folder.old) (F.told folder.new) result }
{
    match picture_of(alloc, follower) {
        Ok(text) => put_picture(folder, name, &text),
        Err(_) => Err(Status::OutOfMemory),
    }
}

/// Draws what was followed into the file of this name, where there is one.
fn try_to_draw<F: Folder>(
    alloc: Global,
    follower: &Follower,
    name: Option<&str>,
    folder: &mut F,
) -> Result<(), Status>
    ensures { (stream : List Told) → IsAt stream follower.now
        → TriesToDraw (option_map (λ name. name.now) name.entry) stream (F.told folder.old) (F.told folder.new) result }
{
    match name {
        Some(name) => draw_into(alloc, follower, name, folder),
        None => Ok(()),
    }
}

/// Writes a text to the output.
fn print<O: Sink>(out: &mut O, text: &[u8]) -> Status
    ensures { Prints text.now (O.told out.old) (O.told out.new) result }
{
    match write_text(out, text) {
        Ok(()) => Status::Ok,
        Err(_) => Status::WriteFault,
    }
}

/// Writes the account of what was read, and draws it where a picture is wanted.
fn write_reading<F: Folder, O: Sink>(
    alloc: Global,
    reading: &Reading,
    picture: Option<&str>,
    folder: &mut F,
    out: &mut O,
) -> Status
    ensures { (stream : List Told) → IsAt stream reading.now.follower
        → Writes (option_map (λ name. name.now) picture.entry) stream reading.now.ends.items (sides (F.told folder.old) (O.told out.old)) (sides (F.told folder.new) (O.told out.new)) result }
{
    let Ok(text) = text_of(alloc, reading) else {
        return Status::OutOfMemory;
    };
    match try_to_draw(alloc, &reading.follower, picture, folder) {
        Ok(()) => print(out, &text),
        Err(status) => status,
    }
}

/// Writes the account that is wanted.
fn write_account<F: ReadAt, O: Sink>(
    alloc: Global,
    wanted: Wanted<'_>,
    folder: &mut F,
    out: &mut O,
) -> Status
    ensures { let s = seen F.told O.told in Ends (files_wanted wanted.entry.files) (picture_wanted wanted.entry)
        (s folder.old out.old) (s folder.new out.new) result }
{
    match read_wanted(alloc, folder, wanted.files, wanted.picture.is_some()) {
        Ok(reading) => write_reading(alloc, &reading, wanted.picture, folder, out),
        Err(status) => status,
    }
}

/// Writes the account of the files that are wanted: a line for each hole, then a line for each session with a verdict, then a line for each
/// file that ends within a message. Where a picture is wanted, the same is drawn into the file of its name. The answer is the exit status.
/// Each status but the good one is said on `err` in one line, where there is memory for it, and a fault of `err` changes nothing.
pub fn account<F: ReadAt, O: Sink, E: Sink>(
    alloc: Global,
    wanted: Wanted<'_>,
    folder: &mut F,
    out: &mut O,
    err: &mut E,
) -> u8
    ensures { let s = seen F.told O.told in Runs (files_wanted wanted.entry.files) (picture_wanted wanted.entry)
        (s folder.old out.old) (s folder.new out.new) (E.told err.old) (E.told err.new) result }
{
    let status = write_account(alloc, wanted, folder, out);
    status.say(alloc, err);
    status.number()
}
