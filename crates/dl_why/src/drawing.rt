//! The picture of a script goes into its file, where one is wanted.

ghost use Rattle.std.specs.Prelude.{◌≡◌, ℕ, List, Some, option_map};
ghost use Rattle.dl_why.specs.Drawing.{TriesToDraw, drawn_for};

use crate::steps_status::StepsStatus;
use dl_outside::{Folder, FolderFault};
use dl_startup::Status;

/// Puts a picture into the file of this name.
fn put_picture<F: Folder>(folder: &mut F, name: &str, text: &[u8]) -> Result<(), StepsStatus>
    ensures { TriesToDraw (Some name.now) text.now (F.told folder.old) (F.told folder.new) result }
{
    match folder.put(name, text) {
        Ok(()) => Ok(()),
        Err(FolderFault::Failed) => Err(StepsStatus::PictureFault),
        Err(FolderFault::OutOfMemory) => Err(StepsStatus::Plain(Status::OutOfMemory)),
    }
}

/// Puts what was drawn into the file of this name, where there is one.
pub fn put_where_wanted<F: Folder>(
    folder: &mut F,
    name: Option<&str>,
    drawn: &Option<Vec<u8>>,
) -> Result<(), StepsStatus>
    ensures { (text : List ℕ) → option_map (λ shown. shown.items) drawn.now ≡ drawn_for name.entry text
        → TriesToDraw (option_map (λ n. n.now) name.entry) text (F.told folder.old) (F.told folder.new) result }
{
    let Some(name) = name else {
        return Ok(());
    };
    match drawn {
        Some(text) => put_picture(folder, name, text),
        None => Ok(()),
    }
}
