//! Laws on the writers of a desk.

ghost use Rattle.dl_writer.specs.State.{WriterState};
ghost use Rattle.dl_desk.specs.Made.{IsLater, IsMadeWith};
ghost use Rattle.dl_desk.specs.State.{DeskState};

/// A writer that was made with a desk stays one that was, whatever is done with the desk.
pub fn made_stays()
    ensures stays { (old new : DeskState) (w : WriterState) → IsLater old new → IsMadeWith old w → IsMadeWith new w }
    ensures again { (first second third : DeskState) → IsLater first second → IsLater second third → IsLater first third }
{}
