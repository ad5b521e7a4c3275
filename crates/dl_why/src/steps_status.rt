//! How the explanation of a script ends.

ghost use Rattle.std.specs.Prelude.{◌≡◌};
ghost use Rattle.dl_why.specs.StepsStatus.{number};

use dl_startup::Status;

/// How the explanation of a script ended. Its number is the exit status.
#[derive(Clone, Copy, PartialEq, Eq)]
pub enum StepsStatus {
    /// As it ends where no picture is wanted.
    Plain(Status),
    /// The folder failed when the picture was to be written. Nothing else was written.
    PictureFault,
}

impl StepsStatus {
    /// The exit status.
    pub fn number(self) -> u8
        ensures { result ≡ number self }
    {
        match self {
            StepsStatus::Plain(status) => status.number(),
            StepsStatus::PictureFault => 7,
        }
    }
}
