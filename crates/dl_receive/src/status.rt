//! How the program ends: its exit status, and the line that it says on standard error.

ghost use Rattle.std.specs.Prelude.{◌≡◌};
ghost use Rattle.dl_receive.specs.Status.{line_of, number};

/// How a receiver ended. Its number is the exit status.
#[derive(Clone, Copy, PartialEq, Eq)]
pub enum Status {
    /// The stream ended after a whole message, or had none.
    Ok = 0,
    /// The words after the program's name aren't a port alone.
    WordsRefused = 2,
    /// A message of the stream has a bad header. It and what follows it isn't read.
    BadMessage = 3,
    /// The stream ended within a message.
    Truncated = 5,
    /// The output failed.
    WriteFault = 6,
    /// Nothing could be reached at the port.
    NetFault = 8,
    /// Memory ran out.
    OutOfMemory = 9,
    /// The connection failed.
    ReadFault = 11,
    /// As many bytes came as a receiver reads at most: 2^40.
    Limit = 12,
}

impl Status {
    /// The exit status.
    pub fn number(self) -> u8
        ensures { result ≡ number self }
    {
        self as u8
    }

    /// The line on standard error, with its line feed; none where all went well.
    pub fn line(self) -> &'static [u8]
        ensures { result.now ≡ line_of self }
    {
        match self {
            Status::Ok => b"",
            Status::WordsRefused => b"dlt_receive: usage: dlt_receive PORT\n",
            Status::BadMessage => b"dlt_receive: bad message\n",
            Status::Truncated => b"dlt_receive: truncated\n",
            Status::WriteFault => b"dlt_receive: write fault\n",
            Status::NetFault => b"dlt_receive: net fault\n",
            Status::OutOfMemory => b"dlt_receive: out of memory\n",
            Status::ReadFault => b"dlt_receive: read fault\n",
            Status::Limit => b"dlt_receive: limit\n",
        }
    }
}
