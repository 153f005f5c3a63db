ghost use Rattle.std.specs.Prelude.{◌≡◌};
ghost use Rattle.std.specs.Option.{option_copied};

/// How a call of the server ended.
#[derive(Clone, Copy, Debug, PartialEq, Eq)]
pub enum Status {
    /// The input was read to its end, and each line has its reply.
    Done,
    /// The words aren't those of the command line.
    Usage,
    /// The source failed. Each line that ended before has its reply, and a part of a line has none.
    ReadFault,
    /// The sink failed, in the reply to a line.
    WriteFault,
    /// The disk failed. The line that was answered last is kept;
    /// the one after it may be kept or not.
    DiskFault,
    /// The disk's content is no journal of this homeserver. Where its first fault is was written.
    NotAJournal,
    /// There was no memory. No reply is cut short.
    OutOfMemory,
    /// The input has as many bytes as are taken. Each line that ends in them has its reply.
    InputLimit,
}

impl Status {
    ghost use Rattle.push_server.specs.Status.{code_of, line_of};

    /// The exit status of the program.
    pub fn code(self) -> u8
        ensures { result ≡ code_of self }
    {
        match self {
            Status::Done => 0,
            Status::Usage => 2,
            Status::ReadFault => 3,
            Status::WriteFault => 4,
            Status::DiskFault => 5,
            Status::NotAJournal => 6,
            Status::OutOfMemory => 7,
            Status::InputLimit => 8,
        }
    }

    /// The line for standard error, without its line feed. [`Status::Done`] has none.
    pub fn line(self) -> Option<&'static str>
        ensures { option_copied result ≡ line_of self }
    {
        match self {
            Status::Done => None,
            Status::Usage => Some("push_server: usage"),
            Status::ReadFault => Some("push_server: read fault"),
            Status::WriteFault => Some("push_server: write fault"),
            Status::DiskFault => Some("push_server: disk fault"),
            Status::NotAJournal => Some("push_server: not a journal"),
            Status::OutOfMemory => Some("push_server: out of memory"),
            Status::InputLimit => Some("push_server: input limit"),
        }
    }
}
