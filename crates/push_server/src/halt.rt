use crate::answer::AnswerError;
use crate::status::Status;
use mx_outside::Failed;

/// Why the answering of lines ended.
#[derive(Clone, Copy, Debug, PartialEq, Eq)]
pub enum Halt {
    /// There was no memory.
    OutOfMemory,
    /// The disk failed.
    DiskFault,
    /// The sink failed.
    WriteFault,
}

impl Halt {
    ghost use Rattle.std.specs.Prelude.{◌≡◌};
    ghost use Rattle.push_server.specs.Status.{status_of};

    /// How a call of the server ends that halts so.
    pub fn status(self) -> Status
        ensures { result ≡ status_of self }
    {
        match self {
            Halt::OutOfMemory => Status::OutOfMemory,
            Halt::DiskFault => Status::DiskFault,
            Halt::WriteFault => Status::WriteFault,
        }
    }
}

impl From<AnswerError> for Halt {
    ghost use Rattle.std.specs.Prelude.{◌≡◌};
    ghost use Rattle.push_server.specs.Answered.{halt_of};

    ghost from_gives = { λ error halt. halt ≡ halt_of error };

    fn from(error: AnswerError) -> Halt {
        match error {
            AnswerError::DiskFault => Halt::DiskFault,
            AnswerError::OutOfMemory => Halt::OutOfMemory,
        }
    }
}

impl From<Failed> for Halt {
    ghost use Rattle.std.specs.Prelude.{◌≡◌};
    ghost use Rattle.push_server.specs.declared.halt.Halt.TheVariants as halt;

    ghost from_gives = { λ _ h. h ≡ halt.WriteFault };

    fn from(_error: Failed) -> Halt {
        Halt::WriteFault
    }
}
