use mx_json::OutOfMemory;
use mx_rule::EditRefusal;
use std::alloc::AllocError;
use std::error::Error;
use std::fmt;

/// Why an edit wasn't planned.
#[derive(Clone, Copy, Debug, PartialEq, Eq)]
pub enum EditError {
    /// It is refused.
    Refused(EditRefusal),
    /// The allocator had no memory.
    OutOfMemory,
}

impl fmt::Display for EditError {
    fn fmt<W: fmt::Write>(&self, f: &mut fmt::Formatter<W>) -> fmt::Result {
        match self {
            EditError::Refused(refusal) => f.write_str(cause_of(*refusal)),
            EditError::OutOfMemory => f.write_str("out of memory"),
        }
    }
}

impl Error for EditError {}

fn cause_of(refusal: EditRefusal) -> &'static str {
    match refusal {
        EditRefusal::RuleReserved => "the rule's id is reserved",
        EditRefusal::BadRule(_) => "a part of the rule is wrong",
        EditRefusal::RuleUnknown => "there is no such rule",
        EditRefusal::AnchorUnknown => "there is no such rule to stand beside",
        EditRefusal::RulesFull => "the user has too many rules",
    }
}

impl From<EditRefusal> for EditError {
    ghost use Rattle.std.specs.Prelude.{◌≡◌};
    ghost use Rattle.mx_edit.specs.declared.error.EditError.TheVariants.{Refused};

    ghost from_gives = { λ refusal e. e ≡ Refused refusal };

    fn from(refusal: EditRefusal) -> EditError {
        EditError::Refused(refusal)
    }
}

impl From<OutOfMemory> for EditError {
    ghost use Rattle.std.specs.Prelude.{◌≡◌};
    ghost use Rattle.mx_edit.specs.declared.error.EditError.TheVariants.{OutOfMemory};

    ghost from_gives = { λ _ e. e ≡ OutOfMemory };

    fn from(_error: OutOfMemory) -> EditError {
        EditError::OutOfMemory
    }
}

impl From<AllocError> for EditError {
    ghost use Rattle.std.specs.Prelude.{◌≡◌};
    ghost use Rattle.mx_edit.specs.declared.error.EditError.TheVariants.{OutOfMemory};

    ghost from_gives = { λ _ e. e ≡ OutOfMemory };

    fn from(_error: AllocError) -> EditError {
        EditError::OutOfMemory
    }
}
