ghost use Rattle.std.specs.Prelude.{◌≡◌};
ghost use Rattle.mx_records.specs.Refusing.{refusal_by};

use crate::field_name::FieldName;
use mx_rule::{EditRefusal, Part};
use std::error::Error;
use std::fmt;

/// As many inputs as a history may have.
pub const MOST_INPUTS: u64 = 1_000_000;

/// How many bytes the payload of an input may have.
pub const LONGEST_PAYLOAD: usize = 262_144;

/// How deep the object that stands for an input may be nested.
pub const DEEPEST_INPUT: u32 = 100;

/// Why a history refuses an input or a question, in the order in which the causes are tested.
#[derive(Clone, Copy, Debug, PartialEq, Eq)]
pub enum Refusal {
    /// The user isn't local: the id isn't that of a user of this server.
    NotLocal,
    /// The event id was accepted before, first at this position (from 1).
    KnownEvent(u64),
    /// The event that a receipt names isn't an accepted event of its room.
    UnknownEvent,
    /// The event that a receipt names is neither in the thread that it names nor its root.
    NotInThread,
    /// A put or a delete of a rule id that begins with a full stop, or a put of one that holds a
    /// slash or a backslash.
    RuleReserved,
    /// This part of an edit of rules is the first that is wrong.
    BadRule(Part),
    /// The kind has no rule with this id.
    RuleUnknown,
    /// What is to stand beside a rule isn't another rule of its kind that the user made.
    AnchorUnknown,
    /// The user made 1,000 rules, and the rule isn't one of them.
    RulesFull,
    /// The input's payload has more than 262,144 bytes, or the object that stands for it is nested
    /// deeper than 100. No line of at most 131,072 bytes that is nested at most 100 deep gives one.
    EntryTooLong,
    /// The history has 1,000,000 inputs, and takes no more.
    Full,
}

impl fmt::Display for Refusal {
    fn fmt<W: fmt::Write>(&self, f: &mut fmt::Formatter<W>) -> fmt::Result {
        match self {
            Refusal::NotLocal => f.write_str("the user isn't local"),
            Refusal::KnownEvent(position) => {
                write!(f, "the event is known, at position {position}")
            }
            Refusal::UnknownEvent => f.write_str("the room has no such event"),
            Refusal::NotInThread => f.write_str("the event isn't in that thread"),
            Refusal::RuleReserved => f.write_str("the rule id is reserved"),
            Refusal::BadRule(part) => {
                let field = FieldName::of_part(*part);
                write!(f, "the rule's {field} is wrong")
            },
            Refusal::RuleUnknown => f.write_str("there is no such rule"),
            Refusal::AnchorUnknown => f.write_str("there is no such rule to stand beside"),
            Refusal::RulesFull => f.write_str("the user has as many rules as a user may have"),
            Refusal::EntryTooLong => f.write_str("the input is too long to be kept"),
            Refusal::Full => write!(
                f,
                "{MOST_INPUTS} inputs were accepted, and no more are taken"
            ),
        }
    }
}

impl Error for Refusal {}

impl From<EditRefusal> for Refusal {
    ghost from_gives = { λ refusal result. result ≡ refusal_by refusal };

    fn from(refusal: EditRefusal) -> Refusal {
        match refusal {
            EditRefusal::RuleReserved => Refusal::RuleReserved,
            EditRefusal::BadRule(part) => Refusal::BadRule(part),
            EditRefusal::RuleUnknown => Refusal::RuleUnknown,
            EditRefusal::AnchorUnknown => Refusal::AnchorUnknown,
            EditRefusal::RulesFull => Refusal::RulesFull,
        }
    }
}
