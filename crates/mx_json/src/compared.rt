//! Ids and texts are equal where their bytes are, and hash as their text: they are keys of maps.

ghost use Rattle.std.specs.Prelude.{bytes_eq};
ghost use Rattle.std.proofs.Common.{rules};
ghost use Rattle.std.specs.Hash as fed;
ghost use Rattle.std.specs.Cmp.{partial_equiv_from_equiv};
ghost use Rattle.std.specs.Cmp.Lexicographic.{nat_list_eq_equiv};
ghost use Rattle.std.specs.Cmp.Rules.{hashing};

use crate::event_id::EventId;
use crate::room_id::RoomId;
use crate::text::JsonText;
use crate::user_id::UserId;
use std::hash::{Hash, Hasher};

impl PartialEq for UserId {
    ghost eq = { bytes_eq };

    ghost laws = { partial_equiv_from_equiv nat_list_eq_equiv };

    fn eq(&self, other: &UserId) -> bool {
        self.as_text() == other.as_text()
    }
}

impl Eq for UserId {
    ghost laws = { nat_list_eq_equiv };
}

impl Hash for UserId {
    ghost hash_input = { fed.str };

    ghost respects_eq = { Prim.search (hashing, rules) };

    fn hash<H: Hasher>(&self, state: &mut H) {
        self.as_text().hash(state);
    }
}

impl PartialEq for RoomId {
    ghost eq = { bytes_eq };

    ghost laws = { partial_equiv_from_equiv nat_list_eq_equiv };

    fn eq(&self, other: &RoomId) -> bool {
        self.as_text() == other.as_text()
    }
}

impl Eq for RoomId {
    ghost laws = { nat_list_eq_equiv };
}

impl Hash for RoomId {
    ghost hash_input = { fed.str };

    ghost respects_eq = { Prim.search (hashing, rules) };

    fn hash<H: Hasher>(&self, state: &mut H) {
        self.as_text().hash(state);
    }
}

impl PartialEq for EventId {
    ghost eq = { bytes_eq };

    ghost laws = { partial_equiv_from_equiv nat_list_eq_equiv };

    fn eq(&self, other: &EventId) -> bool {
        self.as_text() == other.as_text()
    }
}

impl Eq for EventId {
    ghost laws = { nat_list_eq_equiv };
}

impl Hash for EventId {
    ghost hash_input = { fed.str };

    ghost respects_eq = { Prim.search (hashing, rules) };

    fn hash<H: Hasher>(&self, state: &mut H) {
        self.as_text().hash(state);
    }
}

impl PartialEq for JsonText {
    ghost eq = { bytes_eq };

    ghost laws = { partial_equiv_from_equiv nat_list_eq_equiv };

    fn eq(&self, other: &JsonText) -> bool {
        self.as_str() == other.as_str()
    }
}

impl Eq for JsonText {
    ghost laws = { nat_list_eq_equiv };
}

impl Hash for JsonText {
    ghost hash_input = { fed.str };

    ghost respects_eq = { Prim.search (hashing, rules) };

    fn hash<H: Hasher>(&self, state: &mut H) {
        self.as_str().hash(state);
    }
}
