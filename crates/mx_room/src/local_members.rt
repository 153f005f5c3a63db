ghost use Rattle.std.specs.Prelude.{◌≡◌, ◌<◌, [], ℕ, List, length, if◌then◌else◌, OnOk};
ghost use Rattle.std.specs.List.{IsDistinct, list_any};
ghost use Rattle.std.specs.Str.{bytes_eq};

use mx_json::{OutOfMemory, UserId};
use std::alloc::Global;
use std::marker::Model;

/// The joined local users of a room, each once, in no order that is told.
#[derive(Drop)]
pub(crate) struct LocalMembers {
    users: Vec<UserId>,
}

impl Model for LocalMembers {
    ghost use Rattle.std.specs.List.{IsDistinct};
    ghost use Rattle.std.specs.Str.{bytes_eq};
    ghost use Rattle.std.specs.Vec.{vec_capacity};
    ghost use Rattle.mx_room.specs.Kept.{KeptUsers};

    ghost Value = { KeptUsers };

    ghost view = { λ local. record {
      users = local.users.items;
      capacity = vec_capacity local.users;
    } };

    ghost invariant = { λ local. IsDistinct bytes_eq local.users.items };
}

impl LocalMembers {
    pub(crate) fn new(alloc: Global) -> LocalMembers
        ensures { result.users ≡ [] }
    {
        LocalMembers {
            users: Vec::new(alloc),
        }
    }

    // Makes capacity for one more user.
    pub(crate) fn reserve(&mut self) -> Result<(), OutOfMemory>
        ensures users { self.new.users ≡ self.old.users }
        ensures capacity { OnOk result (length self.new.users < self.new.capacity) }
    {
        self.users.reserve(1)?;
        Ok(())
    }

    // Lists the user where joined, and else no more. Takes no memory.
    pub(crate) fn set(&mut self, user: UserId, joined: bool)
        requires { length self.old.users < self.old.capacity }
        ensures { (q : List ℕ) → list_any (bytes_eq q) self.new.users
            ≡ (if bytes_eq q user then joined else list_any (bytes_eq q) self.old.users) }
    {
        self.users.retain(|listed| *listed != user);
        if joined {
            match self.users.push(user) {
                Ok(()) => {}
                Err(_) => unreachable!(),
            }
        }
    }

    pub(crate) fn users(&self) -> &[UserId]
        ensures users { result.now ≡ self.now.users }
        ensures distinct { IsDistinct bytes_eq self.now.users }
    {
        self.users.as_slice()
    }
}
