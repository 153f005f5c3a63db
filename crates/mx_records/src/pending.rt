//! Events that pushers are yet to post.

ghost use Rattle.std.specs.Prelude.{◌≡◌, true, slice_get, None, OnErr, OnOk, IfOk, MatchResult};
ghost use Rattle.std.specs.FinMap as map;
ghost use Rattle.std.specs.Option.{option_copied};
ghost use Rattle.mx_records.specs.Pending.{are_rising, tweaks_in, with_user, without_user};
ghost use Rattle.mx_records.specs.Pending.{IsEntryAt, IsGapAt};

use mx_event::Event;
use mx_json::{JsonText, OutOfMemory, UserId};
use std::alloc::Global;
use std::marker::Model;

/// How a notification is shown to a user (Client-Server API v1.11, "Push rules: Actions").
#[derive(Drop)]
pub struct Tweaks {
    /// Whether it is highlighted.
    pub highlight: bool,
    /// The sound that it makes, if any.
    pub sound: Option<JsonText>,
}

/// An event that pushers are yet to post: the event, its position, the sender's display name in
/// the room after it, and the users for whose pushers it is pending, each with its tweaks.
///
/// A user is found by halving. No call walks the users; adding one that isn't the last and removing
/// one moves those behind it.
#[derive(Drop)]
pub struct PendingEvent {
    event: Event,
    position: u64,
    sender_display_name: Option<JsonText>,
    users: Vec<(UserId, Tweaks)>,
}

impl Model for PendingEvent {
    ghost use Rattle.mx_records.specs.Pending.{Pending};

    ghost Value = { Pending };

    ghost use Rattle.mx_json.specs.contracts.value.Json as whole;
    ghost use Rattle.std.specs.Coded.{codes};
    ghost use Rattle.std.specs.FinMap as map;

    ghost coded = { Prim.hlevel (codes, map.code, whole.the_row.coded) };

    ghost use Rattle.std.specs.Prelude.{◌≡◌, true};
    ghost use Rattle.mx_records.specs.Pending.{are_rising, users_in};

    ghost view = { λ pending. record {
      event = pending.event;
      position = pending.position;
      sender_display_name = pending.sender_display_name;
      users = users_in pending.users.items;
    } };

    ghost invariant = { λ pending. are_rising pending.users.items ≡ true };
}

impl PendingEvent {
    /// The event at this position, pending for nobody. The name is the sender's display name in the
    /// room after the event.
    ///
    /// # Errors
    ///
    /// `OutOfMemory` where the allocator has none.
    pub fn new(
        alloc: Global,
        event: Event,
        position: u64,
        sender_display_name: Option<JsonText>,
    ) -> Result<PendingEvent, OutOfMemory>
        ensures { IfOk result (λ pending. pending ≡ record {
          event = event;
          position = position;
          sender_display_name = sender_display_name;
          users = map.empty;
        }) }
    {
        Ok(PendingEvent {
            event,
            position,
            sender_display_name,
            users: Vec::new(alloc),
        })
    }

    /// The event.
    pub fn event(&self) -> &Event
        ensures { result.now ≡ self.now.event }
    {
        &self.event
    }

    /// The position of the event in the history.
    pub fn position(&self) -> u64
        ensures { result ≡ self.now.position }
    {
        self.position
    }

    /// The sender's display name in the room after the event, if there is one.
    pub fn sender_display_name(&self) -> Option<&str>
        ensures { option_copied result ≡ self.now.sender_display_name }
    {
        match &self.sender_display_name {
            Some(name) => Some(name.as_str()),
            None => None,
        }
    }

    /// How the event is shown to a user; `None` exactly where it is pending for no pusher of that
    /// user.
    pub fn tweaks(&self, user: &UserId) -> Option<&Tweaks>
        ensures { option_copied result ≡ map.get self.now.users user.now }
    {
        tweaks_in(self.users.as_slice(), user)
    }

    /// The users for whose pushers the event is pending, in rising order of their bytes; `None`
    /// exactly past the last.
    pub fn user_at(&self, k: usize) -> Option<&UserId>
        ensures { option_copied result ≡ slice_get (map.keys self.now.users) k }
    {
        match entry_at(self.users.as_slice(), k) {
            Some(entry) => Some(&entry.0),
            None => None,
        }
    }

    /// Adds a user, or replaces that user's tweaks. After an error the event is as before.
    ///
    /// # Errors
    ///
    /// `OutOfMemory` where the allocator has none.
    pub fn add(&mut self, user: UserId, tweaks: Tweaks) -> Result<(), OutOfMemory>
        ensures ok { OnOk result (self.new ≡ record self.old {
          users = map.insert self.old.users user tweaks;
        }) }
        ensures err { OnErr result (self.new ≡ self.old) }
    {
        put(&mut self.users, user, tweaks)
    }

    /// Takes a user out; the event is then pending for no pusher of that user.
    pub fn remove(&mut self, user: &UserId)
        ensures { self.new ≡ record self.old { users = map.remove self.old.users user.now } }
    {
        take_out(&mut self.users, user);
    }
}

// The entry at this place; `None` exactly past the last.
fn entry_at(users: &[(UserId, Tweaks)], k: usize) -> Option<&(UserId, Tweaks)>
    ensures { option_copied result ≡ slice_get users.now k }
{
    users.get(k)
}

// The tweaks in a user's entry, if there is one.
fn tweaks_in<'a>(users: &'a [(UserId, Tweaks)], user: &UserId) -> Option<&'a Tweaks>
    requires { are_rising users.now ≡ true }
    ensures { option_copied result ≡ tweaks_in user.now users.now }
{
    match place_of(users, user) {
        Ok(at) => Some(&users[at].1),
        Err(_) => None,
    }
}

// Puts a user's entry in its place.
fn put(users: &mut Vec<(UserId, Tweaks)>, user: UserId, tweaks: Tweaks) -> Result<(), OutOfMemory>
    requires { are_rising users.old.items ≡ true }
    ensures ok { OnOk result (users.new.items ≡ with_user user tweaks users.old.items) }
    ensures err { OnErr result (users.new.items ≡ users.old.items) }
{
    match place_of(users.as_slice(), &user) {
        Ok(at) => users[at] = (user, tweaks),
        Err(at) => users.insert(at, (user, tweaks))?,
    }
    Ok(())
}

// Takes a user's entry out, if there is one.
fn take_out(users: &mut Vec<(UserId, Tweaks)>, user: &UserId)
    requires { are_rising users.old.items ≡ true }
    ensures { users.new.items ≡ without_user user.now users.old.items }
{
    if let Ok(at) = place_of(users.as_slice(), user) {
        users.remove(at);
    }
}

// Where a user's entry stands, or where one would have to.
fn place_of(users: &[(UserId, Tweaks)], user: &UserId) -> Result<usize, usize>
    requires { are_rising users.now ≡ true }
    ensures { MatchResult result (λ at. IsEntryAt user.now users.now at)
        (λ at. IsGapAt user.now users.now at) }
{
    users.binary_search_by(|entry| entry.0.as_text().cmp(user.as_text()))
}
