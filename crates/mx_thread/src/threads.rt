ghost use Rattle.std.specs.Prelude.{◌≡◌, ◌&&◌, ◌||◌, true, None, is_ok, if◌then◌else◌, List, ℕ};
ghost use Rattle.std.specs.Prelude.{IfOk};
ghost use Rattle.std.specs.FinMap as map;
ghost use Rattle.std.specs.Option.{option_copied};
ghost use Rattle.std.specs.Str.{bytes_eq};
ghost use Rattle.mx_json.specs.Ids.{is_event_id};
ghost use Rattle.mx_rows.specs.declared.thread_key.ThreadKey.TheVariants.{Main, Root};
ghost use Rattle.mx_thread.specs.Place.{place_in, thread_at, thread_of};
ghost use Rattle.mx_thread.specs.ThreadsView.{has_capacity};

use crate::place::Place;
use mx_event::{Event, Relation};
use mx_json::{EventId, IdError, OutOfMemory, RoomId};
use mx_rows::ThreadKey;
use std::alloc::Global;
use std::collections::HashMap;
use std::marker::Model;

/// Where accepted events are, by their ids: seen as a map, with the ids for whose places there is
/// capacity.
///
/// Each call is one look-up.
#[derive(Drop)]
pub struct Threads {
    // Of each id that has a place, or for which capacity was made.
    places: HashMap<EventId, Option<Place>>,
}

impl Model for Threads {
    ghost use Rattle.mx_thread.specs.ThreadsView.{ThreadsView, view_of};
    ghost use Rattle.std.specs.Coded.{codes};
    ghost use Rattle.std.specs.FinMap as map;
    ghost use Rattle.std.specs.FinSet as set;
    ghost use Rattle.std.specs.List.{IsDistinct};
    ghost use Rattle.std.specs.Map.{keys_of};
    ghost use Rattle.std.specs.Str.{bytes_eq};

    ghost Value = { ThreadsView };

    ghost coded = { Prim.hlevel (codes, map.code, set.code) };

    ghost view = { λ threads. view_of threads.places.entries };

    ghost invariant = { λ threads. IsDistinct bytes_eq (keys_of threads.places.entries) };
}

impl Threads {
    /// No event is anywhere.
    pub fn new(alloc: Global) -> Threads
        ensures { result.places ≡ map.empty }
    {
        Threads {
            places: HashMap::new(alloc),
        }
    }

    /// The thread of an event that comes after those that have a place.
    ///
    /// # Errors
    ///
    /// `OutOfMemory` where the allocator has none.
    pub fn of(&self, alloc: Global, event: &Event) -> Result<ThreadKey, OutOfMemory>
        ensures { IfOk result (λ thread. thread ≡ thread_of (place_in self.now.places) event.now) }
    {
        match event.relation() {
            Relation::Thread(root) => root_of(alloc, root),
            Relation::Other(id) => self.thread_beside(alloc, id, event.room_id()),
            Relation::Nothing => Ok(ThreadKey::Main),
        }
    }

    /// Makes capacity for the place of this id.
    ///
    /// # Errors
    ///
    /// `OutOfMemory` where the allocator has none.
    pub fn reserve(&mut self, alloc: Global, id: &EventId) -> Result<(), OutOfMemory>
        ensures places { self.new.places ≡ self.old.places }
        ensures capacity { (q : List ℕ) → has_capacity self.new q
            ≡ (has_capacity self.old q || (is_ok result && bytes_eq id.now q)) }
    {
        if self.places.contains_key(id) {
            return Ok(());
        }
        self.places.insert(id.copied(alloc)?, None)?;
        Ok(())
    }

    /// Notes the place of an event whose id is new. Takes no memory.
    pub fn note(&mut self, id: &EventId, place: Place)
        requires capacity { has_capacity self.old id.now ≡ true }
        requires new { place_in self.old.places id.now ≡ None }
        ensures places { self.new.places ≡ map.insert self.old.places id.now place }
        ensures capacity { (q : List ℕ) → has_capacity self.new q ≡ has_capacity self.old q }
    {
        match self.places.get_mut(id) {
            Some(kept) => *kept = Some(place),
            None => unreachable!(),
        }
    }

    /// Where the event with this id is, `None` exactly where it has no place. Takes no memory.
    pub fn place_of(&self, id: &EventId) -> Option<&Place>
        ensures { option_copied result ≡ place_in self.now.places id.now }
    {
        match self.places.get(id) {
            Some(kept) => kept.as_ref(),
            None => None,
        }
    }

    // The thread of the event with this id where it is one of the room, and else the main one.
    fn thread_beside(
        &self,
        alloc: Global,
        id: &str,
        room: &RoomId,
    ) -> Result<ThreadKey, OutOfMemory>
        ensures { IfOk result (λ thread. thread ≡ (if is_event_id id.now
            then thread_at room.now (place_in self.now.places id.now) else Main)) }
    {
        match EventId::read(alloc, id) {
            Ok(id) => match self.place_of(&id) {
                Some(place) if place.room == *room => place.thread.copied(alloc),
                _ => Ok(ThreadKey::Main),
            },
            Err(IdError::BadId) => Ok(ThreadKey::Main),
            Err(IdError::OutOfMemory) => Err(OutOfMemory),
        }
    }
}

/// The thread of this root, which is an event id.
fn root_of(alloc: Global, root: &str) -> Result<ThreadKey, OutOfMemory>
    requires { is_event_id root.now ≡ true }
    ensures { IfOk result (λ thread. thread ≡ Root root.now) }
{
    match EventId::read(alloc, root) {
        Ok(id) => Ok(ThreadKey::Root(id)),
        Err(IdError::OutOfMemory) => Err(OutOfMemory),
        Err(IdError::BadId) => unreachable!(),
    }
}
