ghost use Rattle.std.specs.Prelude.{◌≡◌, ◌+◌, ◌≤◌, [], ℕ, Bool, List, None, true, slice_get};
ghost use Rattle.std.specs.Prelude.{IfNone, IfOk, IfSome, OnOk};
ghost use Rattle.std.specs.FinSet as set;
ghost use Rattle.std.specs.Option.{option_copied};
ghost use Rattle.mx_edit.specs.Planning.{is_made_for, IsPlanOf};
ghost use Rattle.mx_event.specs.Event.{event_id_of, room_id_of};
ghost use Rattle.mx_records.specs.History.{History, position_after, with_input};
ghost use Rattle.mx_records.specs.Counting.{counts_of, room_counts_of, rows_of, threads_of};
ghost use Rattle.mx_records.specs.declared.entry.Entry.{Entry};
ghost use Rattle.mx_records.specs.Entries.{payload_of};
ghost use Rattle.mx_records.specs.Normal.{IsNormal};
ghost use Rattle.mx_records.specs.Refusing.{most_inputs, refusal_of_content, IsBuilt};
ghost use Rattle.mx_json.specs.Ids.{is_local};
ghost use Rattle.mx_records.specs.Rules.{is_valid_input, own_rules, rules_among};
ghost use Rattle.mx_records.specs.Snapshot.{snapshot_of};
ghost use Rattle.mx_room.specs.Change.{sets_of};
ghost use Rattle.mx_rule.specs.Editing.{is_valid_edit};
ghost use Rattle.mx_thread.specs.Place.{place_in, thread_of};
ghost use Rattle.mx_rows.specs.declared.thread_key.ThreadKey.{ThreadKey};
ghost use Rattle.mx_engine.specs.Capacity.{HasCapacity, HasCapacityFor, SufficesFor};
ghost use Rattle.mx_engine.specs.Capacity.{SufficesForRows};
ghost use Rattle.mx_engine.specs.KeptRows.{AreUnreadRows, list_at};
ghost use Rattle.mx_engine.specs.Planning.{event_planned, read_planned, rows_with_event};
ghost use Rattle.mx_engine.specs.Planning.{rows_with_read, with_edit, with_event, with_read};
ghost use Rattle.mx_engine.specs.Planning.{IsMadeFor, IsPlacedAt, IsPlannedFor, IsReads, Suits};
ghost use Rattle.mx_engine.specs.Telling.{KeepsCapacity};
ghost use Rattle.mx_engine.specs.Preparing.{IsPlanned, IsPrepared, RefusesInRange, SaysOfContent};

use crate::judging::notified_users;
use crate::kept_rows::UnreadRows;
use crate::payload::{payload_within, refused};
use crate::plan::{Change, EventPlan, ReadPlan};
use crate::reading::{copied, cut_read, read_upto};
use crate::rules::{UserRules, remember_named};
use crate::telling::{cut_mover, mover_of, push_rows, reserve_rows};
use crate::totals::totals;
use crate::{Plan, PrepareError};
use mx_edit::{EditError, EditPlan};
use mx_event::Event;
use mx_glob::Scratch;
use mx_json::{EventId, OutOfMemory, RoomId, UserId};
use mx_records::{Counts, Input, MOST_INPUTS, Questions, Refusal};
use mx_room::{Rooms, RoomsPlan};
use mx_rows::{Rows, ThreadKey};
use mx_rule::{Edit, Ruleset};
use mx_thread::{Place, Threads};
use std::alloc::Global;
use std::marker::Model;

/// What push_server knows of its history, of at most 1,000,000 inputs. Contracts see the server's
/// name, what the engine shows of its history, and for which inputs its memory suffices.
#[derive(Drop)]
pub struct Engine<R: Rows> {
    rooms: Rooms,
    rules: UserRules,
    places: Threads,
    unread: UnreadRows<R>,
    inputs: u64,
    scratch: Scratch,
}

impl<R: Rows> Model for Engine<R> {
    ghost use Rattle.mx_engine.specs.View.{View};

    ghost Value = { View };

    ghost use Rattle.mx_json.specs.contracts.value.Json as json;
    ghost use Rattle.mx_rows.specs.contracts.row.Row as row;
    ghost use Rattle.mx_rows.specs.contracts.thread_key.ThreadKey as thread;
    ghost use Rattle.std.specs.Coded.{codes};
    ghost use Rattle.std.specs.FinMap as map;
    ghost use Rattle.std.specs.FinSet as set;

    ghost coded = { Prim.hlevel (
      codes,
      map.code,
      set.code,
      json.the_row.coded,
      row.the_row.coded,
      thread.the_row.coded,
    ) };

    ghost use Rattle.std.specs.Prelude.{◌≡◌, ◌≤◌, ℕ, List, IfSome};
    ghost use Rattle.mx_rows.specs.declared.thread_key.ThreadKey.{ThreadKey};
    ghost use Rattle.mx_engine.specs.KeptRows.{AreUnreadRows, list_at};
    ghost use Rattle.mx_engine.specs.Planning.{AreUpto};
    ghost use Rattle.mx_records.specs.Refusing.{most_inputs};
    ghost use Rattle.mx_thread.specs.Place.{place_in, thread_of};

    ghost view = { λ engine. record {
      server = engine.rooms.server;
      shown = record {
        inputs = engine.inputs;
        places = engine.places.places;
        rooms = engine.rooms.states;
        rules = engine.rules.edited;
        unread = engine.unread.unread;
      };
      capacity = record {
        rooms = engine.rooms.capacity;
        places = engine.places.capacity;
        rules = engine.rules.capacity;
        rows = engine.unread.capacity;
      };
    } };

    ghost invariant = { λ engine.
        (engine.rules.server ≡ engine.rooms.server)
        × (engine.inputs ≤ most_inputs)
        × AreUnreadRows engine.unread.unread
        × ((user room : List ℕ) (thread : ThreadKey)
        → AreUpto engine.inputs (list_at engine.unread.unread user room thread))
        × ((id : List ℕ) → IfSome (place_in engine.places.places id)
        (λ place. place.position ≤ most_inputs)) };
}

impl<R: Rows> Engine<R> {
    /// An engine of the homeserver with this name, before any input.
    ///
    /// # Errors
    ///
    /// `OutOfMemory` where the allocator has none.
    pub fn new(alloc: Global, server: &str) -> Result<Engine<R>, OutOfMemory>
        ensures server { IfOk result (λ engine. engine.server ≡ server.now) }
        ensures empty { IfOk result (λ engine. engine.shown ≡ snapshot_of server.now []) }
    {
        Ok(Engine {
            rooms: Rooms::new(alloc, server)?,
            rules: UserRules::new(alloc, server)?,
            places: Threads::new(alloc),
            unread: UnreadRows::new(alloc),
            inputs: 0,
            scratch: Scratch::new(alloc)?,
        })
    }

    /// The homeserver's name.
    pub fn server(&self) -> &str
        ensures { result.now ≡ self.now.server }
    {
        self.rooms.server()
    }

    /// Takes all the memory of an input, judges it, and says whether the history refuses it. The
    /// engine stands for what it stood for.
    ///
    /// # Errors
    ///
    /// `Refused` with the first refusal that applies, exactly where one does. `OutOfMemory` where
    /// the allocator has none.
    pub fn prepare(&mut self, alloc: Global, input: &Input) -> Result<Plan, PrepareError>
        requires valid { is_valid_input input.now ≡ true }
        requires normal { IsNormal input.now }
        requires built { IsBuilt input.now }
        ensures server { self.new.server ≡ self.old.server }
        ensures meaning { self.new.shown ≡ self.old.shown }
        ensures capacity { IfOk result (λ plan. HasCapacity self.new.capacity plan.change) }
        ensures made { IfOk result (IsMadeFor self.new.server self.new.shown) }
        ensures suits { IfOk result
            (λ plan. Suits self.new.server self.new.shown input.now plan.change) }
        ensures payload { IfOk result
            (λ plan. plan.payload ≡ payload_of (Entry.Input input.now)) }
        ensures in_range { RefusesInRange result }
        ensures exact { (h : History) → self.old.shown ≡ snapshot_of self.old.server h
            → IsPrepared self.old.server h input.now result }
    {
        match self.plan(alloc, input) {
            Ok(plan) => match payload_within(alloc, input) {
                Ok(payload) => Ok(plan.with_payload(payload)),
                Err(error) => Err(error),
            },
            Err(PrepareError::Refused(refusal)) => Err(refused(alloc, input, refusal)),
            Err(PrepareError::OutOfMemory) => Err(PrepareError::OutOfMemory),
        }
    }

    // Plans an input of any length, without its payload.
    fn plan(&mut self, alloc: Global, input: &Input) -> Result<Plan, PrepareError>
        requires valid { is_valid_input input.now ≡ true }
        requires built { IsBuilt input.now }
        ensures server { self.new.server ≡ self.old.server }
        ensures meaning { self.new.shown ≡ self.old.shown }
        ensures capacity { IfOk result (λ plan. HasCapacity self.new.capacity plan.change) }
        ensures made { IfOk result (IsMadeFor self.new.server self.new.shown) }
        ensures suits { IfOk result
            (λ plan. Suits self.new.server self.new.shown input.now plan.change) }
        ensures in_range { RefusesInRange result }
        ensures exact { (h : History) → self.old.shown ≡ snapshot_of self.old.server h
            → IsPlanned self.old.server h input.now result }
    {
        match input {
            Input::Event(event) => self.prepare_event(alloc, event),
            Input::Edit { user, edit } => self.prepare_edit(alloc, user, edit),
            Input::Receipt {
                user,
                room,
                event,
                private: _,
                thread,
            } => self.prepare_receipt(alloc, user, room, event, thread),
            Input::Pusher(_) => unreachable!(),
        }
    }

    fn prepare_event(&mut self, alloc: Global, event: &Event) -> Result<Plan, PrepareError>
        ensures server { self.new.server ≡ self.old.server }
        ensures meaning { self.new.shown ≡ self.old.shown }
        ensures capacity { IfOk result (λ plan. HasCapacity self.new.capacity plan.change) }
        ensures made { IfOk result (IsMadeFor self.new.server self.new.shown) }
        ensures suits { IfOk result
            (λ plan. Suits self.new.server self.new.shown (Input.Event event.now) plan.change) }
        ensures in_range { RefusesInRange result }
        ensures exact { (h : History) → self.old.shown ≡ snapshot_of self.old.server h
            → IsPlanned self.old.server h (Input.Event event.now) result }
    {
        if let Some(place) = self.places.place_of(event.event_id()) {
            return Err(PrepareError::Refused(Refusal::KnownEvent(place.position)));
        }
        if self.inputs >= MOST_INPUTS {
            return Err(PrepareError::Refused(Refusal::Full));
        }
        let room = self.reserve(alloc, event)?;
        let position = self.inputs + 1;
        let plan = self.plan_event(alloc, event, position, room)?;
        Ok(Plan {
            position,
            change: Change::Adds(plan),
            payload: Vec::new(alloc),
        })
    }

    // Takes the memory that the engine itself needs for an event,
    // and plans what it sets in its room.
    fn reserve(&mut self, alloc: Global, event: &Event) -> Result<RoomsPlan, OutOfMemory>
        ensures server { self.new.server ≡ self.old.server }
        ensures meaning { self.new.shown ≡ self.old.shown }
        ensures capacity { OnOk result
            (SufficesFor self.new.capacity (event_id_of event.now) (room_id_of event.now)) }
        ensures plan { IfOk result
            (λ plan. plan ≡ record { id = room_id_of event.now; sets = sets_of event.now }) }
    {
        remember_named(alloc, event, &mut self.rules)?;
        self.places.reserve(alloc, event.event_id())?;
        self.rooms.prepare(alloc, event)
    }

    // Plans to add a new event at this position, for which there is capacity, and takes the memory
    // for the rows of those whom it notifies.
    fn plan_event(
        &mut self,
        alloc: Global,
        event: &Event,
        position: u64,
        room: RoomsPlan,
    ) -> Result<EventPlan, OutOfMemory>
        requires capacity { set.contains self.old.capacity.rooms (room_id_of event.now) ≡ true }
        requires room { room ≡ record { id = room_id_of event.now; sets = sets_of event.now } }
        ensures server { self.new.server ≡ self.old.server }
        ensures meaning { self.new.shown ≡ self.old.shown }
        ensures capacity { KeepsCapacity self.old.capacity self.new.capacity }
        ensures rows { IfOk result
            (λ plan. SufficesForRows self.new.capacity (event_planned plan)) }
        ensures placed { IfOk result (IsPlacedAt position) }
        ensures planned { IfOk result
            (λ plan. IsPlannedFor self.old.server self.old.shown event.now (event_planned plan)) }
    {
        let users = notified_users(
            alloc,
            event,
            &self.rooms,
            &room,
            &self.rules,
            &mut self.scratch,
        )?;
        let place = self.place(alloc, event, position)?;
        reserve_rows(
            &mut self.unread,
            alloc,
            users.as_slice(),
            &place.room,
            &place.thread,
        )?;
        Ok(EventPlan {
            id: event.event_id().copied(alloc)?,
            room,
            place,
            users,
            mover: mover_of(alloc, event, &self.rooms)?,
        })
    }

    // The place of an event at this position.
    fn place(&self, alloc: Global, event: &Event, position: u64) -> Result<Place, OutOfMemory>
        ensures { IfOk result (λ place. place ≡ record {
          position = position;
          room = room_id_of event.now;
          thread = thread_of (place_in self.now.shown.places) event.now;
        }) }
    {
        Ok(Place {
            position,
            room: event.room_id().copied(alloc)?,
            thread: self.places.of(alloc, event)?,
        })
    }

    fn prepare_edit(
        &mut self,
        alloc: Global,
        user: &UserId,
        edit: &Edit,
    ) -> Result<Plan, PrepareError>
        requires { is_valid_edit edit.now ≡ true }
        ensures server { self.new.server ≡ self.old.server }
        ensures meaning { self.new.shown ≡ self.old.shown }
        ensures capacity { IfOk result (λ plan. HasCapacity self.new.capacity plan.change) }
        ensures made { IfOk result (IsMadeFor self.new.server self.new.shown) }
        ensures suits { IfOk result
            (λ plan.
            Suits self.new.server self.new.shown (Input.Edit user.now edit.now) plan.change) }
        ensures in_range { RefusesInRange result }
        ensures exact { (h : History) → self.old.shown ≡ snapshot_of self.old.server h
            → IsPlanned self.old.server h (Input.Edit user.now edit.now) result }
    {
        let plan = match self.plan_edit(alloc, user, edit) {
            Ok(plan) => plan,
            Err(error) => return Err(error),
        };
        if self.inputs >= MOST_INPUTS {
            return Err(PrepareError::Refused(Refusal::Full));
        }
        self.rules.remember(alloc, user)?;
        Ok(Plan {
            position: self.inputs + 1,
            change: Change::Edits {
                editor: user.copied(alloc)?,
                plan,
            },
            payload: Vec::new(alloc),
        })
    }

    // Plans an edit of a user's rules, or refuses it for what it says.
    fn plan_edit(&self, alloc: Global, user: &UserId, edit: &Edit) -> Result<EditPlan, PrepareError>
        requires { is_valid_edit edit.now ≡ true }
        ensures local { IfOk result (λ _. is_local self.now.server user.now ≡ true) }
        ensures planned { IfOk result
            (IsPlanOf edit.now (rules_among self.now.server self.now.shown.rules user.now)) }
        ensures in_range { RefusesInRange result }
        ensures content { (h : History) → self.now.shown ≡ snapshot_of self.now.server h
            → SaysOfContent
            (refusal_of_content self.now.server h (Input.Edit user.now edit.now)) result }
    {
        if !user.is_local(self.server()) {
            return Err(PrepareError::Refused(Refusal::NotLocal));
        }
        match self.rules.plan(alloc, user, edit) {
            Ok(plan) => Ok(plan),
            Err(EditError::Refused(refusal)) => Err(PrepareError::Refused(Refusal::from(refusal))),
            Err(EditError::OutOfMemory) => Err(PrepareError::OutOfMemory),
        }
    }

    fn prepare_receipt(
        &self,
        alloc: Global,
        user: &UserId,
        room: &RoomId,
        event: &EventId,
        thread: &Option<ThreadKey>,
    ) -> Result<Plan, PrepareError>
        ensures made { IfOk result (IsMadeFor self.now.server self.now.shown) }
        ensures planned { IfOk result
            (λ plan. IsReads self.now.shown user.now room.now event.now thread.now plan.change) }
        ensures in_range { RefusesInRange result }
        ensures exact { (h : History) (private : Bool)
            → self.now.shown ≡ snapshot_of self.now.server h
            → IsPlanned self.now.server h
            (Input.Receipt user.now room.now event.now private thread.now) result }
    {
        if !user.is_local(self.server()) {
            return Err(PrepareError::Refused(Refusal::NotLocal));
        }
        let upto = match read_upto(&self.places, room, event, thread) {
            Ok(upto) => upto,
            Err(refusal) => return Err(PrepareError::Refused(refusal)),
        };
        if self.inputs >= MOST_INPUTS {
            return Err(PrepareError::Refused(Refusal::Full));
        }
        Ok(Plan {
            position: self.inputs + 1,
            change: Change::Reads(ReadPlan {
                user: user.copied(alloc)?,
                room: room.copied(alloc)?,
                thread: copied(alloc, thread)?,
                upto,
            }),
            payload: Vec::new(alloc),
        })
    }

    /// Accepts the input of a plan that was made for this state, and answers its position (from 1).
    /// Takes no memory.
    pub fn apply(&mut self, plan: Plan) -> u64
        requires capacity { HasCapacity self.old.capacity plan.change }
        requires made { IsMadeFor self.old.server self.old.shown plan }
        ensures server { self.new.server ≡ self.old.server }
        ensures position { result ≡ plan.position }
        ensures in_range { result ≤ most_inputs }
        ensures next { (h : History) → self.old.shown ≡ snapshot_of self.old.server h
            → result ≡ position_after h }
        ensures step { (h : History) (input : Input)
            → self.old.shown ≡ snapshot_of self.old.server h
            → Suits self.old.server self.old.shown input plan.change
            → self.new.shown ≡ snapshot_of self.new.server (with_input h input) }
    {
        let Plan {
            position,
            change,
            payload,
        } = plan;
        drop(payload);
        match change {
            Change::Adds(event) => self.add(position, event),
            Change::Edits { editor, plan } => self.edit(position, &editor, plan),
            Change::Reads(plan) => self.read(position, plan),
        }
        position
    }

    // Adds an event at the next position.
    fn add(&mut self, position: u64, plan: EventPlan)
        requires capacity { HasCapacityFor self.old.capacity (event_planned plan) }
        requires new { place_in self.old.shown.places plan.id ≡ None }
        requires next { position ≡ self.old.shown.inputs + 1 }
        requires in_range { position ≤ most_inputs }
        requires placed { IsPlacedAt position plan }
        ensures server { self.new.server ≡ self.old.server }
        ensures shown { self.new.shown
            ≡ with_event self.old.shown position (event_planned plan) self.new.shown.unread }
        ensures rows { (user room : List ℕ) (thread : ThreadKey)
            → list_at self.new.shown.unread user room thread
            ≡ rows_with_event position (event_planned plan) user room thread
            (list_at self.old.shown.unread user room thread) }
        ensures kept { AreUnreadRows self.new.shown.unread }
    {
        let EventPlan {
            id,
            room,
            place,
            users,
            mover,
        } = plan;
        push_rows(
            &mut self.unread,
            users.as_slice(),
            &place.room,
            &place.thread,
            position,
        );
        cut_mover(&mut self.unread, mover, &place.room, position);
        self.places.note(&id, place);
        self.rooms.apply(room);
        self.inputs = position;
    }

    // Edits the rules of a user, at the next position.
    fn edit(&mut self, position: u64, editor: &UserId, plan: EditPlan)
        requires capacity { set.contains self.old.capacity.rules editor.now ≡ true }
        requires made_for { is_made_for
            (rules_among self.old.server self.old.shown.rules editor.now) plan ≡ true }
        requires next { position ≡ self.old.shown.inputs + 1 }
        requires in_range { position ≤ most_inputs }
        ensures server { self.new.server ≡ self.old.server }
        ensures shown { self.new.shown
            ≡ with_edit self.old.server self.old.shown position editor.now plan }
    {
        self.rules.apply(editor, plan);
        self.inputs = position;
    }

    // Drops the rows that a user has read, at the next position.
    fn read(&mut self, position: u64, plan: ReadPlan)
        requires next { position ≡ self.old.shown.inputs + 1 }
        requires in_range { position ≤ most_inputs }
        ensures server { self.new.server ≡ self.old.server }
        ensures shown { self.new.shown ≡ with_read self.old.shown position self.new.shown.unread }
        ensures rows { (user room : List ℕ) (thread : ThreadKey)
            → list_at self.new.shown.unread user room thread
            ≡ rows_with_read (read_planned plan) user room thread
            (list_at self.old.shown.unread user room thread) }
        ensures kept { AreUnreadRows self.new.shown.unread }
    {
        cut_read(&mut self.unread, plan);
        self.inputs = position;
    }

    /// The push rules of a user who edited them; `None` exactly for any other user, whose rules are
    /// the predefined ones. Takes no memory.
    pub fn rules(&self, user: &UserId) -> Option<&Ruleset>
        ensures { (h : History) → self.now.shown ≡ snapshot_of self.now.server h
            → option_copied result ≡ own_rules self.now.server h user.now }
    {
        self.rules.rules(user)
    }

    /// The rows of the user in the room, which are its unread events, by thread; `None` only where
    /// no thread has any. Takes no memory.
    pub fn rows(&self, user: &UserId, room: &RoomId) -> Option<&R>
        ensures lists { (h : History) → self.now.shown ≡ snapshot_of self.now.server h
            → IfSome result (λ rows. (thread : ThreadKey)
            → R.list rows.now thread ≡ rows_of self.now.server h user.now room.now thread) }
        ensures none { (h : History) → self.now.shown ≡ snapshot_of self.now.server h
            → IfNone result ((thread : ThreadKey)
            → rows_of self.now.server h user.now room.now thread ≡ []) }
    {
        self.unread.rows(user, room)
    }

    /// How many events of the thread are unread for the user. Takes no memory.
    pub fn counts(&self, user: &UserId, room: &RoomId, thread: &ThreadKey) -> Counts
        ensures exact { (h : History) → self.now.shown ≡ snapshot_of self.now.server h
            → result ≡ counts_of self.now.server h user.now room.now thread.now }
        ensures notify_in_range { result.notify ≤ most_inputs }
        ensures highlight_in_range { result.highlight ≤ most_inputs }
    {
        self.unread.counts(user, room, thread)
    }

    /// The threads of the room that have events which are unread for the user, in the order of the
    /// first of each; `k` counts from 0, and `None` comes exactly past the last. Takes no memory.
    pub fn thread_at(&self, user: &UserId, room: &RoomId, k: usize) -> Option<&ThreadKey>
        ensures { (h : History) → self.now.shown ≡ snapshot_of self.now.server h
            → option_copied result
            ≡ slice_get (threads_of self.now.server h user.now room.now) k }
    {
        self.unread.thread_at(user, room, k)
    }

    /// How many events of the room are unread for the user, whatever their threads.
    /// Takes no memory.
    pub fn room_counts(&self, user: &UserId, room: &RoomId) -> Counts
        ensures exact { (h : History) → self.now.shown ≡ snapshot_of self.now.server h
            → result ≡ room_counts_of self.now.server h user.now room.now }
        ensures notify_in_range { result.notify ≤ most_inputs }
        ensures highlight_in_range { result.highlight ≤ most_inputs }
    {
        let counts = match self.unread.rows(user, room) {
            Some(rows) => totals(rows),
            None => Counts {
                notify: 0,
                highlight: 0,
            },
        };
        // No history has more: the bound is only for the clauses that name none.
        Counts {
            notify: counts.notify.min(MOST_INPUTS),
            highlight: counts.highlight.min(MOST_INPUTS),
        }
    }
}

impl<R: Rows> Questions for Engine<R> {
    ghost server = { λ engine. engine.server };

    ghost snapshot = { λ engine. engine.shown };

    fn counts(&self, user: &UserId, room: &RoomId, thread: &ThreadKey) -> Counts {
        Engine::counts(self, user, room, thread)
    }

    fn thread_at(&self, user: &UserId, room: &RoomId, k: usize) -> Option<&ThreadKey> {
        Engine::thread_at(self, user, room, k)
    }

    fn room_counts(&self, user: &UserId, room: &RoomId) -> Counts {
        Engine::room_counts(self, user, room)
    }

    fn rules(&self, user: &UserId) -> Option<&Ruleset> {
        Engine::rules(self, user)
    }
}
