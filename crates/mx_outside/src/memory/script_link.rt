ghost use Rattle.std.specs.Prelude.{◌≡◌, ◌<◌, ◌≤◌, [], length, map, IfOk, OnOk, MatchResult};
ghost use Rattle.std.specs.Prelude.{if◌then◌else◌, ◌++◌, ◌-◌, replicate};
ghost use Rattle.mx_outside.specs.Told.{raised};
ghost use Rattle.mx_outside.specs.Link.{IsOpen};
ghost use Rattle.mx_outside.specs.Script.{unscripted};
ghost use Rattle.mx_outside.specs.ScriptLink.{place_for, log_of, OpensNext, LacksRoom, KeepsCounts};
ghost use Rattle.mx_outside.specs.ScriptLink.{OpensScripted, SendsPlace, CountsSent, ReceivesPlace};
ghost use Rattle.mx_outside.specs.ScriptLink.{CountsReceived, ClosesPlace, Acts};

use crate::link::{Link, Opening, Received, Sent};
use crate::memory::opened::Opened;
use crate::memory::script::Script;
use mx_json::OutOfMemory;
use std::alloc::{AllocError, Global};
use std::marker::Model;

/// A link in memory, whose exchanges go as scripts say.
///
/// The k-th call of `open` has the k-th script. Past the last script an exchange is opened, takes
/// all that is sent and waits. A call fails only where a script says so, or finds no memory past
/// its room.
#[derive(Drop)]
pub struct ScriptLink {
    places: Vec<Opened>,
    opened: usize,
    faults: u64,
    waits: u64,
    alloc: Global,
}

impl Model for ScriptLink {
    ghost use Rattle.std.specs.Prelude.{◌≤◌, vec_len, take, drop};
    ghost use Rattle.mx_outside.specs.ScriptLink.{Scripted, AreToCome};

    ghost Value = { Scripted };

    ghost view = { λ l. record {
      opened = take l.opened l.places.items;
      coming = drop l.opened l.places.items;
      faults = l.faults;
      waits = l.waits;
    } };

    ghost invariant = { λ l. (l.opened ≤ vec_len l.places)
        × AreToCome (drop l.opened l.places.items) };
}

impl ScriptLink {
    ghost use Rattle.mx_outside.specs.ScriptLink.{places_for};

    /// A link of these scripts, with memory for `calls` calls of `open`, or one for each script
    /// where these are more, and for each of them `room` bytes of address, sent and received.
    pub fn new(
        alloc: Global,
        scripts: Vec<Script>,
        room: usize,
        calls: usize,
    ) -> Result<ScriptLink, OutOfMemory>
        ensures { IfOk result (λ link. link ≡ record {
          opened = [];
          coming = places_for room scripts.items calls;
          faults = 0;
          waits = 0;
        }) }
    {
        let mut places = scripted_places(alloc, scripts, room, calls)?;
        add_places(alloc, &mut places, room, calls)?;
        Ok(ScriptLink {
            places,
            opened: 0,
            faults: 0,
            waits: 0,
            alloc,
        })
    }

    /// Opens the next exchange with this address, or fails as its script says; answers whether it
    /// failed.
    fn open_next(&mut self, address: &str) -> Result<bool, AllocError>
        ensures opens { MatchResult result
            (λ fails. OpensNext fails address.now self.old self.new)
            (λ _. LacksRoom address.now self.old self.new) }
        ensures counts { KeepsCounts self.old self.new }
    {
        if self.opened < self.places.len() {
            self.open_scripted(address)
        } else {
            self.open_past(address)
        }
    }

    /// Opens the next exchange that has a place.
    fn open_scripted(&mut self, address: &str) -> Result<bool, AllocError>
        requires { 0 < length self.old.coming }
        ensures opens { MatchResult result
            (λ fails. OpensNext fails address.now self.old self.new)
            (λ _. LacksRoom address.now self.old self.new) }
        ensures counts { KeepsCounts self.old self.new }
    {
        let fails = self.places[self.opened].open(address)?;
        self.opened += 1;
        Ok(fails)
    }

    /// Opens an exchange past those that have a place.
    fn open_past(&mut self, address: &str) -> Result<bool, AllocError>
        requires { self.old.coming ≡ [] }
        ensures opens { MatchResult result
            (λ fails. OpensNext fails address.now self.old self.new)
            (λ _. LacksRoom address.now self.old self.new) }
        ensures counts { KeepsCounts self.old self.new }
    {
        let mut place = Opened::new(self.alloc, Script::unscripted(self.alloc), 0)?;
        let fails = place.open(address)?;
        self.places.push(place)?;
        self.opened += 1;
        Ok(fails)
    }
}

/// The exchanges to come of these scripts, with memory for so many of them.
fn scripted_places(
    alloc: Global,
    scripts: Vec<Script>,
    room: usize,
    calls: usize,
) -> Result<Vec<Opened>, AllocError>
    ensures { IfOk result (λ places. places.items ≡ map (place_for room) scripts.items) }
{
    let mut places = Vec::with_capacity(alloc, scripts.len().max(calls))?;
    for script in scripts {
        places.push(Opened::new(alloc, script, room)?)?;
    }
    Ok(places)
}

/// Adds exchanges to come without a script, up to so many in all.
fn add_places(
    alloc: Global,
    places: &mut Vec<Opened>,
    room: usize,
    calls: usize,
) -> Result<(), AllocError>
    ensures { OnOk result (places.new.items ≡ places.old.items
        ++ replicate (calls - length places.old.items) (place_for room unscripted)) }
{
    for _ in 0..calls.saturating_sub(places.len()) {
        places.push(Opened::new(alloc, Script::unscripted(alloc), room)?)?;
    }
    Ok(())
}

/// A count that is one higher where this happened.
fn count_if(count: u64, happened: bool) -> u64
    ensures { result ≡ (if happened then raised count else count) }
{
    if happened {
        count.saturating_add(1)
    } else {
        count
    }
}

impl Link for ScriptLink {
    ghost use Rattle.std.specs.Prelude.{Some};
    ghost use Rattle.mx_outside.specs.Link.{Opens, IsSent, Sends, IsReceived, Receives, Changes};
    ghost use Rattle.mx_outside.specs.Link.{with_closed};

    ghost log = { λ l. Some (log_of l) };

    ghost faults = { λ l. l.faults };

    ghost waits = { λ l. l.waits };

    fn open(&mut self, address: &str) -> Opening
        ensures script { OpensScripted result address.now self.old self.new }
        ensures log { Opens result address.now (log_of self.old) (log_of self.new) }
        ensures count { self.old.faults ≤ self.new.faults }
    {
        match self.open_next(address) {
            Err(_) => Opening::OutOfMemory,
            Ok(true) => {
                self.faults = self.faults.saturating_add(1);
                Opening::Failed
            }
            Ok(false) => Opening::Opened(self.opened as u64),
        }
    }

    fn send(&mut self, exchange: u64, piece: &[u8]) -> Sent
        requires open { IsOpen (log_of self.old) exchange }
        requires some { 0 < length piece.now }
        ensures sent { IsSent result (length piece.now) }
        ensures script { Acts exchange (SendsPlace result piece.now) self.old self.new }
        ensures counts { CountsSent result self.old self.new }
        ensures count { self.old.faults ≤ self.new.faults }
        ensures waits { self.old.waits ≤ self.new.waits }
        ensures log { Sends result exchange piece.now (log_of self.old) (log_of self.new) }
    {
        let index = exchange as usize - 1;
        let sent = self.places[index].send(piece);
        self.faults = count_if(self.faults, sent == Sent::Failed);
        self.waits = count_if(self.waits, sent == Sent::NotYet);
        sent
    }

    fn recv(&mut self, exchange: u64, into: &mut [u8]) -> Received
        requires open { IsOpen (log_of self.old) exchange }
        requires some { 0 < length into.old }
        ensures received { IsReceived result (length into.old) }
        ensures script { Acts exchange (ReceivesPlace result into.new) self.old self.new }
        ensures counts { CountsReceived result self.old self.new }
        ensures count { self.old.faults ≤ self.new.faults }
        ensures waits { self.old.waits ≤ self.new.waits }
        ensures log { Receives result exchange into.new (log_of self.old) (log_of self.new) }
    {
        let index = exchange as usize - 1;
        let received = self.places[index].recv(into);
        self.faults = count_if(self.faults, received == Received::Failed);
        self.waits = count_if(self.waits, received == Received::NotYet);
        received
    }

    fn close(&mut self, exchange: u64)
        requires { IsOpen (log_of self.old) exchange }
        ensures script { Acts exchange ClosesPlace self.old self.new }
        ensures faults { self.new.faults ≡ self.old.faults }
        ensures waits { self.new.waits ≡ self.old.waits }
        ensures log { Changes exchange with_closed (log_of self.old) (log_of self.new) }
    {
        let index = exchange as usize - 1;
        self.places[index].close();
    }
}
