//! The work that `bench/decide` measures. Each line of the input is a kind of work, a number of
//! users and a number of rounds; what is printed is what came of the last round:
//!
//! - from 0 on, a message of the table is judged for so many users with the predefined rules, in a
//!   room in which twenty are;
//! - 8: so many users' predefined rules are made;
//! - 9 and 10: an English text and a Greek one are folded, whatever the number of users.
#![tactic(auto)]

mod messages;
mod rooms;

use anyhow::{Context, Result};
use messages::{ENGLISH, GREEK, MESSAGES};
use mx_defaults::predefined;
use mx_event::Event;
use mx_glob::{Scratch, name_of_text};
use mx_json::{Folded, Meter, OutOfMemory, UserId};
use mx_judge::judge;
use mx_room::RoomView;
use mx_rule::{Ruleset, Verdict};
use rooms::{event, room};
use std::alloc::Global;

const SERVER: &str = "example.org";

/// How many short texts a scratch keeps.
const TEXTS_KEPT: u32 = 8;

/// A user with the predefined rules.
#[derive(Drop)]
struct Owner {
    user: UserId,
    rules: Ruleset,
}

/// How many verdicts notify, how many are highlighted, how many do neither,
/// and how often there was none.
#[derive(Clone, Copy)]
struct Tally {
    notify: u32,
    highlight: u32,
    silent: u32,
    none: u32,
}

fn main(rt: HostRuntime) -> Result<()> {
    for line in rt.lines(rt.alloc()) {
        let (work, users, rounds) = request(line?.as_str()).context("three numbers")?;
        let done = run(rt.alloc(), work, users, rounds)?;
        println!(rt; "{done}")?;
    }
    Ok(())
}

/// The work, the number of users and the number of rounds that a line asks for.
fn request(line: &str) -> Option<(usize, u32, u32)> {
    let (work, rest) = line.split_once(' ')?;
    let (users, rounds) = rest.split_once(' ')?;
    Some((
        work.parse::<usize>().ok()?,
        users.parse::<u32>().ok()?,
        rounds.parse::<u32>().ok()?,
    ))
}

fn run(alloc: Global, work: usize, users: u32, rounds: u32) -> Result<String> {
    match work {
        8 => make_rules(alloc, users, rounds),
        9 => fold(alloc, ENGLISH, rounds),
        10 => fold(alloc, GREEK, rounds),
        _ => {
            let content = MESSAGES.get(work).copied().context("no such work")?;
            judge_message(alloc, content, users, rounds)
        }
    }
}

fn make_rules(alloc: Global, users: u32, rounds: u32) -> Result<String> {
    let mut made = 0;
    for _ in 0..rounds {
        made = owners(alloc, users)?.len();
    }
    Ok(format!(in alloc; "rules of {made} users")?)
}

fn fold(alloc: Global, text: &str, rounds: u32) -> Result<String> {
    let mut folded = Folded::new(alloc);
    for _ in 0..rounds {
        folded.refill(text)?;
    }
    Ok(format!(in alloc; "{} characters", folded.len())?)
}

fn owners(alloc: Global, users: u32) -> Result<Vec<Owner>> {
    let mut owners = Vec::new(alloc);
    for number in 0..users {
        owners.push(owner_of(alloc, number)?)?;
    }
    Ok(owners)
}

fn owner_of(alloc: Global, number: u32) -> Result<Owner> {
    let id = format!(in alloc; "@u{number}:{SERVER}")?;
    owner_with(alloc, id.as_str())
}

fn owner_with(alloc: Global, id: &str) -> Result<Owner> {
    let user = UserId::read(alloc, id)?;
    user.localpart_on(SERVER).context("a local user")?;
    let rules = predefined(alloc, &user, SERVER)?;
    Ok(Owner { user, rules })
}

fn judge_message(alloc: Global, content: &str, users: u32, rounds: u32) -> Result<String> {
    let owners = owners(alloc, users)?;
    let tally = judge_for(alloc, content, &owners, rounds)?;
    Ok(format!(in alloc;
        "notify {}, highlight {}, silent {}, none {}",
        tally.notify, tally.highlight, tally.silent, tally.none
    )?)
}

fn judge_for(alloc: Global, content: &str, owners: &[Owner], rounds: u32) -> Result<Tally> {
    let event = event(alloc, content)?;
    judge_event(alloc, &event, owners, rounds)
}

fn judge_event(alloc: Global, event: &Event, owners: &[Owner], rounds: u32) -> Result<Tally> {
    let room = room(alloc)?;
    judge_in(alloc, event, owners, &room.view(None), rounds)
}

/// The tally of the last of so many rounds. Each begins with a scratch that keeps no text of the
/// event, as with a new event.
fn judge_in(
    alloc: Global,
    event: &Event,
    owners: &[Owner],
    view: &RoomView,
    rounds: u32,
) -> Result<Tally> {
    let mut scratch = Scratch::new(alloc)?;
    let mut tally = Tally::new();
    for round in 0..rounds {
        forget(alloc, round, &mut scratch)?;
        tally = judge_all(alloc, event, owners, view, &mut scratch)?;
    }
    Ok(tally)
}

/// Puts other texts into the scratch, new ones in each round.
fn forget(alloc: Global, round: u32, scratch: &mut Scratch) -> Result<()> {
    for number in 0..TEXTS_KEPT {
        let text = format!(in alloc; "{round} {number}")?;
        name_of_text(text.as_str(), text.as_str(), scratch, &mut Meter::new())?;
    }
    Ok(())
}

/// Judges an event for each owner.
fn judge_all(
    alloc: Global,
    event: &Event,
    owners: &[Owner],
    view: &RoomView,
    scratch: &mut Scratch,
) -> Result<Tally, OutOfMemory> {
    let mut tally = Tally::new();
    for owner in owners {
        let rules = &owner.rules;
        let verdict = judge(alloc, event, &owner.user, SERVER, rules, view, scratch)?;
        tally.count(&verdict);
    }
    Ok(tally)
}

impl Tally {
    fn new() -> Tally {
        Tally {
            notify: 0,
            highlight: 0,
            silent: 0,
            none: 0,
        }
    }

    fn count(&mut self, verdict: &Option<Verdict>) {
        let Some(verdict) = verdict else {
            self.none = self.none.saturating_add(1);
            return;
        };
        let counter = if verdict.notify {
            &mut self.notify
        } else {
            &mut self.silent
        };
        *counter = counter.saturating_add(1);
        if verdict.highlight {
            self.highlight = self.highlight.saturating_add(1);
        }
    }
}
