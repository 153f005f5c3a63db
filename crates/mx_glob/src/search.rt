ghost use Rattle.std.specs.Prelude.{◌≡◌, ℕ, ◌+◌, ◌-◌, ◌*◌, ◌<◌, ◌≤◌, ◌^◌, ◌↔◌, List, length};
ghost use Rattle.std.specs.Prelude.{slice_get, slice_range, Some, IsTrue, IfSome, unwrap_or};
ghost use Rattle.mx_json.specs.Folded.{RisesAtMost};
ghost use Rattle.mx_glob.specs.Leads.{IsNameAt, tried};
ghost use Rattle.mx_glob.specs.Search.{EndsAt, NoneEnds, IsTried};
ghost use Rattle.mx_glob.specs.Words.{is_outside, character_before, HasWord};

use crate::onward::word_of_name;
use crate::skips::{class_of, skips_of};
use crate::word::is_outside;
use mx_json::{Folded, Meter};
use std::marker::Model;
use std::mem;

/// Whether a name that isn't empty is a word of the value. Places are skipped as long as no more
/// than two characters were read for each place that is ruled out; then the rest of the value is
/// gone through once.
pub(crate) fn has_word(
    name: &[char],
    falls: &mut [usize],
    value: &Folded,
    meter: &mut Meter,
) -> bool
    requires some { 0 < length name.now }
    requires room { length name.now ≤ length falls.old }
    ensures word { IsTrue result ↔ HasWord name.now value.now }
    ensures reads { RisesAtMost (2 * length value.now + 1) meter.old meter.new }
    ensures same_room { length falls.new ≡ length falls.old }
{
    if name.len() > value.len() {
        return false;
    }
    let search = Search::of(name);
    let start = meter.count();
    let mut from = name.len() - 1;
    loop {
        let Some(end) = search.next_end(value, from, meter) else {
            return false;
        };
        match search.try_place(value, end, start, meter) {
            Tried::Word => return true,
            Tried::Behind => return search.go_on(falls, value, end, meter),
            Tried::Ahead => {}
        }
        let steps = search.skip_last();
        if steps >= value.len() - end {
            return false;
        }
        from = end + steps;
    }
}

/// What the try of a place told.
#[derive(Clone, Copy)]
enum Tried {
    /// The name is a word there.
    Word,
    /// It isn't, and at most two characters were read for each place that is ruled out.
    Ahead,
    /// It isn't, but begins with the character there, and more were read.
    Behind,
}

/// A search for a name that isn't empty. It looks at the value where the name would end, and skips
/// the places that the character found there rules out.
#[derive(Drop)]
struct Search<'a> {
    name: &'a [char],
    first: char,
    last: char,
    skips: [u8; 64],
}

// Contracts see the name.
impl<'a> Model for Search<'a> {
    ghost use Rattle.std.specs.Prelude.{List, ℕ};
    ghost use Rattle.mx_glob.specs.Search.{IsReady};

    ghost Value = { List ℕ };

    ghost view = { λ s. s.name.now };

    ghost invariant = { λ s. IsReady s.name.now s.first s.last s.skips };
}

impl<'a> Search<'a> {
    /// The search for a name.
    fn of(name: &'a [char]) -> Search<'a>
        requires { 0 < length name.now }
        ensures { result ≡ name.now }
    {
        Search {
            name,
            first: name[0],
            last: name[name.len() - 1],
            skips: skips_of(name),
        }
    }

    /// The first place from `from` on that has the name's last character and isn't ruled out.
    fn next_end(&self, value: &Folded, from: usize, meter: &mut Meter) -> Option<usize>
        requires in_text { from < length value.now }
        requires fits { length value.now < 2 ^ 61 }
        ensures found { IfSome result
            (λ end. (from ≤ end) × (end < length value.now) × EndsAt value.now self.now end) }
        ensures ruled_out { NoneEnds value.now self.now from (unwrap_or result (length value.now)) }
        ensures reads { RisesAtMost (tried from (length value.now + 1) result) meter.old meter.new }
    {
        let mut counted = mem::replace(meter, Meter::new());
        let mut end = from;
        let mut found = None;
        while let Some(here) = value.at(end, &mut counted) {
            if here == self.last {
                found = Some(end);
                break;
            }
            end += self.skip(here);
        }
        *meter = counted;
        found
    }

    /// How many places the search goes on where this character stands at the end of a place.
    fn skip(&self, here: char) -> usize
        ensures onward { 1 ≤ result }
        ensures short { result < 256 }
        ensures ruled_out { (text : List ℕ) (end : ℕ) → slice_get text end ≡ Some here
            → end < length text
            → NoneEnds text self.now (end + 1) (end + result) }
    {
        usize::from(self.skips[class_of(here)])
    }

    /// The same for the name's last character.
    fn skip_last(&self) -> usize
        ensures onward { 1 ≤ result }
        ensures short { result < 256 }
        ensures ruled_out { (text : List ℕ) (end : ℕ) → EndsAt text self.now end
            → end < length text
            → NoneEnds text self.now (end + 1) (end + result) }
    {
        self.skip(self.last)
    }

    /// Tries the place that has the name's last character at its end.
    fn try_place(&self, value: &Folded, end: usize, start: u64, meter: &mut Meter) -> Tried
        requires long { length self.now ≤ end + 1 }
        requires in_text { end < length value.now }
        requires fits { length value.now < 2 ^ 61 }
        requires last_same { EndsAt value.now self.now end }
        requires never_falls { start ≤ meter.old }
        requires ahead { meter.old + 2 * length self.now ≤ start + 2 * (end + 1) + 1 }
        ensures { IsTried
            value.now
            self.now
            (end + 1 - length self.now)
            start
            meter.old
            meter.new
            result }
    {
        let place = end + 1 - self.name.len();
        if !self.first_agrees(value, place, meter) {
            return Tried::Ahead;
        }
        if is_word_at(self.name, value, place, meter) {
            return Tried::Word;
        }
        if meter.count() - start <= 2 * (place as u64 + 1) {
            return Tried::Ahead;
        }
        Tried::Behind
    }

    /// Whether the name's first character stands at a place where its last one does.
    fn first_agrees(&self, value: &Folded, place: usize, meter: &mut Meter) -> bool
        requires last_same { EndsAt value.now self.now (place + (length self.now - 1)) }
        ensures same { IsTrue result ↔ (slice_get value.now place ≡ slice_get self.now 0) }
        ensures one { length self.now ≡ 1 → IsTrue result × (meter.new ≡ meter.old) }
        ensures reads { RisesAtMost 1 meter.old meter.new }
    {
        if self.name.len() == 1 {
            return true;
        }
        value.at(place, meter) == Some(self.first)
    }

    /// Goes through the value once, from behind the place that was tried last, where the name's
    /// first character stands.
    fn go_on(&self, falls: &mut [usize], value: &Folded, end: usize, meter: &mut Meter) -> bool
        requires some { 0 < length self.now }
        requires room { length self.now ≤ length falls.old }
        requires long { length self.now ≤ end + 1 }
        requires in_text { end < length value.now }
        requires fits { length value.now < 2 ^ 61 }
        requires first_same { slice_get value.now (end + 1 - length self.now)
            ≡ slice_get self.now 0 }
        requires none { NoneEnds value.now self.now 0 (end + 1) }
        ensures word { IsTrue result ↔ HasWord self.now value.now }
        ensures never_falls { meter.old ≤ meter.new }
        ensures last { length value.now ≡ end + 1 → meter.new ≡ meter.old }
        ensures reads { end + 1 < length value.now
            → meter.new + end + 1 ≤ meter.old + length value.now + length self.now }
        ensures same_room { length falls.new ≡ length falls.old }
    {
        if end + 1 >= value.len() {
            return false;
        }
        let place = end + 2 - self.name.len();
        word_of_name(self.name, self.first, falls, value, place, meter)
    }
}

/// Whether the name is a word at a place where its first and its last character stand.
fn is_word_at(name: &[char], value: &Folded, place: usize, meter: &mut Meter) -> bool
    requires some { 0 < length name.now }
    requires in_text { place + length name.now ≤ length value.now }
    requires fits { place + length name.now < 2 ^ 64 }
    requires first_same { slice_get value.now place ≡ slice_get name.now 0 }
    requires last_same { EndsAt value.now name.now (place + (length name.now - 1)) }
    ensures word { IsTrue result ↔ IsNameAt value.now name.now place }
    ensures one { length name.now ≡ 1 → meter.new ≤ meter.old + 2 }
    ensures reads { 2 ≤ length name.now → meter.new ≤ meter.old + length name.now }
    ensures never_falls { meter.old ≤ meter.new }
{
    begins_at(value, place, meter)
        && middle_agrees(name, value, place, meter)
        && is_outside(value.at(place + name.len(), meter))
}

/// Whether a word may begin at a place.
pub(crate) fn begins_at(value: &Folded, place: usize, meter: &mut Meter) -> bool
    ensures begins { result ≡ is_outside (character_before value.now place) }
    ensures reads { RisesAtMost 1 meter.old meter.new }
{
    if place == 0 {
        return true;
    }
    is_outside(value.at(place - 1, meter))
}

/// Whether the name stands at a place where its first and its last character do.
fn middle_agrees(name: &[char], value: &Folded, place: usize, meter: &mut Meter) -> bool
    requires some { 0 < length name.now }
    requires in_text { place + length name.now ≤ length value.now }
    requires fits { place + length name.now < 2 ^ 64 }
    requires first_same { slice_get value.now place ≡ slice_get name.now 0 }
    requires last_same { EndsAt value.now name.now (place + (length name.now - 1)) }
    ensures value { IsTrue result
        ↔ (slice_range value.now place (place + length name.now) ≡ name.now) }
    ensures reads { RisesAtMost (length name.now - 2) meter.old meter.new }
{
    for k in 1..name.len() - 1 {
        if value.at(place + k, meter) != Some(name[k]) {
            return false;
        }
    }
    true
}
