ghost use Rattle.std.specs.Prelude.{◌≡◌, ℕ, ◌+◌, ◌-◌, ◌^◌, ◌<◌, ◌≤◌, ◌↔◌, length, slice_get, Some};
ghost use Rattle.std.specs.Prelude.{None, IfSome, IfNone, IsTrue, MatchOption};
ghost use Rattle.std.specs.ControlFlow.{MatchControlFlow};
ghost use Rattle.mx_json.specs.Folded.{RisesAtMost};
ghost use Rattle.mx_glob.specs.Automaton.{AreFalls, IsExact, IsEdged, IsReached, IsNowhere, passed};
ghost use Rattle.mx_glob.specs.Leads.{IsFirstFrom, IsNameAt};
ghost use Rattle.mx_glob.specs.Words.{is_outside, character_before, HasWord};

use crate::fall::{fallen_state, goes_on, make_once};
use crate::skips::is_exact;
use crate::word::is_outside;
use mx_json::{Folded, Meter};
use std::mem;
use std::ops::ControlFlow;

/// A segment that is looked for, each character as itself, and what has to stand beside it.
#[derive(Drop)]
pub(crate) struct Wanted<'a> {
    segment: &'a [char],
    first: char,
    // Whether it has to begin at the start of a word, and to end at the end of one.
    begins: bool,
    ends: bool,
    ghost first_known: { slice_get segment.now 0 ≡ Some first },
}

/// How far a search has come.
#[derive(Clone, Copy)]
struct Reached {
    // Of the next character.
    place: usize,
    // How many characters of the segment stand before that.
    size: usize,
    // The character before those.
    before: Option<char>,
}

impl<'a> Wanted<'a> {
    /// The segment, where it can be looked for so: it has no `?`, and two characters or more.
    pub(crate) fn of(segment: &'a [char], begins: bool, ends: bool) -> Option<Wanted<'a>>
        ensures some { IfSome result
            (λ wanted. (wanted.segment.now ≡ segment.now)
            × (wanted.begins ≡ begins)
            × (wanted.ends ≡ ends)
            × (2 ≤ length segment.now)
            × IsExact segment.now) }
        ensures none { IfNone result (IsExact segment.now → length segment.now ≤ 1) }
    {
        let [first, _, ..] = segment else {
            return None;
        };
        if !is_exact(segment) {
            return None;
        }
        Some(Wanted {
            segment,
            first: *first,
            begins,
            ends,
        })
    }

    /// Where nothing of the segment stands,
    /// goes on to behind the next place of its first character.
    fn enter(
        &self,
        value: &Folded,
        reached: Reached,
        from: usize,
        meter: &mut Meter,
    ) -> Option<Reached>
        requires reached { IsReached
            value.now
            self.now.segment.now
            self.now.begins
            self.now.ends
            from
            reached.place
            reached.size
            reached.before }
        requires fits { length value.now < 2 ^ 61 }
        ensures entered { IfSome result
            (λ entered. (reached.place ≤ entered.place)
            × IsReached
            value.now
            self.now.segment.now
            self.now.begins
            self.now.ends
            from
            entered.place
            entered.size
            entered.before) }
        ensures nowhere { IfNone result
            (IsNowhere value.now self.now.segment.now self.now.begins self.now.ends from) }
        ensures reads { MatchOption result
            (RisesAtMost (length value.now + 1 - reached.place) meter.old meter.new)
            (λ entered. RisesAtMost (entered.place - reached.place) meter.old meter.new) }
    {
        if reached.size > 0 {
            return Some(reached);
        }
        match scan(self.first, value, reached.place, reached.before, meter) {
            None => None,
            Some((found, before)) => Some(Reached {
                place: found + 1,
                size: 1,
                before,
            }),
        }
    }

    /// Whether the segment stands whole, with what has to stand beside it.
    fn is_served(&self, reached: Reached, here: Option<char>) -> bool
        ensures { IsTrue result
            ↔ ((reached.size ≡ length self.now.segment.now)
            × (IsTrue self.now.begins → IsTrue (is_outside reached.before))
            × (IsTrue self.now.ends → IsTrue (is_outside here))) }
    {
        reached.size == self.segment.len() && self.is_beside(reached, here)
    }

    /// Whether what has to stand beside the segment does, where it stands whole.
    fn is_beside(&self, reached: Reached, here: Option<char>) -> bool
        ensures { IsTrue result
            ↔ ((IsTrue self.now.begins → IsTrue (is_outside reached.before))
            × (IsTrue self.now.ends → IsTrue (is_outside here))) }
    {
        (!self.ends || is_outside(here)) && (!self.begins || is_outside(reached.before))
    }

    /// Takes the next character of the value, where the segment goes on with it.
    fn take(
        &self,
        value: &Folded,
        reached: Reached,
        from: usize,
        here: Option<char>,
    ) -> Option<Reached>
        requires reached { IsReached
            value.now
            self.now.segment.now
            self.now.begins
            self.now.ends
            from
            reached.place
            reached.size
            reached.before }
        requires known { here ≡ slice_get value.now reached.place }
        requires fits { length value.now < 2 ^ 61 }
        ensures taken { IfSome result
            (λ taken. (taken.place ≡ reached.place + 1)
            × IsReached
            value.now
            self.now.segment.now
            self.now.begins
            self.now.ends
            from
            taken.place
            taken.size
            taken.before) }
        ensures other { IfNone result
            ((c : ℕ) → here ≡ Some c → slice_get self.now.segment.now reached.size ≡ Some c → ⊥) }
    {
        let Some(character) = here else {
            return None;
        };
        if !goes_on(self.segment, reached.size, character) {
            return None;
        }
        Some(Reached {
            place: reached.place + 1,
            size: reached.size + 1,
            before: reached.before,
        })
    }

    /// Takes the next character of the value, where the segment doesn't go on with it.
    fn fall(
        &self,
        falls: &[usize],
        value: &Folded,
        reached: Reached,
        from: usize,
        here: char,
    ) -> Reached
        requires room { length self.now.segment.now ≤ length falls.now }
        requires made { AreFalls self.now.segment.now falls.now (length self.now.segment.now) }
        requires reached { IsReached
            value.now
            self.now.segment.now
            self.now.begins
            self.now.ends
            from
            reached.place
            reached.size
            reached.before }
        requires known { slice_get value.now reached.place ≡ Some here }
        requires other { slice_get self.now.segment.now reached.size ≡ Some here → ⊥ }
        requires fits { length value.now < 2 ^ 61 }
        requires not_served { reached.size ≡ length self.now.segment.now
            → IsEdged
            value.now
            self.now.segment.now
            self.now.begins
            self.now.ends
            (reached.place - reached.size)
            → ⊥ }
        ensures reached { IsReached
            value.now
            self.now.segment.now
            self.now.begins
            self.now.ends
            from
            result.place
            result.size
            result.before }
        ensures one { result.place ≡ reached.place + 1 }
    {
        let size = fallen_state(self.segment, falls, reached.size, here);
        Reached {
            place: reached.place + 1,
            size,
            before: self.before_next(reached.size, size, here),
        }
    }

    /// The character before what stands of the segment after `here`, with which it doesn't go on.
    /// It is known where the segment has to begin at the start of a word.
    fn before_next(&self, size: usize, next: usize, here: char) -> Option<char>
        requires { next ≤ size }
        ensures none { IsTrue self.now.begins → next ≡ 0 → result ≡ Some here }
        ensures some { IsTrue self.now.begins
            → 1 ≤ next
            → result ≡ slice_get self.now.segment.now (size - next) }
    {
        if !self.begins || next == 0 {
            return Some(here);
        }
        self.segment.get(size - next).copied()
    }

    /// Passes the next character of the value; `None` where the segment stands whole before that,
    /// with what has to stand beside it.
    fn pass(
        &self,
        falls: &[usize],
        value: &Folded,
        reached: Reached,
        from: usize,
        here: char,
    ) -> Option<Reached>
        requires room { length self.now.segment.now ≤ length falls.now }
        requires made { AreFalls self.now.segment.now falls.now (length self.now.segment.now) }
        requires reached { IsReached
            value.now
            self.now.segment.now
            self.now.begins
            self.now.ends
            from
            reached.place
            reached.size
            reached.before }
        requires known { slice_get value.now reached.place ≡ Some here }
        requires fits { length value.now < 2 ^ 61 }
        ensures next { IfSome result
            (λ next. (next.place ≡ reached.place + 1)
            × IsReached
            value.now
            self.now.segment.now
            self.now.begins
            self.now.ends
            from
            next.place
            next.size
            next.before) }
        ensures served { IfNone result
            ((reached.size ≡ length self.now.segment.now)
            × (IsTrue self.now.begins → IsTrue (is_outside reached.before))
            × (IsTrue self.now.ends → IsTrue (is_outside (Some here)))) }
    {
        if reached.size < self.segment.len() {
            return match self.take(value, reached, from, Some(here)) {
                Some(taken) => Some(taken),
                None => Some(self.fall(falls, value, reached, from, here)),
            };
        }
        if self.is_beside(reached, Some(here)) {
            return None;
        }
        Some(self.fall(falls, value, reached, from, here))
    }

    /// The first place that serves, if any, where the value is at its end.
    fn at_end(&self, value: &Folded, reached: Reached, from: usize) -> Option<usize>
        requires reached { IsReached
            value.now
            self.now.segment.now
            self.now.begins
            self.now.ends
            from
            reached.place
            reached.size
            reached.before }
        requires end { slice_get value.now reached.place ≡ None }
        ensures first { IsFirstFrom
            (IsEdged value.now self.now.segment.now self.now.begins self.now.ends)
            from
            result }
        ensures last { reached.place
            ≤ from + passed (length self.now.segment.now) (length value.now) from result }
    {
        if self.is_served(reached, None) {
            return Some(reached.place - reached.size);
        }
        None
    }

    /// Goes on through the value as long as something of the segment stands, up to the first place
    /// that serves, if any, and gives the meter back. It is kept apart from its caller, and the
    /// meter is its own, so that all that its loop needs stays in registers.
    #[inline(never)]
    fn follow(
        &self,
        falls: &[usize],
        value: &Folded,
        reached: Reached,
        from: usize,
        mut meter: Meter,
    ) -> (ControlFlow<Option<usize>, Reached>, Meter)
        requires room { length self.now.segment.now ≤ length falls.now }
        requires made { AreFalls self.now.segment.now falls.now (length self.now.segment.now) }
        requires reached { IsReached
            value.now
            self.now.segment.now
            self.now.begins
            self.now.ends
            from
            reached.place
            reached.size
            reached.before }
        requires fits { length value.now < 2 ^ 61 }
        ensures followed { MatchControlFlow result.0
            (λ lost. (reached.place ≤ lost.place)
            × IsReached
            value.now
            self.now.segment.now
            self.now.begins
            self.now.ends
            from
            lost.place
            lost.size
            lost.before)
            (λ found. IsFirstFrom
            (IsEdged value.now self.now.segment.now self.now.begins self.now.ends)
            from
            found) }
        ensures never_falls { meter ≤ result.1 }
        ensures reads { MatchControlFlow result.0
            (λ lost. result.1 + reached.place ≤ meter + lost.place)
            (λ found. result.1 + (reached.place - from)
            ≤ meter + passed (length self.now.segment.now) (length value.now) from found + 1) }
    {
        let mut now = reached;
        while now.size > 0 {
            let Some(here) = value.at(now.place, &mut meter) else {
                return (ControlFlow::Break(self.at_end(value, now, from)), meter);
            };
            match self.pass(falls, value, now, from, here) {
                Some(next) => now = next,
                None => return (ControlFlow::Break(Some(now.place - now.size)), meter),
            }
        }
        (ControlFlow::Continue(now), meter)
    }
}

/// The first place from `from` on at which the segment stands with what has to stand beside it. The
/// value is gone through once.
pub(crate) fn find_onward(
    wanted: &Wanted,
    falls: &mut [usize],
    value: &Folded,
    from: usize,
    before: Option<char>,
    meter: &mut Meter,
) -> Option<usize>
    requires room { length wanted.now.segment.now ≤ length falls.old }
    requires in_text { from ≤ length value.now }
    requires fits { length value.now < 2 ^ 61 }
    requires known { IsTrue wanted.now.begins → before ≡ character_before value.now from }
    ensures first { IsFirstFrom
        (IsEdged value.now wanted.now.segment.now wanted.now.begins wanted.now.ends)
        from
        result }
    ensures reads { RisesAtMost
        (passed (length wanted.now.segment.now) (length value.now) from result + 1)
        meter.old
        meter.new }
    ensures same_room { length falls.new ≡ length falls.old }
{
    let mut is_made = false;
    let mut reached = Reached {
        place: from,
        size: 0,
        before,
    };
    loop {
        let Some(entered) = wanted.enter(value, reached, from, meter) else {
            return None;
        };
        let here = value.at(entered.place, meter);
        if let Some(taken) = wanted.take(value, entered, from, here) {
            reached = taken;
            continue;
        }
        if wanted.is_served(entered, here) {
            return Some(entered.place - entered.size);
        }
        let Some(here) = here else {
            return None;
        };
        make_once(wanted.segment, falls, is_made);
        is_made = true;
        let fallen = wanted.fall(falls, value, entered, from, here);
        let counted = mem::replace(meter, Meter::new());
        let (followed, counted) = wanted.follow(falls, value, fallen, from, counted);
        *meter = counted;
        match followed {
            ControlFlow::Break(found) => return found,
            ControlFlow::Continue(lost) => reached = lost,
        }
    }
}

/// Whether a name is a word of the value, where it is none before a place, and its first character
/// stands just before that. The value is gone through once, from there on.
pub(crate) fn word_of_name(
    name: &[char],
    first: char,
    falls: &mut [usize],
    value: &Folded,
    place: usize,
    meter: &mut Meter,
) -> bool
    requires room { length name.now ≤ length falls.old }
    requires in_text { place ≤ length value.now }
    requires fits { length value.now < 2 ^ 61 }
    requires first_known { slice_get name.now 0 ≡ Some first }
    requires before { character_before value.now place ≡ Some first }
    requires none { (j : ℕ) → j < place → IsNameAt value.now name.now j → ⊥ }
    ensures word { IsTrue result ↔ HasWord name.now value.now }
    ensures reads { RisesAtMost (length value.now + 1 - place) meter.old meter.new }
    ensures same_room { length falls.new ≡ length falls.old }
{
    let wanted = Wanted {
        segment: name,
        first,
        begins: true,
        ends: true,
    };
    find_onward(&wanted, falls, value, place, Some(first), meter).is_some()
}

/// The first place from `from` on at which the character stands, and the character before it, where
/// the one before `from` is known. It is kept apart from its caller, so that all that its loop
/// needs stays in registers.
#[inline(never)]
fn scan(
    wanted: char,
    value: &Folded,
    from: usize,
    before: Option<char>,
    meter: &mut Meter,
) -> Option<(usize, Option<char>)>
    requires in_text { from ≤ length value.now }
    requires fits { length value.now < 2 ^ 61 }
    ensures found { IfSome result
        (λ found. (from ≤ found.0) × (found.0 < length value.now)
        × (slice_get value.now found.0 ≡ Some wanted)
        × ((j : ℕ) → from ≤ j → j < found.0 → slice_get value.now j ≡ Some wanted → ⊥)) }
    ensures nowhere { IfNone result ((j : ℕ) → from ≤ j → slice_get value.now j ≡ Some wanted → ⊥) }
    ensures before { before ≡ character_before value.now from
        → IfSome result (λ found. found.1 ≡ character_before value.now found.0) }
    ensures reads { MatchOption result
        (RisesAtMost (length value.now + 1 - from) meter.old meter.new)
        (λ found. RisesAtMost (found.0 + 1 - from) meter.old meter.new) }
{
    let mut counted = mem::replace(meter, Meter::new());
    let mut place = from;
    let mut previous = before;
    let mut found = None;
    while let Some(here) = value.at(place, &mut counted) {
        if here == wanted {
            found = Some((place, previous));
            break;
        }
        previous = Some(here);
        place += 1;
    }
    *meter = counted;
    found
}
