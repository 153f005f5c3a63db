ghost use Rattle.std.specs.Prelude.{◌≡◌, ℕ, ◌+◌, ◌-◌, ◌*◌, ◌^◌, ◌<◌, ◌≤◌, ◌↔◌, length, IsTrue};
ghost use Rattle.mx_json.specs.Folded.{RisesAtMost};
ghost use Rattle.mx_glob.specs.Automaton.{IsExact, passed};
ghost use Rattle.mx_glob.specs.Leads.{TakesAt, FitsAt, IsPlace, IsFirstFrom, tried};

use crate::onward::{Wanted, find_onward};
use mx_json::{Folded, Meter};

/// Whether a character of a segment takes the one at a place of the value.
fn takes_at(wanted: char, value: &Folded, place: usize, meter: &mut Meter) -> bool
    requires { place < length value.now }
    ensures takes { IsTrue result ↔ TakesAt value.now wanted place }
    ensures reads { RisesAtMost 1 meter.old meter.new }
{
    wanted == '?' || value.at(place, meter) == Some(wanted)
}

/// Whether the value has, from a place on, the characters that the segment asks for.
pub(crate) fn agrees(segment: &[char], value: &Folded, place: usize, meter: &mut Meter) -> bool
    requires in_text { place + length segment.now ≤ length value.now }
    requires fits { place + length segment.now < 2 ^ 64 }
    ensures value { IsTrue result ↔ FitsAt value.now segment.now place }
    ensures reads { RisesAtMost (length segment.now) meter.old meter.new }
{
    for (k, wanted) in segment.iter().enumerate() {
        if !takes_at(*wanted, value, place + k, meter) {
            return false;
        }
    }
    true
}

/// The first place from `from` on at which the segment agrees with the value.
pub(crate) fn find(
    segment: &[char],
    falls: &mut [usize],
    value: &Folded,
    from: usize,
    meter: &mut Meter,
) -> Option<usize>
    requires room { length segment.now ≤ length falls.old }
    requires in_text { from ≤ length value.now }
    ensures first { IsFirstFrom (IsPlace value.now segment.now) from result }
    ensures fits { length value.now < 2 ^ 61 }
    ensures reads { RisesAtMost
        ((length segment.now + 1) * passed (length segment.now) (length value.now) from result)
        meter.old
        meter.new }
    ensures exact_reads { IsExact segment.now
        → RisesAtMost
        (2 * passed (length segment.now) (length value.now) from result)
        meter.old
        meter.new }
    ensures same_room { length falls.new ≡ length falls.old }
{
    if segment.len() > value.len() - from {
        return None;
    }
    if segment.is_empty() {
        return Some(from);
    }
    match Wanted::of(segment, false, false) {
        Some(wanted) => find_onward(&wanted, falls, value, from, None, meter),
        None => find_at_each(segment, value, from, meter),
    }
}

/// The same, each place tried.
fn find_at_each(segment: &[char], value: &Folded, from: usize, meter: &mut Meter) -> Option<usize>
    requires in_text { from + length segment.now ≤ length value.now }
    ensures first { IsFirstFrom (IsPlace value.now segment.now) from result }
    ensures reads { RisesAtMost
        (length segment.now * tried from (length value.now + 1 - length segment.now) result)
        meter.old
        meter.new }
{
    let last = value.len() - segment.len();
    let mut place = from;
    while place <= last {
        if agrees(segment, value, place, meter) {
            return Some(place);
        }
        place += 1;
    }
    None
}
