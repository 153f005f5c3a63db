ghost use Rattle.std.specs.Prelude.{◌≡◌, ℕ, ◌+◌, ◌-◌, ◌*◌, ◌^◌, ◌<◌, ◌≤◌, ◌↔◌, ◌∷◌, ◌++◌, length};
ghost use Rattle.std.specs.Prelude.{IfNone, IfSome, IsTrue};
ghost use Rattle.mx_json.specs.Folded.{RisesAtMost};
ghost use Rattle.mx_glob.specs.Automaton.{IsExact};
ghost use Rattle.mx_glob.specs.Glob.{star};
ghost use Rattle.mx_glob.specs.Leads.{IsPlain, LeadsOn, ends_at, IsEndPlace};
ghost use Rattle.mx_glob.specs.declared.rest.End.TheVariants.{Text, Word};

use crate::onward::{Wanted, find_onward};
use crate::place::{agrees, find};
use crate::word::is_outside;
use mx_json::{Folded, Meter};

/// Where a match may end.
#[derive(Clone, Copy)]
pub(crate) enum End {
    Text,
    Word,
}

/// The pattern before its first star, and after it.
pub(crate) fn split_star(pattern: &[char]) -> Option<(&[char], &[char])>
    ensures plain { IfNone result (IsPlain pattern.now) }
    ensures parts { IfSome result
        (λ parts. IsPlain parts.0.now × (pattern.now ≡ parts.0.now ++ star ∷ parts.1.now)) }
{
    for (place, character) in pattern.iter().enumerate() {
        if *character == '*' {
            return Some((&pattern[..place], &pattern[place + 1..]));
        }
    }
    None
}

/// Whether what stands after a star leads from `from` on to an end.
pub(crate) fn leads_on(
    pattern: &[char],
    falls: &mut [usize],
    value: &Folded,
    from: usize,
    end: End,
    meter: &mut Meter,
) -> bool
    requires room { length pattern.now ≤ length falls.old }
    requires in_text { from ≤ length value.now }
    ensures value { IsTrue result ↔ LeadsOn (ends_at end value.now) value.now pattern.now from }
    ensures reads { RisesAtMost
        ((length pattern.now + 1) * (length value.now - from) + 1)
        meter.old
        meter.new }
    ensures exact_reads { IsExact pattern.now
        → RisesAtMost (2 * (length value.now - from) + 1) meter.old meter.new }
    ensures same_room { length falls.new ≡ length falls.old }
{
    let mut rest = pattern;
    let mut reached = from;
    while let Some((segment, after)) = split_star(rest) {
        match find(segment, falls, value, reached, meter) {
            None => return false,
            Some(place) => reached = place + segment.len(),
        }
        rest = after;
    }
    match end {
        End::Text => ends_text(rest, value, reached, meter),
        End::Word => ends_word(rest, falls, value, reached, meter),
    }
}

/// Whether the segment ends the text, at a place from `from` on.
fn ends_text(segment: &[char], value: &Folded, from: usize, meter: &mut Meter) -> bool
    requires plain { IsPlain segment.now }
    requires in_text { from ≤ length value.now }
    ensures value { IsTrue result ↔ LeadsOn (ends_at Text value.now) value.now segment.now from }
    ensures reads { RisesAtMost (length value.now - from) meter.old meter.new }
{
    if segment.len() > value.len() - from {
        return false;
    }
    agrees(segment, value, value.len() - segment.len(), meter)
}

/// Whether the segment ends a word, at some place from `from` on.
fn ends_word(
    segment: &[char],
    falls: &mut [usize],
    value: &Folded,
    from: usize,
    meter: &mut Meter,
) -> bool
    requires room { length segment.now ≤ length falls.old }
    requires plain { IsPlain segment.now }
    requires in_text { from ≤ length value.now }
    ensures value { IsTrue result ↔ LeadsOn (ends_at Word value.now) value.now segment.now from }
    ensures reads { RisesAtMost
        ((length segment.now + 1) * (length value.now - from) + 1)
        meter.old
        meter.new }
    ensures exact_reads { IsExact segment.now
        → RisesAtMost (2 * (length value.now - from) + 1) meter.old meter.new }
    ensures same_room { length falls.new ≡ length falls.old }
{
    if segment.len() > value.len() - from {
        return false;
    }
    match Wanted::of(segment, false, true) {
        Some(wanted) => find_onward(&wanted, falls, value, from, None, meter).is_some(),
        None => ends_word_tried(segment, value, from, meter),
    }
}

/// The same, each place tried.
fn ends_word_tried(segment: &[char], value: &Folded, from: usize, meter: &mut Meter) -> bool
    requires plain { IsPlain segment.now }
    requires in_text { from + length segment.now ≤ length value.now }
    ensures value { IsTrue result ↔ LeadsOn (ends_at Word value.now) value.now segment.now from }
    ensures reads { RisesAtMost
        ((length segment.now + 1) * (length value.now - from) + 1)
        meter.old
        meter.new }
{
    let last = value.len() - segment.len();
    let mut place = from;
    while place <= last {
        if ends_word_at(segment, value, place, meter) {
            return true;
        }
        place += 1;
    }
    false
}

/// Whether the segment ends a word, at this place. The word's end is looked at first: so a segment
/// of `?` alone is gone through once.
fn ends_word_at(segment: &[char], value: &Folded, place: usize, meter: &mut Meter) -> bool
    requires in_text { place + length segment.now ≤ length value.now }
    requires fits { length value.now < 2 ^ 64 }
    ensures value { IsTrue result ↔ IsEndPlace value.now segment.now place }
    ensures reads { RisesAtMost (length segment.now + 1) meter.old meter.new }
{
    is_outside(value.at(place + segment.len(), meter)) && agrees(segment, value, place, meter)
}
