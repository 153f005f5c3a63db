ghost use Rattle.std.specs.Prelude.{◌≡◌, ℕ, ◌+◌, ◌-◌, ◌*◌, ◌^◌, ◌<◌, ◌≤◌, ◌==◌, ◌↔◌, false, length};
ghost use Rattle.std.specs.Prelude.{drop, min, slice_get, slice_range, Some, IfOk, IfSome, IsTrue};
ghost use Rattle.mx_json.specs.Folded.{folded, RisesAtMost};
ghost use Rattle.mx_glob.specs.Automaton.{IsExact, passed};
ghost use Rattle.mx_glob.specs.Glob.{question};
ghost use Rattle.mx_glob.specs.Leads.{FitsAt, TakesFirst, IsWordPlace, IsNameAt, IsFirstFrom};
ghost use Rattle.mx_glob.specs.Leads.{tried};
ghost use Rattle.mx_glob.specs.Words.{is_outside, character_before, HasWord};
ghost use Rattle.mx_glob.specs.declared.held.TheConstants.{MOST_CHARACTERS};
ghost use Rattle.mx_glob.specs.declared.word.TheConstants.{FEW_CHARACTERS};

use crate::held::{MOST_CHARACTERS, hold};
use crate::onward::{Wanted, find_onward};
use crate::place::agrees;
use crate::scratch::Scratch;
use crate::search::{begins_at, has_word};
use mx_json::{Folded, Meter, OutOfMemory};
use std::mem;

/// Whether there is no character, or one that is no part of a word.
pub(crate) fn is_outside(character: Option<char>) -> bool
    ensures { result ≡ is_outside character }
{
    match character {
        None => true,
        Some(c) => !(c.is_ascii_alphanumeric() || c == '_'),
    }
}

/// The first place at which a word of the value begins and the segment agrees, and with `whole`
/// also ends at the end of a word.
pub(crate) fn find_word(
    segment: &[char],
    falls: &mut [usize],
    value: &Folded,
    whole: bool,
    meter: &mut Meter,
) -> Option<usize>
    requires room { length segment.now ≤ length falls.old }
    ensures first { IsFirstFrom (IsWordPlace value.now segment.now whole) 0 result }
    ensures fits { length value.now < 2 ^ 61 }
    ensures reads { RisesAtMost
        ((length segment.now + 1) * passed (length segment.now) (length value.now) 0 result + 1)
        meter.old
        meter.new }
    ensures exact_reads { IsExact segment.now
        → RisesAtMost
        (2 * passed (length segment.now) (length value.now) 0 result + 1)
        meter.old
        meter.new }
    ensures same_room { length falls.new ≡ length falls.old }
{
    if segment.len() > value.len() {
        return None;
    }
    match Wanted::of(segment, true, whole) {
        Some(wanted) => find_onward(&wanted, falls, value, 0, None, meter),
        None => find_tried(segment, value, whole, meter),
    }
}

/// The same, more than one place tried.
fn find_tried(segment: &[char], value: &Folded, whole: bool, meter: &mut Meter) -> Option<usize>
    requires in_text { length segment.now ≤ length value.now }
    requires fits { length value.now < 2 ^ 61 }
    ensures first { IsFirstFrom (IsWordPlace value.now segment.now whole) 0 result }
    ensures reads { RisesAtMost
        ((length segment.now + 1) * tried 0 (length value.now + 1 - length segment.now) result)
        meter.old
        meter.new }
{
    match fixed_first(segment) {
        Some(first) => find_by_first(first, segment, value, whole, meter),
        None => find_at_each(segment, value, whole, meter),
    }
}

/// The segment's first character, where that is itself.
fn fixed_first(segment: &[char]) -> Option<char>
    ensures { IfSome result
        (λ first. (slice_get segment.now 0 ≡ Some first) × (first == question ≡ false)) }
{
    match segment {
        [] | ['?', ..] => None,
        [first, ..] => Some(*first),
    }
}

/// The same for a segment whose first character is itself: more is read only where that stands.
fn find_by_first(
    first: char,
    segment: &[char],
    value: &Folded,
    whole: bool,
    meter: &mut Meter,
) -> Option<usize>
    requires first_known { slice_get segment.now 0 ≡ Some first }
    requires itself { first == question ≡ false }
    requires in_text { length segment.now ≤ length value.now }
    requires fits { length value.now < 2 ^ 61 }
    ensures first { IsFirstFrom (IsWordPlace value.now segment.now whole) 0 result }
    ensures reads { RisesAtMost
        ((length segment.now + 1) * tried 0 (length value.now + 1 - length segment.now) result)
        meter.old
        meter.new }
{
    let past = value.len() - segment.len() + 1;
    let mut from = 0;
    let mut before = None;
    while let Some(place) = next_place(first, value, from, past, meter) {
        let previous = before_place(value, from, before, place, meter);
        if is_word_place(segment, value, place, previous, Some(first), whole, meter) {
            return Some(place);
        }
        before = Some(first);
        from = place + 1;
    }
    None
}

/// The first place from `from` on and before `past` at which the character stands. It is kept apart
/// from its caller, so that all that its loop needs stays in registers.
#[inline(never)]
fn next_place(
    wanted: char,
    value: &Folded,
    from: usize,
    past: usize,
    meter: &mut Meter,
) -> Option<usize>
    requires in_order { from ≤ past }
    requires fits { past < 2 ^ 62 }
    ensures first { IsFirstFrom (λ k. (k < past)
        × (slice_get value.now k ≡ Some wanted)) from result }
    ensures reads { RisesAtMost (tried from past result) meter.old meter.new }
{
    let mut counted = mem::replace(meter, Meter::new());
    let mut place = from;
    let mut found = None;
    while place < past {
        match value.at(place, &mut counted) {
            Some(here) if here == wanted => {
                found = Some(place);
                break;
            }
            _ => place += 1,
        }
    }
    *meter = counted;
    found
}

/// The character before a place, where the one before an earlier place is known.
fn before_place(
    value: &Folded,
    from: usize,
    before: Option<char>,
    place: usize,
    meter: &mut Meter,
) -> Option<char>
    requires in_order { from ≤ place }
    requires known { before ≡ character_before value.now from }
    ensures before { result ≡ character_before value.now place }
    ensures reads { RisesAtMost (min 1 (place - from)) meter.old meter.new }
{
    if place == from {
        return before;
    }
    value.at(place - 1, meter)
}

/// The same, each place tried.
fn find_at_each(segment: &[char], value: &Folded, whole: bool, meter: &mut Meter) -> Option<usize>
    requires { length segment.now ≤ length value.now }
    ensures first { IsFirstFrom (IsWordPlace value.now segment.now whole) 0 result }
    ensures reads { RisesAtMost
        ((length segment.now + 1) * tried 0 (length value.now + 1 - length segment.now) result)
        meter.old
        meter.new }
{
    let last = value.len() - segment.len();
    let mut place = 0;
    let mut before = None;
    loop {
        let here = value.at(place, meter);
        if is_word_place(segment, value, place, before, here, whole, meter) {
            return Some(place);
        }
        if place == last {
            return None;
        }
        before = here;
        place += 1;
    }
}

/// Whether a place serves, whose character and the one before it are known. The word's end is
/// looked at before the segment: so a segment of `?` alone is gone through once.
fn is_word_place(
    segment: &[char],
    value: &Folded,
    place: usize,
    before: Option<char>,
    here: Option<char>,
    whole: bool,
    meter: &mut Meter,
) -> bool
    requires in_text { place + length segment.now ≤ length value.now }
    requires fits { place + length segment.now < 2 ^ 64 }
    requires before_known { before ≡ character_before value.now place }
    requires known { here ≡ slice_get value.now place }
    ensures serves { IsTrue result ↔ IsWordPlace value.now segment.now whole place }
    ensures reads { RisesAtMost (length segment.now) meter.old meter.new }
{
    takes_first(segment, here)
        && is_outside(before)
        && (!whole || is_outside(character_at(value, place, here, segment.len(), meter)))
        && agrees_after(segment, value, place, meter)
}

/// Whether the segment's first character, if any, takes this one.
fn takes_first(segment: &[char], here: Option<char>) -> bool
    ensures { IsTrue result ↔ TakesFirst segment.now here }
{
    match segment {
        [] => true,
        [first, ..] => (*first == '?' && here.is_some()) || here == Some(*first),
    }
}

/// Whether the segment's other characters agree with those after a place.
fn agrees_after(segment: &[char], value: &Folded, place: usize, meter: &mut Meter) -> bool
    requires in_text { place + length segment.now ≤ length value.now }
    requires fits { place + length segment.now < 2 ^ 64 }
    ensures value { IsTrue result ↔ FitsAt value.now (drop 1 segment.now) (place + 1) }
    ensures reads { RisesAtMost (length segment.now - 1) meter.old meter.new }
{
    match segment {
        [] => true,
        [_, rest @ ..] => agrees(rest, value, place + 1, meter),
    }
}

/// The character `steps` after a place whose character is known.
fn character_at(
    value: &Folded,
    place: usize,
    here: Option<char>,
    steps: usize,
    meter: &mut Meter,
) -> Option<char>
    requires fits { place + steps < 2 ^ 64 }
    requires known { here ≡ slice_get value.now place }
    ensures character { result ≡ slice_get value.now (place + steps) }
    ensures reads { RisesAtMost (min 1 steps) meter.old meter.new }
{
    if steps == 0 {
        return here;
    }
    value.at(place + steps, meter)
}

/// How many characters a name may have for which a little room is enough.
const FEW_CHARACTERS: usize = 16;

/// Whether the name is a word of the value: some part of it, the empty one included, with no
/// character of `A-Z a-z 0-9 _` just before and just after (Client-Server API v1.11, "Conditions
/// for push rules", contains_display_name). It takes no memory. With n characters of the name and v
/// of the value it reads at most 2(n + 1)(v + 1), and where n is at most 1,536 also at most
/// 2(v + 1) + n: each call of `Folded::at` counts, on the value and on the name.
pub fn word_literal(name: &Folded, value: &Folded, meter: &mut Meter) -> bool
    ensures word { IsTrue result ↔ HasWord name.now value.now }
    ensures reads { RisesAtMost
        (2 * (length name.now + 1) * (length value.now + 1))
        meter.old
        meter.new }
    ensures short_reads { length name.now ≤ MOST_CHARACTERS
        → RisesAtMost (2 * (length value.now + 1) + length name.now) meter.old meter.new }
{
    if name.len() <= FEW_CHARACTERS {
        return few_word(name, value, meter);
    }
    if name.len() <= MOST_CHARACTERS {
        return short_word(name, value, meter);
    }
    long_word(name, value, meter)
}

/// The same for a name of few characters.
fn few_word(name: &Folded, value: &Folded, meter: &mut Meter) -> bool
    requires { length name.now ≤ FEW_CHARACTERS }
    ensures word { IsTrue result ↔ HasWord name.now value.now }
    ensures reads { RisesAtMost
        (2 * length value.now + 1 + length name.now)
        meter.old
        meter.new }
{
    let mut room = ['*'; FEW_CHARACTERS];
    hold(&mut room, name, meter);
    held_word(&room[..name.len()], &mut [0; FEW_CHARACTERS], value, meter)
}

/// The same for one of no more characters than a pattern has. It is kept apart, since its room is
/// cleared at each call.
#[inline(never)]
fn short_word(name: &Folded, value: &Folded, meter: &mut Meter) -> bool
    requires { length name.now ≤ MOST_CHARACTERS }
    ensures word { IsTrue result ↔ HasWord name.now value.now }
    ensures reads { RisesAtMost
        (2 * length value.now + 1 + length name.now)
        meter.old
        meter.new }
{
    let mut room = ['*'; MOST_CHARACTERS];
    hold(&mut room, name, meter);
    held_word(&room[..name.len()], &mut [0; MOST_CHARACTERS], value, meter)
}

/// The same for one of any number of characters, each place tried.
fn long_word(name: &Folded, value: &Folded, meter: &mut Meter) -> bool
    ensures word { IsTrue result ↔ HasWord name.now value.now }
    ensures reads { RisesAtMost
        (2 * (length name.now + 1) * (length value.now + 1))
        meter.old
        meter.new }
{
    if name.len() > value.len() {
        return false;
    }
    for place in 0..value.len() - name.len() + 1 {
        if is_name_at(name, value, place, meter) {
            return true;
        }
    }
    false
}

/// Whether the name is a word of the value at a place.
fn is_name_at(name: &Folded, value: &Folded, place: usize, meter: &mut Meter) -> bool
    requires in_text { place + length name.now ≤ length value.now }
    requires fits { length value.now < 2 ^ 61 }
    ensures word { IsTrue result ↔ IsNameAt value.now name.now place }
    ensures reads { RisesAtMost (2 * (length name.now + 1)) meter.old meter.new }
{
    if !begins_at(value, place, meter) {
        return false;
    }
    if !stands_at(name, value, place, meter) {
        return false;
    }
    is_outside(value.at(place + name.len(), meter))
}

/// Whether the name stands at a place of the value.
fn stands_at(name: &Folded, value: &Folded, place: usize, meter: &mut Meter) -> bool
    requires in_text { place + length name.now ≤ length value.now }
    requires fits { length value.now < 2 ^ 61 }
    ensures value { IsTrue result
        ↔ (slice_range value.now place (place + length name.now) ≡ name.now) }
    ensures reads { RisesAtMost (2 * length name.now) meter.old meter.new }
{
    for k in 0..name.len() {
        if name.at(k, meter) != value.at(place + k, meter) {
            return false;
        }
    }
    true
}

/// Whether a name that is held is a word of the value.
fn held_word(name: &[char], falls: &mut [usize], value: &Folded, meter: &mut Meter) -> bool
    requires room { length name.now ≤ length falls.old }
    ensures word { IsTrue result ↔ HasWord name.now value.now }
    ensures reads { RisesAtMost (2 * length value.now + 1) meter.old meter.new }
    ensures same_room { length falls.new ≡ length falls.old }
{
    if name.is_empty() {
        return find_word(name, falls, value, true, meter).is_some();
    }
    has_word(name, falls, value, meter)
}

/// The same as `word_literal`, on the foldings of a name and of a text, which the scratch keeps:
/// the name apart from the texts. Here the second bound holds for every name: the scratch makes
/// room for a longer one.
///
/// # Errors
///
/// `OutOfMemory` where there is none for the two and their foldings, or for that room.
pub fn name_of_text(
    name: &str,
    text: &str,
    scratch: &mut Scratch,
    meter: &mut Meter,
) -> Result<bool, OutOfMemory>
    ensures word { IfOk result
        (λ word. IsTrue word ↔ HasWord (folded name.now) (folded text.now)) }
    ensures reads { RisesAtMost
        (2 * (length (folded name.now) + 1) * (length (folded text.now) + 1))
        meter.old
        meter.new }
    ensures scan_reads { RisesAtMost
        (2 * (length (folded text.now) + 1) + length (folded name.now))
        meter.old
        meter.new }
{
    scratch.name.take(name)?;
    scratch.texts.ask(text)?;
    let name = scratch.name.folding();
    let value = scratch.texts.folding();
    if name.len() > value.len() {
        return Ok(false);
    }
    let held = &mut scratch.held;
    held.make_room(name.len())?;
    held.hold(name, meter);
    let characters = &held.characters[..name.len()];
    Ok(held_word(characters, held.falls.as_mut_slice(), value, meter))
}
