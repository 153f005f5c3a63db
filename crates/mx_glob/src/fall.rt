ghost use Rattle.std.specs.Prelude.{◌≡◌, ◌<◌, ◌≤◌, ◌↔◌, length, slice_get, Some, IsTrue};
ghost use Rattle.mx_glob.specs.Automaton.{AreFalls, IsNext};

/// Makes the table of falls, unless it is made.
pub(crate) fn make_once(segment: &[char], falls: &mut [usize], is_made: bool)
    requires some { 0 < length segment.now }
    requires room { length segment.now ≤ length falls.old }
    requires made { IsTrue is_made → AreFalls segment.now falls.old (length segment.now) }
    ensures falls { AreFalls segment.now falls.new (length segment.now) }
    ensures same_room { length falls.new ≡ length falls.old }
{
    if !is_made {
        make_falls(segment, falls);
    }
}

/// Fills the table of falls of a segment: for each of its beginnings, from that of one character
/// on, how long the longest shorter beginning is with which it ends. It is kept apart from the
/// search, which makes the table once at most.
#[inline(never)]
fn make_falls(segment: &[char], falls: &mut [usize])
    requires some { 0 < length segment.now }
    requires room { length segment.now ≤ length falls.old }
    ensures falls { AreFalls segment.now falls.new (length segment.now) }
    ensures same_room { length falls.new ≡ length falls.old }
{
    falls[0] = 0;
    for k in 1..segment.len() {
        falls[k] = next_state(segment, falls, falls[k - 1], segment[k]);
    }
}

/// With how many characters of the segment a text ends that ended with `state` of them and has one
/// more character: as many as there can be.
fn next_state(segment: &[char], falls: &[usize], state: usize, here: char) -> usize
    requires within { state ≤ length segment.now }
    requires room { length segment.now ≤ length falls.now }
    requires known { AreFalls segment.now falls.now state }
    ensures { IsNext segment.now state here result }
{
    if goes_on(segment, state, here) {
        return state + 1;
    }
    fallen_state(segment, falls, state, here)
}

/// The same where the segment doesn't go on with the character.
pub(crate) fn fallen_state(segment: &[char], falls: &[usize], state: usize, here: char) -> usize
    requires within { state ≤ length segment.now }
    requires room { length segment.now ≤ length falls.now }
    requires known { AreFalls segment.now falls.now state }
    requires other { slice_get segment.now state ≡ Some here → ⊥ }
    ensures { IsNext segment.now state here result }
{
    if state == 0 {
        return 0;
    }
    let mut shorter = falls[state - 1];
    while !stands_at(segment, shorter, here) {
        if shorter == 0 {
            return 0;
        }
        shorter = falls[shorter - 1];
    }
    shorter + 1
}

/// Whether this character stands at a place of the segment.
#[inline]
fn stands_at(segment: &[char], place: usize, here: char) -> bool
    requires { place < length segment.now }
    ensures { IsTrue result ↔ (slice_get segment.now place ≡ Some here) }
{
    segment[place] == here
}

/// Whether the segment goes on with this character after so many.
#[inline]
pub(crate) fn goes_on(segment: &[char], state: usize, here: char) -> bool
    ensures { IsTrue result ↔ (slice_get segment.now state ≡ Some here) }
{
    match segment.get(state) {
        Some(next) => *next == here,
        None => false,
    }
}
