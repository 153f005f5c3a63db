ghost use Rattle.std.specs.Prelude.{◌≡◌, ◌-◌, ◌%◌, ◌<◌, ◌==◌, ◌↔◌, false, length, replicate};
ghost use Rattle.std.specs.Prelude.{slice_get, IsTrue, IfSome};
ghost use Rattle.mx_glob.specs.Automaton.{IsExact};
ghost use Rattle.mx_glob.specs.Glob.{star, question};
ghost use Rattle.mx_glob.specs.Search.{AreSkips, IsLiteral};

use mx_json::{Folded, Meter};

/// Whether a pattern is itself, without `*` and `?`.
pub(crate) fn is_literal(pattern: &Folded) -> bool
    ensures { IsTrue result → IsLiteral pattern.now }
{
    let mut meter = Meter::new();
    for k in 0..pattern.len() {
        if !is_itself(pattern.at(k, &mut meter)) {
            return false;
        }
    }
    true
}

/// Whether a pattern has a character.
pub(crate) fn has_some(pattern: &Folded) -> bool
    ensures { IsTrue result → 0 < length pattern.now }
{
    !pattern.is_empty()
}

/// Whether a segment has no `?`.
pub(crate) fn is_exact(segment: &[char]) -> bool
    ensures { IsTrue result ↔ IsExact segment.now }
{
    for character in segment {
        if *character == '?' {
            return false;
        }
    }
    true
}

/// Whether a character of a pattern is itself.
fn is_itself(character: Option<char>) -> bool
    ensures { IsTrue result
        → IfSome character (λ c. (c == star ≡ false) × (c == question ≡ false)) }
{
    match character {
        None => true,
        Some(c) => c != '*' && c != '?',
    }
}

/// The skips of a search for the name.
pub(crate) fn skips_of(name: &[char]) -> [u8; 64]
    requires { 0 < length name.now }
    ensures { AreSkips name.now result }
{
    let end = name.len() - 1;
    let mut skips = all_skip(name.len().min(255) as u8);
    for k in 0..end {
        skips[class_of(name[k])] = (end - k).min(255) as u8;
    }
    skips
}

/// The same skip for each class.
fn all_skip(most: u8) -> [u8; 64]
    ensures { result ≡ replicate 64 most }
{
    [most; 64]
}

/// The class of a character.
pub(crate) fn class_of(character: char) -> usize
    ensures { result ≡ character % 64 }
{
    (character as u32 % 64) as usize
}
