ghost use Rattle.std.specs.Prelude.{◌≡◌, ◌≢◌, ◌↔◌, ◌++◌, ℕ, List, codes, IsTrue, IfSome, IsNone};
ghost use Rattle.std.specs.Prelude.{MatchOption, map, string_bytes};
ghost use Rattle.push_server.specs.CommandLine.{is_value, is_name_byte, word_of, IsServerName};
ghost use Rattle.push_server.specs.CommandLine.{BeginWith, AreEnded, AreInTurn, AreOptions};
ghost use Rattle.push_server.specs.CommandLine.{AreWordsOf};

/// The most bytes of a server's name.
const LONGEST_NAME: usize = 200;

/// What the program is asked to do, by the first word of its command line.
#[derive(Clone, Copy, Debug, PartialEq, Eq)]
pub enum Subcommand {
    /// `run`: answer lines, and keep what is accepted in the journal.
    Run,
    /// `check`: read the journal, and say how many entries it has.
    Check,
}

/// The words of a command line.
#[derive(Clone, Copy)]
pub struct Words<'a> {
    pub subcommand: Subcommand,
    /// The homeserver's name: 1 to 200 bytes of `a-z A-Z 0-9 . - :
    /// [ ]`, the first of which isn't `-`.
    pub server: &'a str,
    /// The path of the journal's file. It isn't empty and doesn't begin with `-`.
    pub journal: &'a str,
}

/// What the words after the program's name say: a subcommand, and its options `--server NAME` and
/// `--journal PATH` in any order, each exactly once and also spelled `--server=NAME` and
/// `--journal=PATH`. A last word `--` alone means nothing. Other words say nothing.
pub fn read_words(words: &[String]) -> Option<Words<'_>>
    ensures some { IfSome result (λ said. AreWordsOf (map string_bytes words.now)
        said.subcommand said.server.now said.journal.now) }
    ensures none { IsNone result → (subcommand : Subcommand) → (server journal : List ℕ)
        → AreWordsOf (map string_bytes words.now) subcommand server journal → ⊥ }
{
    let (first, options) = words.split_first()?;
    let subcommand = subcommand_of(first.as_str())?;
    let (server, journal) = take_options(options)?;
    if is_server_name(server) && is_value(journal) {
        Some(Words {
            subcommand,
            server,
            journal,
        })
    } else {
        None
    }
}

/// The subcommand that a word names.
fn subcommand_of(word: &str) -> Option<Subcommand>
    ensures { MatchOption result
        ((subcommand : Subcommand) → word.now ≢ word_of subcommand)
        (λ subcommand. word.now ≡ word_of subcommand) }
{
    match word {
        "run" => Some(Subcommand::Run),
        "check" => Some(Subcommand::Check),
        _ => None,
    }
}

/// The values of `--server` and of `--journal`, which are all the words.
fn take_options(words: &[String]) -> Option<(&str, &str)>
    ensures some { IfSome result
        (λ values. AreOptions values.0.now values.1.now (map string_bytes words.now)) }
    ensures none { IsNone result → (server journal : List ℕ)
        → AreOptions server journal (map string_bytes words.now) → ⊥ }
{
    match take_in_turn(words, "--server", "--journal") {
        Some((server, journal)) => Some((server, journal)),
        None => {
            let (journal, server) = take_in_turn(words, "--journal", "--server")?;
            Some((server, journal))
        }
    }
}

/// The values of these two options, which are all the words, in this order.
fn take_in_turn<'a>(words: &'a [String], first: &str, second: &str) -> Option<(&'a str, &'a str)>
    ensures some { IfSome result (λ values.
        AreInTurn first.now values.0.now second.now values.1.now (map string_bytes words.now)) }
    ensures none { IsNone result → (one two : List ℕ)
        → AreInTurn first.now one second.now two (map string_bytes words.now) → ⊥ }
{
    let (one, rest) = take_option(words, first)?;
    let (two, rest) = take_option(rest, second)?;
    if are_ended(rest) {
        Some((one, two))
    } else {
        None
    }
}

/// The value of this option, with which the words begin, and the words after it.
fn take_option<'a>(words: &'a [String], option: &str) -> Option<(&'a str, &'a [String])>
    ensures { MatchOption result
        ((value : List ℕ) (rest : List (List ℕ))
        → BeginWith option.now value rest (map string_bytes words.now) → ⊥)
        (λ taken. BeginWith option.now taken.0.now (map string_bytes taken.1.now)
        (map string_bytes words.now)) }
{
    let (first, rest) = words.split_first()?;
    if first.as_str() == option {
        let (value, rest) = rest.split_first()?;
        Some((value.as_str(), rest))
    } else {
        Some((value_in(first.as_str(), option)?, rest))
    }
}

/// The value of an option that is spelled in one word.
fn value_in<'a>(word: &'a str, option: &str) -> Option<&'a str>
    ensures { MatchOption result
        ((value : List ℕ) → word.now ≢ option.now ++ (codes "=" ++ value))
        (λ value. word.now ≡ option.now ++ (codes "=" ++ value.now)) }
{
    word.strip_prefix(option)?.strip_prefix('=')
}

/// Whether no option follows.
fn are_ended(words: &[String]) -> bool
    ensures { IsTrue result ↔ AreEnded (map string_bytes words.now) }
{
    match words.split_first() {
        Some((last, rest)) => rest.is_empty() && last.as_str() == "--",
        None => true,
    }
}

fn is_server_name(name: &str) -> bool
    ensures { IsTrue result ↔ IsServerName name.now }
{
    is_value(name) && name.len() <= LONGEST_NAME && name.bytes().all(|byte| is_name_byte(byte))
}

fn is_value(value: &str) -> bool
    ensures { result ≡ is_value value.now }
{
    match value.as_bytes() {
        [first, ..] => *first != b'-',
        [] => false,
    }
}

fn is_name_byte(byte: u8) -> bool
    ensures { result ≡ is_name_byte byte }
{
    matches!(byte, b'a'..=b'z' | b'A'..=b'Z' | b'0'..=b'9' | b'.' | b'-' | b':' | b'[' | b']')
}
