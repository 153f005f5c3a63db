ghost use Rattle.std.specs.Prelude.{◌≡◌, ◌↔◌, true, IsTrue};
ghost use Rattle.std.specs.Char.{is_ascii_digit};
ghost use Rattle.std.specs.List.{list_all};
ghost use Rattle.std.specs.Str.Parse.{digits_value};
ghost use Rattle.mx_cond.specs.MemberCount.{count_asked, is_number, number_in, signed, Compares};

/// How a number of members stands to another number.
#[derive(Clone, Copy)]
pub enum Comparison {
    Equal,
    Below,
    Above,
    AtLeast,
    AtMost,
}

/// A comparison with a number of members.
#[derive(Clone, Copy)]
pub struct MemberCount {
    pub comparison: Comparison,
    pub number: u64,
}

impl MemberCount {
    /// Whether this many members are as asked.
    pub fn allows(&self, joined: u64) -> bool
        ensures { IsTrue result ↔ Compares self.now.comparison joined self.now.number }
    {
        match self.comparison {
            Comparison::Equal => joined == self.number,
            Comparison::Below => joined < self.number,
            Comparison::Above => joined > self.number,
            Comparison::AtLeast => joined >= self.number,
            Comparison::AtMost => joined <= self.number,
        }
    }
}

/// What a text asks for: an optional `==`, `<`, `>`, `>=` or `<=` and 1 to 15 digits, and nothing
/// else.
#[tactic(auto, unfolding(crate::specs::MemberCount::count_asked))]
pub fn count_asked(text: &str) -> Option<MemberCount>
    ensures { result ≡ count_asked text.now }
{
    let (comparison, digits) = signed(text.as_bytes());
    let number = number_of(digits)?;
    Some(MemberCount { comparison, number })
}

// The sign with which a text begins, and what follows it.
fn signed(text: &[u8]) -> (Comparison, &[u8])
    ensures comparison { result.0 ≡ (signed text.now).comparison }
    ensures number { result.1.now ≡ (signed text.now).number }
{
    match text {
        [b'=', b'=', number @ ..] => (Comparison::Equal, number),
        [b'>', b'=', number @ ..] => (Comparison::AtLeast, number),
        [b'<', b'=', number @ ..] => (Comparison::AtMost, number),
        [b'<', number @ ..] => (Comparison::Below, number),
        [b'>', number @ ..] => (Comparison::Above, number),
        number => (Comparison::Equal, number),
    }
}

// The number that a text writes where it has 1 to 15 digits, and nothing else.
fn number_of(text: &[u8]) -> Option<u64>
    ensures { result ≡ number_in text.now }
{
    if is_number(text) {
        Some(value_of(text))
    } else {
        None
    }
}

fn is_number(text: &[u8]) -> bool
    ensures { result ≡ is_number text.now }
{
    1 <= text.len() && text.len() <= 15 && are_digits(text)
}

fn are_digits(text: &[u8]) -> bool
    ensures { result ≡ list_all is_ascii_digit text.now }
{
    text.iter().all(|byte| byte.is_ascii_digit())
}

fn value_of(digits: &[u8]) -> u64
    requires number { is_number digits.now ≡ true }
    ensures { result ≡ digits_value 10 digits.now }
{
    let mut value = 0;
    for digit in digits {
        value = value * 10 + u64::from(*digit - b'0');
    }
    value
}
