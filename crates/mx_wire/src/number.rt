ghost use Rattle.std.specs.Prelude.{◌≡◌, ◌≤◌, ℕ, true, length};
ghost use Rattle.std.specs.List.{list_all};
ghost use Rattle.std.specs.Char.{is_ascii_digit};
ghost use Rattle.std.specs.Str.Parse.{digits_value};

/// The number that at most 10 digits give.
pub(crate) fn number(text: &[u8]) -> u64
    requires digits { list_all is_ascii_digit text.now ≡ true }
    requires few { length text.now ≤ 10 }
    ensures { result ≡ digits_value 10 text.now }
{
    let mut value = 0;
    for byte in text {
        value = 10 * value + (*byte - b'0') as u64;
    }
    value
}
