//! The members of an object, found by halving, since the keys of a valid object rise.

ghost use Rattle.std.specs.Prelude.{◌≡◌, true, map, is_some, option_map, IfSome, MatchOption};
ghost use Rattle.std.specs.Option.{option_copied};
ghost use Rattle.mx_json.specs.Json.{are_rising, is_valid, list_at, member, member_at, member_in};
ghost use Rattle.mx_json.specs.Json.{text_at, text_or_empty, truth_at, whole_at, IsMemberAt};

use crate::text::JsonText;
use crate::value::{Json, JsonList, JsonObject};

impl Json {
    /// The member of a valid value with this key; `None` exactly where there is none, or the value
    /// is no object.
    pub fn member(&self, key: &str) -> Option<&Json>
        requires { is_valid self.now ≡ true }
        ensures found { option_copied result ≡ member key.now self.now }
        ensures valid { IfSome result (λ json. is_valid json.now ≡ true) }
    {
        match self {
            Json::Object(object) => object.get(key),
            _ => None,
        }
    }

    /// Where the member of a valid value with this key stands among the members, for `member_at`;
    /// `None` exactly where there is none, or the value is no object.
    pub fn place_of(&self, key: &str) -> Option<usize>
        requires { is_valid self.now ≡ true }
        ensures place { IfSome result
            (λ place. member_at place self.now ≡ member key.now self.now) }
        ensures exactly { is_some result ≡ is_some (member key.now self.now) }
    {
        match self {
            Json::Object(object) => place_of(object.pairs.as_slice(), key),
            _ => None,
        }
    }

    /// The member that stands at this place, counted from 0; `None` exactly past the last, or
    /// where the value is no object.
    #[inline]
    pub fn member_at(&self, place: usize) -> Option<&Json>
        ensures { option_copied result ≡ member_at place self.now }
    {
        match self {
            Json::Object(object) => match object.pairs.get(place) {
                Some((_, member)) => Some(member),
                None => None,
            },
            _ => None,
        }
    }

    /// The text that is the member with this key; `None` exactly where there is no member, or it
    /// is no text.
    pub fn text_at(&self, key: &str) -> Option<&str>
        requires { is_valid self.now ≡ true }
        ensures { option_copied result ≡ text_at key.now self.now }
    {
        self.member(key)?.as_text()
    }

    /// The text that is the member with this key, and the empty one where there is none.
    pub fn text_or_empty(&self, key: &str) -> &str
        requires { is_valid self.now ≡ true }
        ensures { result.now ≡ text_or_empty key.now self.now }
    {
        match self.text_at(key) {
            Some(text) => text,
            None => "",
        }
    }

    /// The truth value that is the member with this key; `None` exactly where there is no member,
    /// or it is no truth value.
    pub fn truth_at(&self, key: &str) -> Option<bool>
        requires { is_valid self.now ≡ true }
        ensures { result ≡ truth_at key.now self.now }
    {
        self.member(key)?.as_truth()
    }

    /// The whole number that is the member with this key; `None` exactly where there is no member,
    /// or it is no whole number.
    pub fn whole_at(&self, key: &str) -> Option<i64>
        requires { is_valid self.now ≡ true }
        ensures { result ≡ whole_at key.now self.now }
    {
        self.member(key)?.as_whole()
    }

    /// The list that is the member with this key; `None` exactly where there is no member, or it
    /// is no list.
    pub fn list_at(&self, key: &str) -> Option<&JsonList>
        requires { is_valid self.now ≡ true }
        ensures list { option_map (λ list. list.now.items) result ≡ list_at key.now self.now }
        ensures valid { IfSome result (λ list. is_valid (Json.List list.now) ≡ true) }
    {
        self.member(key)?.as_list()
    }
}

impl JsonObject {
    /// The value of the member of a valid object with this key; `None` exactly where there is no
    /// such member.
    pub fn get(&self, key: &str) -> Option<&Json>
        requires { is_valid (Json.Object self.now) ≡ true }
        ensures found { option_copied result ≡ member_in key.now self.now.pairs }
        ensures valid { IfSome result (λ json. is_valid json.now ≡ true) }
    {
        let pairs = self.pairs.as_slice();
        let at = place_of(pairs, key)?;
        Some(&pairs[at].1)
    }

    /// Moves the value of the member with this key out of a valid object; `None` exactly where
    /// there is no such member.
    pub fn into_member(self, key: &str) -> Option<Json>
        requires { is_valid (Json.Object self) ≡ true }
        ensures member { result ≡ member_in key.now self.pairs }
        ensures valid { IfSome result (λ json. is_valid json ≡ true) }
    {
        let JsonObject { mut pairs } = self;
        let at = place_of(pairs.as_slice(), key)?;
        let (_, value) = pairs.remove(at);
        Some(value)
    }
}

// The place of the pair with this key, where the keys rise.
fn place_of(pairs: &[(JsonText, Json)], key: &str) -> Option<usize>
    requires { are_rising (map (λ pair. pair.0) pairs.now) ≡ true }
    ensures { MatchOption result (member_in key.now pairs.now ≡ None)
        (λ at. IsMemberAt key.now pairs.now at) }
{
    pairs.binary_search_by(|pair| pair.0.as_str().cmp(key)).ok()
}
