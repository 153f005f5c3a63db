ghost use Rattle.std.specs.Prelude.{◌≡◌, ◌↔◌, true, [], ◌∷◌, ◌++◌, length, slice_get, option_map};
ghost use Rattle.std.specs.Prelude.{IfOk, IfSome, IsTrue};
ghost use Rattle.std.specs.Option.{option_copied};
ghost use Rattle.mx_json.specs.Json.{is_object, is_valid, list_of, text_of, truth_of, whole_of};

use crate::memory::OutOfMemory;
use crate::text::JsonText;
use sqlite_items::Items;
use std::alloc::Global;

/// A JSON value whose numbers are whole: plain data, equal where the trees are equal.
#[cycle(json)]
#[derive(Drop)]
pub enum Json {
    /// `null`.
    Null,
    /// `true` or `false`.
    Truth(bool),
    /// A whole number; in a valid value from -(2^53)+1 to (2^53)-1.
    Whole(i64),
    /// A text.
    Text(JsonText),
    /// A list.
    List(JsonList),
    /// An object.
    Object(JsonObject),
}

/// The members of a JSON list, in order.
#[cycle(json)]
#[derive(Drop)]
pub struct JsonList {
    /// The members.
    pub items: Items<Json>,
}

/// The members of a JSON object; in a valid value by strictly rising key.
#[cycle(json)]
#[derive(Drop)]
pub struct JsonObject {
    /// The keys, each with its value.
    pub pairs: Items<(JsonText, Json)>,
}

impl Json {
    /// Whether the value is an object.
    pub fn is_object(&self) -> bool
        ensures { result ≡ is_object self.now }
    {
        matches!(self, Json::Object(_))
    }

    /// The text that the value is; `None` exactly where it is none.
    pub fn as_text(&self) -> Option<&str>
        ensures { option_copied result ≡ text_of self.now }
    {
        match self {
            Json::Text(text) => Some(text.as_str()),
            _ => None,
        }
    }

    /// The truth value that the value is; `None` exactly where it is none.
    pub fn as_truth(&self) -> Option<bool>
        ensures { result ≡ truth_of self.now }
    {
        match self {
            Json::Truth(truth) => Some(*truth),
            _ => None,
        }
    }

    /// The whole number that the value is; `None` exactly where it is none.
    pub fn as_whole(&self) -> Option<i64>
        ensures { result ≡ whole_of self.now }
    {
        match self {
            Json::Whole(number) => Some(*number),
            _ => None,
        }
    }

    /// The list that the value is; `None` exactly where it is none.
    pub fn as_list(&self) -> Option<&JsonList>
        ensures list { option_map (λ list. list.now.items) result ≡ list_of self.now }
        ensures valid { is_valid self.now ≡ true
            → IfSome result (λ list. is_valid (Json.List list.now) ≡ true) }
    {
        match self {
            Json::List(list) => Some(list),
            _ => None,
        }
    }

    /// An equal value of its own.
    ///
    /// # Errors
    ///
    /// `OutOfMemory` where the allocator has none.
    #[cycle(copied)]
    pub fn copied(&self, alloc: Global) -> Result<Json, OutOfMemory>
        ensures { IfOk result (λ json. json ≡ self.now) }
    {
        match self {
            Json::Null => Ok(Json::Null),
            Json::Truth(truth) => Ok(Json::Truth(*truth)),
            Json::Whole(number) => Ok(Json::Whole(*number)),
            Json::Text(text) => Ok(Json::Text(text.copied(alloc)?)),
            Json::List(list) => Ok(Json::List(list.copied(alloc)?)),
            Json::Object(object) => Ok(Json::Object(object.copied(alloc)?)),
        }
    }
}

impl JsonList {
    /// The member at this place, counted from 0; `None` exactly past the last.
    pub fn at(&self, k: usize) -> Option<&Json>
        ensures { option_copied result ≡ slice_get self.now.items k }
    {
        self.items.get(k)
    }

    /// How many members there are.
    pub fn len(&self) -> usize
        ensures { result ≡ length self.now.items }
    {
        self.items.len()
    }

    /// Whether there is no member.
    pub fn is_empty(&self) -> bool
        ensures { IsTrue result ↔ (self.now.items ≡ []) }
    {
        self.items.is_empty()
    }

    /// An equal list of its own.
    ///
    /// # Errors
    ///
    /// `OutOfMemory` where the allocator has none.
    #[cycle(copied)]
    pub fn copied(&self, alloc: Global) -> Result<JsonList, OutOfMemory>
        ensures { IfOk result (λ list. list ≡ self.now) }
    {
        let mut items = Items::new(alloc);
        for item in self.items.as_slice() {
            items.push(item.copied(alloc)?)?;
        }
        Ok(JsonList { items })
    }
}

impl JsonObject {
    /// An object without members.
    pub fn new(alloc: Global) -> JsonObject
        ensures { result.pairs ≡ [] }
    {
        JsonObject {
            pairs: Items::new(alloc),
        }
    }

    /// The object with one more member behind the others: in a valid one its key is above theirs.
    ///
    /// # Errors
    ///
    /// `OutOfMemory` where the allocator has none.
    pub fn with(self, alloc: Global, key: &str, value: Json) -> Result<JsonObject, OutOfMemory>
        ensures { IfOk result (λ object. object.pairs ≡ self.pairs ++ (key.now, value) ∷ []) }
    {
        let JsonObject { mut pairs } = self;
        pairs.push((JsonText::read(alloc, key)?, value))?;
        Ok(JsonObject { pairs })
    }

    /// The key and the value at this place, counted from 0; `None` exactly past the last.
    pub fn pair_at(&self, k: usize) -> Option<(&str, &Json)>
        ensures { option_map (λ pair. (pair.0.now, pair.1.now)) result
            ≡ slice_get self.now.pairs k }
    {
        match self.pairs.get(k) {
            Some((key, value)) => Some((key.as_str(), value)),
            None => None,
        }
    }

    /// How many members there are.
    pub fn len(&self) -> usize
        ensures { result ≡ length self.now.pairs }
    {
        self.pairs.len()
    }

    /// Whether there is no member.
    pub fn is_empty(&self) -> bool
        ensures { IsTrue result ↔ (self.now.pairs ≡ []) }
    {
        self.pairs.is_empty()
    }

    /// An equal object of its own.
    ///
    /// # Errors
    ///
    /// `OutOfMemory` where the allocator has none.
    #[cycle(copied)]
    pub fn copied(&self, alloc: Global) -> Result<JsonObject, OutOfMemory>
        ensures { IfOk result (λ object. object ≡ self.now) }
    {
        let mut pairs = Items::new(alloc);
        for (key, value) in self.pairs.as_slice() {
            pairs.push((key.copied(alloc)?, value.copied(alloc)?))?;
        }
        Ok(JsonObject { pairs })
    }
}
