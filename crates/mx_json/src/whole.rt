//! A value that was read, where each number in it is whole.

ghost use Rattle.std.specs.Prelude.{◌≡◌, []};
ghost use Rattle.serde_json.specs.View.{items_view, members_view, number_view, view};
ghost use Rattle.mx_json.specs.Gives.{Gives};
ghost use Rattle.mx_json.specs.Reading.{whole_items, whole_json, whole_number_of, whole_pairs};

use crate::reading::JsonError;
use crate::text::JsonText;
use crate::value::{Json, JsonList, JsonObject};
use serde_json::{Map, Number, Value};
use sqlite_items::Items;
use std::alloc::Global;

const LARGEST_WHOLE: u64 = (1 << 53) - 1;

#[cycle(whole)]
pub fn whole_json(alloc: Global, value: Value) -> Result<Json, JsonError>
    ensures { Gives JsonError.OutOfMemory result (whole_json (view value)) }
{
    match value {
        Value::Null => Ok(Json::Null),
        Value::Bool(truth) => Ok(Json::Truth(truth)),
        Value::Number(number) => match whole_number_of(&number) {
            Some(number) => Ok(Json::Whole(number)),
            None => Err(JsonError::NotWhole),
        },
        Value::String(text) => Ok(Json::Text(JsonText::from_string(text))),
        Value::Array(items) => Ok(Json::List(JsonList {
            items: whole_items(alloc, items)?,
        })),
        Value::Object(members) => Ok(Json::Object(JsonObject {
            pairs: whole_pairs(alloc, members)?,
        })),
    }
}

#[cycle(whole)]
fn whole_items(alloc: Global, items: Vec<Value>) -> Result<Items<Json>, JsonError>
    ensures { Gives JsonError.OutOfMemory result (whole_items [] (items_view items.items)) }
{
    let mut done = Items::new(alloc);
    for item in items {
        done.push(whole_json(alloc, item)?)?;
    }
    Ok(done)
}

#[cycle(whole)]
fn whole_pairs(
    alloc: Global,
    members: Map<String, Value>,
) -> Result<Items<(JsonText, Json)>, JsonError>
    ensures { Gives JsonError.OutOfMemory result (whole_pairs [] (members_view members.entries)) }
{
    let mut done = Items::new(alloc);
    for (key, member) in members {
        let member = whole_json(alloc, member)?;
        done.push((JsonText::from_string(key), member))?;
    }
    Ok(done)
}

fn whole_number_of(number: &Number) -> Option<i64>
    ensures { result ≡ whole_number_of (number_view number.now) }
{
    let whole = number.as_i64()?;
    if whole.unsigned_abs() <= LARGEST_WHOLE {
        Some(whole)
    } else {
        None
    }
}
