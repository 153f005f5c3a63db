//! How deep a value that was read is nested.

ghost use Rattle.std.specs.Prelude.{◌≡◌, nat_le};
ghost use Rattle.serde_json.specs.Data.{depth, items_depth, members_depth};
ghost use Rattle.serde_json.specs.View.{items_view, members_view, view};

use serde_json::{Map, Value};

#[cycle(within)]
pub fn nests_within(value: &Value, deepest: u32) -> bool
    ensures { result ≡ nat_le (depth (view value.now)) deepest }
{
    match value {
        Value::Array(items) => deepest > 0 && items_nest_within(items, deepest - 1),
        Value::Object(members) => deepest > 0 && members_nest_within(members, deepest - 1),
        _ => true,
    }
}

#[cycle(within)]
fn items_nest_within(items: &Vec<Value>, deepest: u32) -> bool
    ensures { result ≡ nat_le (items_depth (items_view items.now.items)) deepest }
{
    for item in items {
        if !nests_within(item, deepest) {
            return false;
        }
    }
    true
}

#[cycle(within)]
fn members_nest_within(members: &Map<String, Value>, deepest: u32) -> bool
    ensures { result ≡ nat_le (members_depth (members_view members.now.entries)) deepest }
{
    for (_, member) in members.iter() {
        if !nests_within(member, deepest) {
            return false;
        }
    }
    true
}
