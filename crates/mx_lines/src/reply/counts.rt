//! The replies to who asks for counts.

ghost use Rattle.std.specs.Prelude.{◌≡◌, ◌≤◌, [], ◌∷◌, ◌++◌, All, IfOk, codes, map, true};
ghost use Rattle.std.specs.FinMap.{entries};
ghost use Rattle.mx_json.specs.Json.{depth_of, is_valid};
ghost use Rattle.mx_records.specs.Counting.{counts_of, threads_of};
ghost use Rattle.mx_records.specs.History.{History};
ghost use Rattle.mx_records.specs.Refusing.{most_inputs};
ghost use Rattle.mx_records.specs.Snapshot.{snapshot_of};
ghost use Rattle.mx_lines.specs.Replies.{by_root, by_thread, counts_value, numbers_of, object_of};
ghost use Rattle.mx_lines.specs.Replies.{root_member};
ghost use Rattle.mx_lines.specs.Roots.{MayStand, roots_in};

use super::number;
use mx_json::{Json, JsonObject, OutOfMemory, RoomId, UserId};
use mx_records::{Counts, Questions};
use mx_rows::ThreadKey;
use std::alloc::Global;
use std::collections::BTreeMap;

#[cfg(test)]
mod tests;

/// The counts of the main thread, and under `threads` those of each other one that has rows.
pub fn by_thread<Q: Questions>(
    alloc: Global,
    questions: &Q,
    user: &UserId,
    room: &RoomId,
) -> Result<Json, OutOfMemory>
    ensures value { (h : History)
        → Q.snapshot questions.now ≡ snapshot_of (Q.server questions.now) h
        → IfOk result (λ value. value ≡ by_thread
        (counts_of (Q.server questions.now) h user.now room.now)
        (threads_of (Q.server questions.now) h user.now room.now)) }
    ensures valid { IfOk result (λ value. is_valid value ≡ true) }
{
    let roots = by_root(alloc, questions, user, room)?;
    with_roots(
        alloc,
        questions.counts(user, room, &ThreadKey::Main),
        &roots,
    )
}

/// The counts of each thread that has rows and a root, by the root's id.
fn by_root<'a, Q: Questions>(
    alloc: Global,
    questions: &'a Q,
    user: &UserId,
    room: &RoomId,
) -> Result<BTreeMap<&'a str, Counts>, OutOfMemory>
    ensures roots { (h : History)
        → Q.snapshot questions.now ≡ snapshot_of (Q.server questions.now) h
        → IfOk result (λ roots. roots_in roots ≡ entries (by_root
        (counts_of (Q.server questions.now) h user.now room.now)
        (threads_of (Q.server questions.now) h user.now room.now))) }
    ensures may_stand { IfOk result (λ roots. All MayStand (roots_in roots)) }
{
    let mut roots = BTreeMap::new(alloc);
    // Each thread has a row, so there are no more threads than rows.
    for k in 0..questions.room_counts(user, room).notify as usize {
        let Some(thread) = questions.thread_at(user, room, k) else {
            break;
        };
        if let ThreadKey::Root(id) = thread {
            roots.insert(id.as_text(), questions.counts(user, room, thread))?;
        }
    }
    Ok(roots)
}

/// These counts, and under `threads` those of each root.
fn with_roots(
    alloc: Global,
    main: Counts,
    roots: &BTreeMap<&str, Counts>,
) -> Result<Json, OutOfMemory>
    requires notify { main.notify ≤ most_inputs }
    requires highlight { main.highlight ≤ most_inputs }
    requires roots { All MayStand (roots_in roots.now) }
    ensures value { IfOk result (λ value. value ≡ object_of (numbers_of main
        ++ (codes "threads", object_of (map root_member (roots_in roots.now))) ∷ [])) }
    ensures valid { IfOk result (λ value. is_valid value ≡ true) }
{
    let members = numbers_of(alloc, main)?.with(alloc, "threads", roots_value(alloc, roots)?)?;
    Ok(Json::Object(members))
}

/// The counts under each root's id.
fn roots_value(alloc: Global, roots: &BTreeMap<&str, Counts>) -> Result<Json, OutOfMemory>
    requires { All MayStand (roots_in roots.now) }
    ensures value { IfOk result (λ value.
        value ≡ object_of (map root_member (roots_in roots.now))) }
    ensures valid { IfOk result (λ value. is_valid value ≡ true) }
    ensures shallow { IfOk result (λ value. depth_of value ≤ 2) }
{
    let mut members = JsonObject::new(alloc);
    for (root, counts) in roots.iter() {
        members = members.with(alloc, root, counts_value(alloc, *counts)?)?;
    }
    Ok(Json::Object(members))
}

/// The counts as an object.
pub fn counts_value(alloc: Global, counts: Counts) -> Result<Json, OutOfMemory>
    requires notify { counts.notify ≤ most_inputs }
    requires highlight { counts.highlight ≤ most_inputs }
    ensures value { IfOk result (λ value. value ≡ counts_value counts) }
    ensures valid { IfOk result (λ value. is_valid value ≡ true) }
{
    Ok(Json::Object(numbers_of(alloc, counts)?))
}

fn numbers_of(alloc: Global, counts: Counts) -> Result<JsonObject, OutOfMemory>
    requires notify { counts.notify ≤ most_inputs }
    requires highlight { counts.highlight ≤ most_inputs }
    ensures { IfOk result (λ members. members.pairs ≡ numbers_of counts) }
{
    JsonObject::new(alloc)
        .with(alloc, "highlight_count", number(counts.highlight))?
        .with(alloc, "notification_count", number(counts.notify))
}
