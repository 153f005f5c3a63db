//! A pusher's `data` as a gateway is sent it: without its URL.

ghost use Rattle.std.specs.Prelude.{◌≡◌, ◌∷◌, ◌++◌, true, List, ℕ, OnOk, IfOk};
ghost use Rattle.std.specs.List.{list_all};
ghost use Rattle.mx_json.specs.declared.value.Json.{Json as Value};
ghost use Rattle.mx_json.specs.Canonical.{canonical};
ghost use Rattle.mx_json.specs.Json.{is_valid};
ghost use Rattle.mx_post.specs.Pieces.{member_text, sent_text, separator};
ghost use Rattle.mx_post.specs.Post.{details_sent, is_sent};

use crate::pieces::{write_text, write_value};
use mx_json::{Json, JsonObject, JsonText, OutOfMemory};
use std::alloc::Global;

/// Appends the object without its URL.
pub(crate) fn write_details(
    alloc: Global,
    details: &JsonObject,
    out: &mut Vec<u8>,
) -> Result<(), OutOfMemory>
    requires { is_valid (Json.Object details.now) ≡ true }
    ensures { OnOk result (out.new.items ≡ out.old.items ++ canonical (details_sent details.now)) }
{
    out.push(b'{')?;
    write_sent(alloc, details.pairs.as_slice(), out)?;
    out.push(b'}')?;
    Ok(())
}

// Appends the members that are sent.
fn write_sent(
    alloc: Global,
    pairs: &[(JsonText, Json)],
    out: &mut Vec<u8>,
) -> Result<(), OutOfMemory>
    requires { list_all (λ pair. is_valid pair.1) pairs.now ≡ true }
    ensures { OnOk result (out.new.items ≡ out.old.items ++ sent_text true pairs.now) }
{
    let mut first = true;
    for pair in pairs {
        first = write_if_sent(alloc, first, pair, out)?;
    }
    Ok(())
}

// Appends the member, if it is sent. Answers whether what is sent next is the first.
fn write_if_sent(
    alloc: Global,
    first: bool,
    pair: &(JsonText, Json),
    out: &mut Vec<u8>,
) -> Result<bool, OutOfMemory>
    requires { is_valid pair.now.1 ≡ true }
    ensures { IfOk result (λ still_first. (pairs : List (List ℕ × Value))
        → out.new.items ++ sent_text still_first pairs
        ≡ out.old.items ++ sent_text first (pair.now ∷ pairs)) }
{
    if !is_sent(pair) {
        return Ok(first);
    }
    write_separator(first, out)?;
    write_member(alloc, pair, out)?;
    Ok(false)
}

fn is_sent(pair: &(JsonText, Json)) -> bool
    ensures { result ≡ is_sent pair.now }
{
    pair.0.as_str() != "url"
}

fn write_separator(first: bool, out: &mut Vec<u8>) -> Result<(), OutOfMemory>
    ensures { OnOk result (out.new.items ≡ out.old.items ++ separator first) }
{
    if !first {
        out.push(b',')?;
    }
    Ok(())
}

fn write_member(
    alloc: Global,
    pair: &(JsonText, Json),
    out: &mut Vec<u8>,
) -> Result<(), OutOfMemory>
    requires { is_valid pair.now.1 ≡ true }
    ensures { OnOk result (out.new.items ≡ out.old.items ++ member_text pair.now) }
{
    write_text(alloc, b"", pair.0.as_str(), out)?;
    write_value(alloc, b":", &pair.1, out)
}
