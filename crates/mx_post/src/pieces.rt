//! The pieces that objects are written of: a text that leads to a value, and the value.

ghost use Rattle.std.specs.Prelude.{◌≡◌, ◌≤◌, ◌++◌, true, pos, OnOk};
ghost use Rattle.mx_json.specs.Canonical.{canonical};
ghost use Rattle.mx_json.specs.Json.{is_valid, largest_whole};
ghost use Rattle.mx_json.specs.declared.value.Json.{Text, Truth, Whole};

use mx_json::{Json, JsonText, OutOfMemory};
use std::alloc::Global;

/// Appends what leads to a value, and the value.
pub(crate) fn write_value(
    alloc: Global,
    before: &[u8],
    value: &Json,
    out: &mut Vec<u8>,
) -> Result<(), OutOfMemory>
    requires { is_valid value.now ≡ true }
    ensures { OnOk result (out.new.items ≡ out.old.items ++ (before.now ++ canonical value.now)) }
{
    out.extend_from_slice(before)?;
    value.canonical_into(alloc, out)
}

/// Appends what leads to a text, and the text.
pub(crate) fn write_text(
    alloc: Global,
    before: &[u8],
    text: &str,
    out: &mut Vec<u8>,
) -> Result<(), OutOfMemory>
    ensures { OnOk result
        (out.new.items ≡ out.old.items ++ (before.now ++ canonical (Text text.now))) }
{
    let value = Json::Text(JsonText::read(alloc, text)?);
    write_value(alloc, before, &value, out)
}

/// Appends what leads to a number, and the number.
pub(crate) fn write_number(
    alloc: Global,
    before: &[u8],
    number: u64,
    out: &mut Vec<u8>,
) -> Result<(), OutOfMemory>
    requires { number ≤ largest_whole }
    ensures { OnOk result
        (out.new.items ≡ out.old.items ++ (before.now ++ canonical (Whole (pos number)))) }
{
    write_value(alloc, before, &Json::Whole(number as i64), out)
}

/// Appends what leads to a truth value, and the truth value.
pub(crate) fn write_truth(
    alloc: Global,
    before: &[u8],
    truth: bool,
    out: &mut Vec<u8>,
) -> Result<(), OutOfMemory>
    ensures { OnOk result
        (out.new.items ≡ out.old.items ++ (before.now ++ canonical (Truth truth))) }
{
    write_value(alloc, before, &Json::Truth(truth), out)
}
