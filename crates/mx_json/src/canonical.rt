ghost use Rattle.std.specs.Prelude.{◌≡◌, ◌≤◌, true, ℕ, ◌++◌, OnOk, OnErr};
ghost use Rattle.mx_json.specs.Canonical.{canonical};
ghost use Rattle.mx_json.specs.Json.{depth_of, is_valid};
ghost use Rattle.mx_json.specs.Reading.{read_json};
ghost use Rattle.mx_json.specs.Tokens.{tokens_of};

use crate::memory::OutOfMemory;
use crate::value::{Json, JsonList, JsonObject};
use json::Writer;
use std::alloc::{AllocError, Global};
use std::mem;

impl Json {
    /// Appends the canonical text of a valid value (the Matrix specification's appendix "Canonical
    /// JSON"): UTF-8 with no white space, the keys of each object by code point, and no escape
    /// beyond those that a text needs. It is read back as the value, so no two values share one.
    /// After an error `out` is as before.
    ///
    /// # Errors
    ///
    /// `OutOfMemory` where the allocator has none.
    pub fn canonical_into(&self, alloc: Global, out: &mut Vec<u8>) -> Result<(), OutOfMemory>
        requires { is_valid self.now ≡ true }
        ensures ok { OnOk result (out.new.items ≡ out.old.items ++ canonical self.now) }
        ensures err { OnErr result (out.new.items ≡ out.old.items) }
        ensures reads_back { (deepest : ℕ) → depth_of self.now ≤ deepest
            → read_json (canonical self.now) deepest ≡ Ok self.now }
    {
        let length = out.len();
        let mut writer = Writer::new(mem::replace(out, Vec::new(alloc)));
        let written = write_value(&mut writer, self);
        *out = writer.into_inner();
        match written {
            Ok(()) => Ok(()),
            Err(error) => {
                out.truncate(length);
                Err(error.into())
            }
        }
    }
}

#[cycle(write)]
fn write_value(writer: &mut Writer, value: &Json) -> Result<(), AllocError>
    ensures before { writer.new.before ≡ writer.old.before }
    ensures tokens { OnOk result (writer.new.tokens ≡ writer.old.tokens ++ tokens_of value.now) }
{
    match value {
        Json::Null => writer.null(),
        Json::Truth(truth) => writer.boolean(*truth),
        Json::Whole(number) => writer.i64(*number),
        Json::Text(text) => writer.string(text.as_str()),
        Json::List(list) => write_list(writer, list),
        Json::Object(object) => write_object(writer, object),
    }
}

#[cycle(write)]
fn write_list(writer: &mut Writer, list: &JsonList) -> Result<(), AllocError>
    ensures before { writer.new.before ≡ writer.old.before }
    ensures tokens { OnOk result
        (writer.new.tokens ≡ writer.old.tokens ++ tokens_of (Json.List list.now)) }
{
    writer.begin_array()?;
    for item in list.items.as_slice() {
        write_value(writer, item)?;
    }
    writer.end_array()
}

#[cycle(write)]
fn write_object(writer: &mut Writer, object: &JsonObject) -> Result<(), AllocError>
    ensures before { writer.new.before ≡ writer.old.before }
    ensures tokens { OnOk result
        (writer.new.tokens ≡ writer.old.tokens ++ tokens_of (Json.Object object.now)) }
{
    writer.begin_object()?;
    for (key, value) in object.pairs.as_slice() {
        writer.key(key.as_str())?;
        write_value(writer, value)?;
    }
    writer.end_object()
}
