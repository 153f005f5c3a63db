ghost use Rattle.std.specs.Prelude.{◌≡◌, true, false, List, [], ◌∷◌, ℕ, ◌++◌, encode_utf8};
ghost use Rattle.std.specs.Prelude.{string_bytes, IfOk, IfSome, OnOk};
ghost use Rattle.std.specs.Option.{option_copied};
ghost use Rattle.mx_json.specs.Json.{is_valid};
ghost use Rattle.mx_json.specs.Path.{is_escapable, segments, look};
ghost use Rattle.mx_json.specs.PathReader.{segments_with};

use crate::memory::OutOfMemory;
use crate::text::JsonText;
use crate::value::Json;
use sqlite_items::Items;
use std::alloc::Global;
use std::marker::Model;

/// A property path: the keys that lead from a value to one inside it.
#[derive(Debug, Drop)]
pub struct Path {
    segments: Items<JsonText>,
}

impl Model for Path {
    ghost use Rattle.std.specs.Prelude.{List, ℕ};

    ghost Value = { List (List ℕ) };

    ghost view = { λ path. path.segments };
}

impl Path {
    /// The path that a text spells (Client-Server API, "Dot-separated property paths"): it is cut
    /// at full stops, `\.` is a full stop and `\\` a backslash within a segment, and any other
    /// backslash stands for itself. The empty text has one empty segment.
    ///
    /// # Errors
    ///
    /// `OutOfMemory` where the allocator has none.
    pub fn read(alloc: Global, text: &str) -> Result<Path, OutOfMemory>
        ensures { IfOk result (λ path. path ≡ segments text.now) }
    {
        let mut reader = PathReader::new(alloc);
        for c in text.chars() {
            reader.take(alloc, c)?;
        }
        reader.finish(alloc)
    }
}

impl Path {
    /// The keys, in the order in which they lead into a value.
    pub fn segments(&self) -> &[JsonText]
        ensures { result.now ≡ self.now }
    {
        self.segments.as_slice()
    }

    /// An equal path of its own.
    ///
    /// # Errors
    ///
    /// `OutOfMemory` where the allocator has none.
    pub fn copied(&self, alloc: Global) -> Result<Path, OutOfMemory>
        ensures { IfOk result (λ path. path ≡ self.now) }
    {
        let mut segments = Items::new(alloc);
        for segment in self.segments.as_slice() {
            segments.push(segment.copied(alloc)?)?;
        }
        Ok(Path { segments })
    }
}

impl Json {
    /// The value that a path leads to in a valid value, from object to member; lists aren't
    /// entered. `None` exactly where a segment names no member.
    pub fn look(&self, path: &Path) -> Option<&Json>
        requires { is_valid self.now ≡ true }
        ensures found { option_copied result ≡ look path.now self.now }
        ensures valid { IfSome result (λ json. is_valid json.now ≡ true) }
    {
        let mut here = self;
        for segment in path.segments.as_slice() {
            here = here.member(segment.as_str())?;
        }
        Some(here)
    }
}

// A text on its way to segments: those that have ended, the one that is open, and whether a
// backslash waits for the next character.
#[derive(Drop)]
struct PathReader {
    ended: Items<JsonText>,
    segment: String,
    backslash_waits: bool,
}

impl PathReader {
    fn new(alloc: Global) -> PathReader
        ensures { (rest : List ℕ) → segments_with result rest ≡ segments rest }
    {
        PathReader {
            ended: Items::new(alloc),
            segment: String::new(alloc),
            backslash_waits: false,
        }
    }

    fn take(&mut self, alloc: Global, c: char) -> Result<(), OutOfMemory>
        ensures { OnOk result ((rest : List ℕ)
            → segments_with self.new rest ≡ segments_with self.old (encode_utf8 c ++ rest)) }
    {
        if self.backslash_waits {
            self.take_escaped(c)
        } else {
            self.take_plain(alloc, c)
        }
    }

    fn take_plain(&mut self, alloc: Global, c: char) -> Result<(), OutOfMemory>
        requires { self.old.backslash_waits ≡ false }
        ensures { OnOk result ((rest : List ℕ)
            → segments_with self.new rest ≡ segments_with self.old (encode_utf8 c ++ rest)) }
    {
        match c {
            '.' => self.end_segment(alloc)?,
            '\\' => self.backslash_waits = true,
            _ => self.segment.push(c)?,
        }
        Ok(())
    }

    fn take_escaped(&mut self, c: char) -> Result<(), OutOfMemory>
        requires { self.old.backslash_waits ≡ true }
        ensures { OnOk result ((rest : List ℕ)
            → segments_with self.new rest ≡ segments_with self.old (encode_utf8 c ++ rest)) }
    {
        self.backslash_waits = false;
        if !is_escapable(c) {
            self.segment.push('\\')?;
        }
        self.segment.push(c)?;
        Ok(())
    }

    fn end_segment(&mut self, alloc: Global) -> Result<(), OutOfMemory>
        ensures ended { OnOk result
            (self.new.ended ≡ self.old.ended ++ string_bytes self.old.segment ∷ []) }
        ensures emptied { OnOk result (string_bytes self.new.segment ≡ []) }
        ensures waits { self.new.backslash_waits ≡ self.old.backslash_waits }
    {
        self.ended
            .push(JsonText::read(alloc, self.segment.as_str())?)?;
        self.segment.clear();
        Ok(())
    }

    fn finish(mut self, alloc: Global) -> Result<Path, OutOfMemory>
        ensures { IfOk result (λ path. path ≡ segments_with self []) }
    {
        if self.backslash_waits {
            self.segment.push('\\')?;
        }
        self.end_segment(alloc)?;
        Ok(Path {
            segments: self.ended,
        })
    }
}

fn is_escapable(c: char) -> bool
    ensures { result ≡ is_escapable c }
{
    matches!(c, '.' | '\\')
}
