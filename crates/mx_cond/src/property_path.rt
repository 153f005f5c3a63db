ghost use Rattle.std.specs.Prelude.{◌≡◌, [], ◌∷◌, option_and_then, IfOk, IfSome, IsAscii, IsTrue};
ghost use Rattle.std.specs.Option.{option_copied};
ghost use Rattle.mx_json.specs.Json.{text_of};
ghost use Rattle.mx_json.specs.Path.{look};
ghost use Rattle.mx_event.specs.Property.{path_of};
ghost use Rattle.mx_cond.specs.Body.{body_path, is_body};

use mx_event::{Event, Property};
use mx_json::{Json, OutOfMemory, Path};
use std::alloc::Global;
use std::marker::Model;

/// The path at which a condition looks for a value.
#[derive(Drop)]
pub struct PropertyPath {
    path: Path,
    // The property that it is the path of, where an event finds that at once.
    property: Option<Property>,
    // Whether it is that of a message's body, decided once.
    at_body: bool,
}

// Contracts see the path.
impl Model for PropertyPath {
    ghost use Rattle.std.specs.Prelude.{◌≡◌, List, ℕ, IfSome};
    ghost use Rattle.mx_event.specs.Property.{path_of};
    ghost use Rattle.mx_cond.specs.Body.{is_body};

    ghost Value = { List (List ℕ) };

    ghost view = { λ p. p.path };

    ghost invariant = { λ p. (p.at_body ≡ is_body p.path)
        × IfSome p.property (λ property. path_of property ≡ p.path) };
}

impl PropertyPath {
    pub fn new(path: Path) -> PropertyPath
        ensures { result ≡ path }
    {
        let at_body = is_body(&path);
        let property = property_at(&path);
        PropertyPath {
            path,
            property,
            at_body,
        }
    }

    /// An equal path of its own.
    pub fn copied(&self, alloc: Global) -> Result<PropertyPath, OutOfMemory>
        ensures { IfOk result (λ path. path ≡ self.now) }
    {
        let path = self.path.copied(alloc)?;
        Ok(PropertyPath {
            path,
            property: self.property,
            at_body: self.at_body,
        })
    }

    /// Whether it is `content.body`.
    pub fn is_body(&self) -> bool
        ensures { result ≡ is_body self.now }
    {
        self.at_body
    }

    /// Whether the text at the path is known to be ASCII, without a look at it.
    pub fn is_ascii(&self, event: &Event) -> bool
        ensures { IsTrue result → IfSome (option_and_then text_of (look self.now event.now))
            (λ text. IsAscii text) }
    {
        match self.property {
            Some(property) => is_ascii(property, event),
            None => false,
        }
    }

    /// The value at the path; `None` where there is none.
    pub fn value<'a>(&self, event: &'a Event) -> Option<&'a Json>
        ensures { option_copied result ≡ look self.now event.now }
    {
        match self.property {
            Some(property) => event.property(property),
            None => event.json().look(&self.path),
        }
    }

    /// The text at the path; `None` where there is no value, or one that isn't a text.
    pub fn text<'a>(&self, event: &'a Event) -> Option<&'a str>
        ensures { option_copied result ≡ option_and_then text_of (look self.now event.now) }
    {
        self.value(event)?.as_text()
    }
}

// The property that an event finds at once, of which this is the path.
fn property_at(path: &Path) -> Option<Property>
    ensures { IfSome result (λ property. path_of property ≡ path.now) }
{
    match path.segments() {
        [key] => property_of_event(key.as_str()),
        [outer, key] => property_of_content(outer.as_str(), key.as_str()),
        [outer, inner, key] => property_within(outer.as_str(), inner.as_str(), key.as_str()),
        _ => None,
    }
}

fn is_ascii(property: Property, event: &Event) -> bool
    ensures { IsTrue result → IfSome (option_and_then text_of (look (path_of property) event.now))
        (λ text. IsAscii text) }
{
    match property {
        Property::Kind => event.has_ascii_kind(),
        _ => false,
    }
}

fn property_of_event(key: &str) -> Option<Property>
    ensures { IfSome result (λ property. path_of property ≡ key.now ∷ []) }
{
    match key {
        "type" => Some(Property::Kind),
        "state_key" => Some(Property::StateKey),
        _ => None,
    }
}

fn property_of_content(outer: &str, key: &str) -> Option<Property>
    ensures { IfSome result (λ property. path_of property ≡ outer.now ∷ key.now ∷ []) }
{
    match (outer, key) {
        ("content", "body") => Some(Property::Body),
        ("content", "msgtype") => Some(Property::MessageType),
        ("content", "membership") => Some(Property::Membership),
        _ => None,
    }
}

fn property_within(outer: &str, inner: &str, key: &str) -> Option<Property>
    ensures { IfSome result
        (λ property. path_of property ≡ outer.now ∷ inner.now ∷ key.now ∷ []) }
{
    match (outer, inner, key) {
        ("content", "m.mentions", "user_ids") => Some(Property::MentionedUsers),
        ("content", "m.mentions", "room") => Some(Property::MentionsRoom),
        ("content", "m.relates_to", "rel_type") => Some(Property::RelationType),
        _ => None,
    }
}

fn is_body(path: &Path) -> bool
    ensures { result ≡ is_body path.now }
{
    match path.segments() {
        [first, second] => first.as_str() == "content" && second.as_str() == "body",
        _ => false,
    }
}

/// The body of the event's message, `content.body`; `None` exactly where that isn't a text.
pub fn body_of(event: &Event) -> Option<&str>
    ensures { option_copied result ≡ option_and_then text_of (look body_path event.now) }
{
    event.body()
}
