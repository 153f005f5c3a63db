ghost use Rattle.std.specs.Prelude.{◌≡◌, true, IsAscii};
ghost use Rattle.mx_wire.specs.Target.{is_target};

use crate::error::TargetError;
use std::alloc::Global;
use std::marker::Model;
use url::{ParseError, Position, Url};

/// The URL of a push gateway, which contracts see as the parts of a URL.
#[derive(Drop)]
pub struct Target {
    url: Url,
}

impl Model for Target {
    ghost use Rattle.std.specs.Prelude.{◌≡◌, true};
    ghost use Rattle.url.specs.Parts.{Parts, parts_code};
    ghost use Rattle.mx_wire.specs.Target.{is_target};

    ghost Value = { Parts };

    ghost coded = { parts_code };

    ghost view = { λ t. t.url };

    ghost invariant = { λ t. is_target t.url ≡ true };
}

impl Target {
    ghost use Rattle.mx_json.specs.Gives.{Gives};
    ghost use Rattle.url.specs.Parts.{serialize, IsValid};
    ghost use Rattle.mx_wire.specs.Target.{authority_of, is_target, target_in};

    /// Reads the URL of a push gateway, by the URL Standard: its scheme is `http` or `https`, its
    /// path is `/_matrix/push/v1/notify`, and it has no user name, password or fragment.
    ///
    /// # Errors
    ///
    /// `BadUrl` exactly where the text isn't such a URL; `OutOfMemory` where the allocator has
    /// none, or the URL would have 4 GB.
    pub fn read(alloc: Global, text: &str) -> Result<Target, TargetError>
        ensures { Gives TargetError.OutOfMemory result (target_in text.now) }
    {
        match Url::parse(alloc, text) {
            Ok(url) if is_target(&url) => Ok(Target { url }),
            Ok(_) => Err(TargetError::BadUrl),
            Err(ParseError::OutOfMemory | ParseError::Overflow) => Err(TargetError::OutOfMemory),
            Err(_) => Err(TargetError::BadUrl),
        }
    }

    /// The URL as the URL Standard writes it.
    pub fn text(&self) -> &str
        ensures text { result.now ≡ serialize self.now }
        ensures ascii { IsAscii result.now }
        ensures valid { IsValid self.now }
        ensures target { is_target self.now ≡ true }
    {
        self.url.as_str()
    }

    /// The host, and `:` and the port where the text has one.
    pub fn authority(&self) -> &str
        ensures text { result.now ≡ authority_of self.now }
        ensures ascii { IsAscii result.now }
    {
        self.url.slice(Position::BeforeHost, Position::AfterPort)
    }
}

// Whether notifications can be posted to this URL.
fn is_target(url: &Url) -> bool
    ensures { result ≡ is_target url.now }
{
    matches!(url.scheme(), "http" | "https")
        && url.path() == "/_matrix/push/v1/notify"
        && url.username().is_empty()
        && url.password().is_none()
        && url.fragment().is_none()
}
