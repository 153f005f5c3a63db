/// A position that failed, and the moment of the failure in milliseconds.
#[derive(Clone, Copy, Debug)]
pub(crate) struct Failure {
    pub position: u64,
    pub moment: u64,
}

impl Failure {
    ghost use Rattle.std.specs.Prelude.{◌≡◌, Some};
    ghost use Rattle.std.specs.Option.{option_or};
    ghost use Rattle.mx_pusher.specs.Track.{first_kept};

    /// The first failure of a position that failed now, where `kept` is that of the last position
    /// that failed before.
    pub fn first(kept: Option<Failure>, position: u64, now: u64) -> Failure
        ensures position { result.position ≡ position }
        ensures moment { Some result.moment ≡ option_or (first_kept kept position) (Some now) }
    {
        match kept {
            Some(failure) if failure.position == position => failure,
            _ => Failure {
                position,
                moment: now,
            },
        }
    }

    /// When the position failed first, if it is that of `kept`.
    pub fn since(kept: Option<Failure>, position: u64) -> Option<u64>
        ensures { result ≡ first_kept kept position }
    {
        match kept {
            Some(failure) if failure.position == position => Some(failure.moment),
            _ => None,
        }
    }
}
