ghost use Rattle.std.specs.Prelude.{◌<◌, ◌≤◌, ◌^◌};

/// The digits of a size line that came so far.
#[derive(Clone, Copy, Debug, PartialEq, Eq)]
pub(crate) struct Size {
    /// How many, at most 8.
    pub(crate) digits: u8,
    /// What they say.
    pub(crate) value: u32,
    ghost few: { digits ≤ 8 },
    ghost fits: { value < 16 ^ digits },
}
