ghost use Rattle.std.specs.Prelude.{◌≡◌, ◌&&◌, ◌||◌, None, Some};
ghost use Rattle.mx_wire.specs.Blocks.{place_after, ends_full, ends_empty};

/// Where in a line one stands.
#[derive(Clone, Copy, Debug, PartialEq, Eq)]
pub(crate) enum InLine {
    /// No byte of the line came yet.
    Start,
    /// A carriage return came, and nothing else.
    BehindCr,
    /// Anything else came.
    Inside,
}

/// Where in a line one stands behind this byte.
pub(crate) fn place_after(place: InLine, byte: u8) -> InLine
    ensures { result ≡ place_after place byte }
{
    match (place, byte) {
        (_, b'\n') => InLine::Start,
        (InLine::Start, b'\r') => InLine::BehindCr,
        _ => InLine::Inside,
    }
}

/// Whether the byte ends a line that isn't empty.
pub(crate) fn ends_full(place: InLine, byte: u8) -> bool
    ensures { result ≡ ends_full place byte }
{
    matches!(place, InLine::Inside) && byte == b'\n'
}

/// Whether the byte ends a line that is empty.
pub(crate) fn ends_empty(place: InLine, byte: u8) -> bool
    ensures { result ≡ ends_empty place byte }
{
    !matches!(place, InLine::Inside) && byte == b'\n'
}
