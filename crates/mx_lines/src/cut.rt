/// As many bytes as a line may have, its line feed not counted.
pub const LONGEST_LINE: usize = 131_072;

/// What a [`LineCutter`](crate::LineCutter) gives.
#[derive(Clone, Copy, Debug, PartialEq, Eq)]
pub enum Cut<'a> {
    /// The bytes of a line, without its line feed.
    Line(&'a [u8]),
    /// A line of more than [`LONGEST_LINE`] bytes, whose bytes are gone.
    TooLong,
    /// No line yet: more bytes have to be fed.
    More,
}
