/// How many entries, and how many inputs among them, a journal has.
#[derive(Clone, Copy, Debug, PartialEq, Eq)]
pub struct Tally {
    /// All entries.
    pub entries: u64,
    /// Those that are inputs.
    pub inputs: u64,
}

/// The tally of a journal, with the disk that is handed back.
#[derive(Debug, Drop)]
pub struct Tallied<D> {
    /// What was counted.
    pub tally: Tally,
    /// The disk.
    pub disk: D,
}
