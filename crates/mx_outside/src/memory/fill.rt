/// Which image a crash is to leave of a disk in memory.
#[derive(Clone, Copy, Debug, PartialEq, Eq)]
pub enum Fill {
    /// What a read gave after the last sync, or at the start where there was none.
    Old,
    /// What a read gives now.
    New,
    /// What a read gives now, with 0 in each byte that was written since the last sync.
    Zeros,
    /// The same with 1 in each of them.
    Ones,
}
