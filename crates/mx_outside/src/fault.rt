/// The outside failed in a call that answers nothing else than success or this.
#[derive(Clone, Copy, Debug, PartialEq, Eq)]
pub struct Failed;
