use crate::actions::Actions;
use crate::list::RuleList;

/// A change of the rules of a kind, which takes no memory when it is made. One at a place past the
/// last rule changes nothing.
#[derive(Drop)]
pub enum ListChange {
    /// These rules stand in place of all.
    Replace(RuleList),
    /// The rule at this place goes.
    Remove(usize),
    /// The rule at this place is enabled or disabled.
    Enable(usize, bool),
    /// The rule at this place does this from now on.
    SetActions(usize, Actions),
}
