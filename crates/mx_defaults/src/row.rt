/// A rule of the table by conditions.
#[derive(Clone, Copy)]
pub struct Row {
    /// The rule's id.
    pub id: &'static str,
    /// Whether it is enabled from the start.
    pub enabled: bool,
    /// What it asks.
    pub asks: &'static [Asked],
    /// What it does.
    pub does: &'static [Does],
}

/// A condition of the table.
#[derive(Clone, Copy)]
pub enum Asked {
    /// `event_match` of a key and a pattern of at most 1,024 bytes.
    Matches(&'static str, &'static str),
    /// `event_match` of a key and the owner's user id.
    MatchesOwner(&'static str),
    /// `event_property_contains` of a key and the owner's user id.
    ContainsOwner(&'static str),
    /// `event_property_is` of a key and a text.
    IsText(&'static str, &'static str),
    /// `event_property_is` of a key and true.
    IsTrue(&'static str),
    /// `room_member_count`.
    Members(&'static str),
    /// `sender_notification_permission` for the whole room.
    MayNotifyRoom,
    /// `contains_display_name`.
    NamesOwner,
}

/// An action of the table.
#[derive(Clone, Copy)]
pub enum Does {
    /// `notify`.
    Notify,
    /// The tweak `sound` with this value.
    Sound(&'static str),
    /// The tweak `highlight` with no value.
    Highlight,
}
