ghost use Rattle.std.specs.Prelude.{◌≡◌};
ghost use Rattle.mx_records.specs.FieldNames.{field_of_part, name_of};

use mx_rule::Part;
use std::fmt;

/// A field of a command: `cmd`, and each name of the table of commands.
#[derive(Clone, Copy, Debug, PartialEq, Eq)]
pub enum FieldName {
    /// `cmd`, the word of the command.
    Cmd,
    /// `event.event_id`.
    EventEventId,
    /// `event.room_id`.
    EventRoomId,
    /// `event.sender`.
    EventSender,
    /// `event.type`.
    EventKind,
    /// `event.content`.
    EventContent,
    /// `event.state_key`.
    EventStateKey,
    /// `user`.
    User,
    /// `kind`, of a rule or of a pusher.
    Kind,
    /// `rule_id`.
    RuleId,
    /// `actions`.
    Actions,
    /// `conditions`.
    Conditions,
    /// `pattern`.
    Pattern,
    /// `before`.
    Before,
    /// `after`.
    After,
    /// `enabled`.
    Enabled,
    /// `room_id`.
    RoomId,
    /// `event_id`.
    EventId,
    /// `type`, of a receipt.
    ReceiptKind,
    /// `thread_id`.
    ThreadId,
    /// `pushkey`.
    Pushkey,
    /// `app_id`.
    AppId,
    /// `app_display_name`.
    AppDisplayName,
    /// `device_display_name`.
    DeviceDisplayName,
    /// `lang`.
    Lang,
    /// `data`.
    Data,
    /// `data.url`.
    DataUrl,
    /// `data.format`.
    DataFormat,
    /// `append`.
    Append,
    /// `ts`.
    Ts,
    /// `threads`.
    Threads,
    /// `units`.
    Units,
}

impl FieldName {
    /// The field of a command that a part of an edit stands in.
    pub fn of_part(part: Part) -> FieldName
        ensures { result ≡ field_of_part part }
    {
        match part {
            Part::RuleId => FieldName::RuleId,
            Part::Pattern => FieldName::Pattern,
            Part::Conditions => FieldName::Conditions,
            Part::Actions => FieldName::Actions,
        }
    }

    /// The field's name as an object spells it, with a full stop between the names of an object and
    /// of its member.
    pub fn name(&self) -> &'static str
        ensures { result.now ≡ name_of self.now }
    {
        match self {
            FieldName::Cmd => "cmd",
            FieldName::EventEventId => "event.event_id",
            FieldName::EventRoomId => "event.room_id",
            FieldName::EventSender => "event.sender",
            FieldName::EventKind => "event.type",
            FieldName::EventContent => "event.content",
            FieldName::EventStateKey => "event.state_key",
            FieldName::User => "user",
            FieldName::Kind => "kind",
            FieldName::RuleId => "rule_id",
            FieldName::Actions => "actions",
            FieldName::Conditions => "conditions",
            FieldName::Pattern => "pattern",
            FieldName::Before => "before",
            FieldName::After => "after",
            FieldName::Enabled => "enabled",
            FieldName::RoomId => "room_id",
            FieldName::EventId => "event_id",
            FieldName::ReceiptKind => "type",
            FieldName::ThreadId => "thread_id",
            FieldName::Pushkey => "pushkey",
            FieldName::AppId => "app_id",
            FieldName::AppDisplayName => "app_display_name",
            FieldName::DeviceDisplayName => "device_display_name",
            FieldName::Lang => "lang",
            FieldName::Data => "data",
            FieldName::DataUrl => "data.url",
            FieldName::DataFormat => "data.format",
            FieldName::Append => "append",
            FieldName::Ts => "ts",
            FieldName::Threads => "threads",
            FieldName::Units => "units",
        }
    }
}

impl fmt::Display for FieldName {
    fn fmt<W: fmt::Write>(&self, f: &mut fmt::Formatter<W>) -> fmt::Result {
        f.write_str(self.name())
    }
}
