use crate::row::{Asked, Does, Row};

const SILENCE: [Does; 0] = [];

const NOTICE: [Does; 1] = [Does::Notify];

const WITH_SOUND: [Does; 2] = [Does::Notify, Does::Sound("default")];

const WITH_HIGHLIGHT: [Does; 2] = [Does::Notify, Does::Highlight];

const WITH_BOTH: [Does; 3] = [Does::Notify, Does::Sound("default"), Does::Highlight];

const RINGING: [Does; 2] = [Does::Notify, Does::Sound("ring")];

/// The override rules, in order of importance.
#[rattlefmt::skip]
pub const OVERRIDE: [Row; 12] = [
    Row { id: ".m.rule.master", enabled: false, asks: &[], does: &SILENCE },
    Row { id: ".m.rule.suppress_notices", enabled: true,
        asks: &[Asked::Matches("content.msgtype", "m.notice")], does: &SILENCE },
    Row { id: ".m.rule.invite_for_me", enabled: true, asks: &[Asked::Matches("type", "m.room.member"), Asked::Matches("content.membership", "invite"), Asked::MatchesOwner("state_key")], does: &WITH_SOUND },
    Row { id: ".m.rule.member_event", enabled: true, asks: &[Asked::Matches("type", "m.room.member")], does: &SILENCE },
    Row { id: ".m.rule.is_user_mention", enabled: true,
        asks: &[Asked::ContainsOwner("content.m\\.mentions.user_ids")], does: &WITH_BOTH },
    Row { id: ".m.rule.contains_display_name", enabled: true, asks: &[Asked::NamesOwner], does: &WITH_BOTH },
    Row { id: ".m.rule.is_room_mention", enabled: true, asks: &[Asked::IsTrue("content.m\\.mentions.room"), Asked::MayNotifyRoom], does: &WITH_HIGHLIGHT },
    Row { id: ".m.rule.roomnotif", enabled: true,
        asks: &[Asked::Matches("content.body", "@room"), Asked::MayNotifyRoom], does: &WITH_HIGHLIGHT },
    Row { id: ".m.rule.tombstone", enabled: true,
        asks: &[Asked::Matches("type", "m.room.tombstone"), Asked::Matches("state_key", "")], does: &WITH_HIGHLIGHT },
    Row { id: ".m.rule.reaction", enabled: true, asks: &[Asked::Matches("type", "m.reaction")], does: &SILENCE },
    Row { id: ".m.rule.room.server_acl", enabled: true,
        asks: &[Asked::Matches("type", "m.room.server_acl"), Asked::Matches("state_key", "")], does: &SILENCE },
    Row { id: ".m.rule.suppress_edits", enabled: true,
        asks: &[Asked::IsText("content.m\\.relates_to.rel_type", "m.replace")], does: &SILENCE },
];

/// The underride rules, in order of importance.
#[rattlefmt::skip]
pub const UNDERRIDE: [Row; 5] = [
    Row { id: ".m.rule.call", enabled: true, asks: &[Asked::Matches("type", "m.call.invite")], does: &RINGING },
    Row { id: ".m.rule.encrypted_room_one_to_one", enabled: true,
        asks: &[Asked::Members("2"), Asked::Matches("type", "m.room.encrypted")], does: &WITH_SOUND },
    Row { id: ".m.rule.room_one_to_one", enabled: true, asks: &[Asked::Members("2"), Asked::Matches("type", "m.room.message")], does: &WITH_SOUND },
    Row { id: ".m.rule.message", enabled: true, asks: &[Asked::Matches("type", "m.room.message")], does: &NOTICE },
    Row { id: ".m.rule.encrypted", enabled: true, asks: &[Asked::Matches("type", "m.room.encrypted")], does: &NOTICE },
];

/// The one content rule: its pattern is the owner's localpart.
pub const CONTENT_ID: &str = ".m.rule.contains_user_name";

/// What the content rule does.
pub const CONTENT_DOES: [Does; 3] = WITH_BOTH;
