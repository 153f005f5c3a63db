/// The actions of a push rule, as JSON, and what they mean together.
pub struct ActionsCase {
    pub actions: &'static str,
    pub notify: bool,
    pub highlight: bool,
    pub sound: Option<&'static str>,
}

/// Texts and tweaks, given once and more than once.
pub fn actions_cases() -> &'static [ActionsCase] {
    &ACTIONS_CASES
}

/// An owner with the predefined rules, whose name in the room is Bob, an event's fields beside its
/// ids, how many members are joined, and the id of the rule that decides, if one does. The sender's
/// power is 50, and the room has no power levels.
pub struct PredefinedCase {
    pub owner: &'static str,
    pub fields: &'static str,
    pub joined: u64,
    pub rule_id: Option<&'static str>,
}

/// Each predefined rule that can decide, decides at least once.
pub fn predefined_cases() -> &'static [PredefinedCase] {
    &PREDEFINED_CASES
}

/// The predefined rules of `@b:example.org` as JSON, a line a rule.
pub struct PrintedRules {
    pub override_: &'static str,
    pub content: &'static str,
    pub underride: &'static str,
}

/// The whole table of predefined rules.
pub fn printed_predefined_rules() -> &'static PrintedRules {
    &PRINTED_RULES
}

#[rattlefmt::skip]
static ACTIONS_CASES: [ActionsCase; 13] = [
    ActionsCase { actions: "[]", notify: false, highlight: false, sound: None },
    ActionsCase { actions: r#"["notify"]"#, notify: true, highlight: false, sound: None },
    ActionsCase { actions: r#"["dont_notify","coalesce"]"#, notify: false, highlight: false, sound: None },
    ActionsCase { actions: r#"[{"set_tweak":"highlight"}]"#, notify: false, highlight: true, sound: None },
    ActionsCase { actions: r#"[{"set_tweak":"highlight","value":true}]"#, notify: false, highlight: true, sound: None },
    ActionsCase { actions: r#"[{"set_tweak":"highlight","value":false}]"#,
        notify: false, highlight: false, sound: None },
    ActionsCase { actions: r#"[{"set_tweak":"highlight","value":null}]"#,
        notify: false, highlight: false, sound: None },
    ActionsCase { actions: r#"["notify",{"set_tweak":"highlight"},{"set_tweak":"highlight","value":false}]"#,
        notify: true, highlight: false, sound: None },
    ActionsCase { actions: r#"[{"set_tweak":"highlight","value":false},{"set_tweak":"highlight"}]"#,
        notify: false, highlight: true, sound: None },
    ActionsCase { actions: r#"[{"set_tweak":"sound","value":"ring"}]"#,
        notify: false, highlight: false, sound: Some("ring") },
    ActionsCase { actions: r#"[{"set_tweak":"sound","value":"ring"},{"set_tweak":"sound","value":1}]"#,
        notify: false, highlight: false, sound: None },
    ActionsCase { actions: r#"[{"set_tweak":"colour","value":"red"}]"#, notify: false, highlight: false, sound: None },
    ActionsCase { actions: r#"["notify",7,null,["notify"],{"value":true},{"set_tweak":7}]"#,
        notify: true, highlight: false, sound: None },
];

#[rattlefmt::skip]
static PREDEFINED_CASES: [PredefinedCase; 22] = [
    PredefinedCase { owner: "@b:example.org",
        fields: r#""type":"m.room.message","content":{"msgtype":"m.notice"}"#,
        joined: 3, rule_id: Some(".m.rule.suppress_notices") },
    PredefinedCase { owner: "@b:example.org",
        fields: r#""type":"m.room.member","content":{"membership":"invite"},"state_key":"@b:example.org""#,
        joined: 3, rule_id: Some(".m.rule.invite_for_me") },
    PredefinedCase { owner: "@cat:example.org",
        fields: r#""type":"m.room.member","content":{"membership":"invite"},"state_key":"@b:example.org""#,
        joined: 3, rule_id: Some(".m.rule.member_event") },
    PredefinedCase { owner: "@b:example.org",
        fields: r#""type":"m.room.message","content":{"m.mentions":{"user_ids":["@b:example.org"]}}"#,
        joined: 3, rule_id: Some(".m.rule.is_user_mention") },
    PredefinedCase { owner: "@cat:example.org",
        fields: r#""type":"m.room.message","content":{"m.mentions":{"user_ids":["@b:example.org"]}}"#,
        joined: 3, rule_id: Some(".m.rule.message") },
    PredefinedCase { owner: "@b:example.org",
        fields: r#""type":"m.room.message","content":{"body":"hi bob!"}"#,
        joined: 3, rule_id: Some(".m.rule.contains_display_name") },
    PredefinedCase { owner: "@b:example.org",
        fields: r#""type":"m.room.message","content":{"body":"hi bob, b and @room","m.mentions":{}}"#,
        joined: 3, rule_id: Some(".m.rule.message") },
    PredefinedCase { owner: "@b:example.org",
        fields: r#""type":"m.room.message","content":{"m.mentions":{"room":true}}"#,
        joined: 3, rule_id: Some(".m.rule.is_room_mention") },
    PredefinedCase { owner: "@b:example.org",
        fields: r#""type":"m.room.message","content":{"body":"@room lunch"}"#,
        joined: 3, rule_id: Some(".m.rule.roomnotif") },
    PredefinedCase { owner: "@b:example.org",
        fields: r#""type":"m.room.tombstone","content":{},"state_key":"""#,
        joined: 3, rule_id: Some(".m.rule.tombstone") },
    PredefinedCase { owner: "@b:example.org",
        fields: r#""type":"m.reaction","content":{}"#,
        joined: 3, rule_id: Some(".m.rule.reaction") },
    PredefinedCase { owner: "@b:example.org",
        fields: r#""type":"m.room.server_acl","content":{},"state_key":"""#,
        joined: 3, rule_id: Some(".m.rule.room.server_acl") },
    PredefinedCase { owner: "@b:example.org",
        fields: r#""type":"m.room.message","content":{"m.relates_to":{"rel_type":"m.replace"}}"#,
        joined: 3, rule_id: Some(".m.rule.suppress_edits") },
    PredefinedCase { owner: "@b:example.org",
        fields: r#""type":"m.room.message","content":{"body":"a B c"}"#,
        joined: 3, rule_id: Some(".m.rule.contains_user_name") },
    PredefinedCase { owner: "@cat:example.org",
        fields: r#""type":"m.room.message","content":{"body":"a B c"}"#,
        joined: 3, rule_id: Some(".m.rule.message") },
    PredefinedCase { owner: "@cat:example.org",
        fields: r#""type":"m.room.message","content":{"body":"the CAT sat"}"#,
        joined: 2, rule_id: Some(".m.rule.contains_user_name") },
    PredefinedCase { owner: "@b:example.org",
        fields: r#""type":"m.call.invite","content":{}"#,
        joined: 3, rule_id: Some(".m.rule.call") },
    PredefinedCase { owner: "@b:example.org",
        fields: r#""type":"m.room.encrypted","content":{}"#,
        joined: 2, rule_id: Some(".m.rule.encrypted_room_one_to_one") },
    PredefinedCase { owner: "@b:example.org",
        fields: r#""type":"m.room.message","content":{}"#,
        joined: 2, rule_id: Some(".m.rule.room_one_to_one") },
    PredefinedCase { owner: "@b:example.org",
        fields: r#""type":"m.room.message","content":{}"#,
        joined: 3, rule_id: Some(".m.rule.message") },
    PredefinedCase { owner: "@b:example.org",
        fields: r#""type":"m.room.encrypted","content":{}"#,
        joined: 3, rule_id: Some(".m.rule.encrypted") },
    PredefinedCase { owner: "@b:example.org",
        fields: r#""type":"m.room.topic","content":{}"#,
        joined: 3, rule_id: None },
];

#[rattlefmt::skip]
static PRINTED_RULES: PrintedRules = PrintedRules {
    override_: r#"{"actions":[],"conditions":[],"default":true,"enabled":false,"rule_id":".m.rule.master"}
{"actions":[],"conditions":[{"key":"content.msgtype","kind":"event_match","pattern":"m.notice"}],"default":true,"enabled":true,"rule_id":".m.rule.suppress_notices"}
{"actions":["notify",{"set_tweak":"sound","value":"default"}],"conditions":[{"key":"type","kind":"event_match","pattern":"m.room.member"},{"key":"content.membership","kind":"event_match","pattern":"invite"},{"key":"state_key","kind":"event_match","pattern":"@b:example.org"}],"default":true,"enabled":true,"rule_id":".m.rule.invite_for_me"}
{"actions":[],"conditions":[{"key":"type","kind":"event_match","pattern":"m.room.member"}],"default":true,"enabled":true,"rule_id":".m.rule.member_event"}
{"actions":["notify",{"set_tweak":"sound","value":"default"},{"set_tweak":"highlight"}],"conditions":[{"key":"content.m\\.mentions.user_ids","kind":"event_property_contains","value":"@b:example.org"}],"default":true,"enabled":true,"rule_id":".m.rule.is_user_mention"}
{"actions":["notify",{"set_tweak":"sound","value":"default"},{"set_tweak":"highlight"}],"conditions":[{"kind":"contains_display_name"}],"default":true,"enabled":true,"rule_id":".m.rule.contains_display_name"}
{"actions":["notify",{"set_tweak":"highlight"}],"conditions":[{"key":"content.m\\.mentions.room","kind":"event_property_is","value":true},{"key":"room","kind":"sender_notification_permission"}],"default":true,"enabled":true,"rule_id":".m.rule.is_room_mention"}
{"actions":["notify",{"set_tweak":"highlight"}],"conditions":[{"key":"content.body","kind":"event_match","pattern":"@room"},{"key":"room","kind":"sender_notification_permission"}],"default":true,"enabled":true,"rule_id":".m.rule.roomnotif"}
{"actions":["notify",{"set_tweak":"highlight"}],"conditions":[{"key":"type","kind":"event_match","pattern":"m.room.tombstone"},{"key":"state_key","kind":"event_match","pattern":""}],"default":true,"enabled":true,"rule_id":".m.rule.tombstone"}
{"actions":[],"conditions":[{"key":"type","kind":"event_match","pattern":"m.reaction"}],"default":true,"enabled":true,"rule_id":".m.rule.reaction"}
{"actions":[],"conditions":[{"key":"type","kind":"event_match","pattern":"m.room.server_acl"},{"key":"state_key","kind":"event_match","pattern":""}],"default":true,"enabled":true,"rule_id":".m.rule.room.server_acl"}
{"actions":[],"conditions":[{"key":"content.m\\.relates_to.rel_type","kind":"event_property_is","value":"m.replace"}],"default":true,"enabled":true,"rule_id":".m.rule.suppress_edits"}
"#,
    content: r#"{"actions":["notify",{"set_tweak":"sound","value":"default"},{"set_tweak":"highlight"}],"default":true,"enabled":true,"pattern":"b","rule_id":".m.rule.contains_user_name"}
"#,
    underride: r#"{"actions":["notify",{"set_tweak":"sound","value":"ring"}],"conditions":[{"key":"type","kind":"event_match","pattern":"m.call.invite"}],"default":true,"enabled":true,"rule_id":".m.rule.call"}
{"actions":["notify",{"set_tweak":"sound","value":"default"}],"conditions":[{"is":"2","kind":"room_member_count"},{"key":"type","kind":"event_match","pattern":"m.room.encrypted"}],"default":true,"enabled":true,"rule_id":".m.rule.encrypted_room_one_to_one"}
{"actions":["notify",{"set_tweak":"sound","value":"default"}],"conditions":[{"is":"2","kind":"room_member_count"},{"key":"type","kind":"event_match","pattern":"m.room.message"}],"default":true,"enabled":true,"rule_id":".m.rule.room_one_to_one"}
{"actions":["notify"],"conditions":[{"key":"type","kind":"event_match","pattern":"m.room.message"}],"default":true,"enabled":true,"rule_id":".m.rule.message"}
{"actions":["notify"],"conditions":[{"key":"type","kind":"event_match","pattern":"m.room.encrypted"}],"default":true,"enabled":true,"rule_id":".m.rule.encrypted"}
"#,
};
