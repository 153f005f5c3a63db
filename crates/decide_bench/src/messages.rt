/// The contents of the messages. Seven are the mix: a short one, one with a user's name, one with a
/// user's localpart, a mention of the room, a notice, a reply that says whom it mentions, and a
/// long one. The last is judged apart.
#[rattlefmt::skip]
pub const MESSAGES: [&str; 8] = [
    r#"{"body":"lunch is at noon, as ever","msgtype":"m.text"}"#,
    r#"{"body":"User 7: are you there?","msgtype":"m.text"}"#,
    r#"{"body":"I heard that u3 broke the build","msgtype":"m.text"}"#,
    r#"{"body":"@room the build is broken","msgtype":"m.text"}"#,
    r#"{"body":"build 1207 failed","msgtype":"m.notice"}"#,
    r#"{"body":"thanks","m.mentions":{"user_ids":["@u5:example.org"]},"msgtype":"m.text"}"#,
    r#"{"body":"The meeting of the fourteenth began a little late, since the projector had to be found first. We went through the list of last week: the new pantry is painted, the bicycle stands are ordered, and nobody has claimed the umbrella that has been in the hall since spring. Then the longer part, about the move of the archive to the second floor, for which two plans are on the table, and neither was liked by all. We agreed to measure the lift before anything else is said of it.","msgtype":"m.text"}"#,
    r#"{"body":"hello u7","msgtype":"m.text"}"#,
];

/// A text of ASCII alone.
pub const ENGLISH: &str =
    "The meeting of the fourteenth began a little late, since the projector had to be found first.";

/// A text of which most characters are Greek.
pub const GREEK: &str =
    "Η συνάντηση της δεκάτης τετάρτης άρχισε λίγο αργά, αφού έπρεπε πρώτα να βρεθεί ο προβολέας.";
