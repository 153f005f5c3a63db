use mx_json::{JsonObject, JsonText, UserId};

/// A setting of a user's pusher: who sets it, which pusher of the user it is, and how it posts.
#[derive(Drop)]
pub struct PusherSpec {
    /// Whose pusher it is.
    pub user: UserId,
    /// What the gateway knows the device by: 1 to 512 bytes.
    pub pushkey: JsonText,
    /// The app that the device runs: 1 to 64 characters.
    pub app_id: JsonText,
    /// How the pusher posts; `None` takes the user's pusher away.
    pub http: Option<HttpPusher>,
}

/// A pusher that posts over HTTP.
#[derive(Drop)]
pub struct HttpPusher {
    /// The name of the app, for people.
    pub app_display_name: JsonText,
    /// The name of the device, for people.
    pub device_display_name: JsonText,
    /// The language that the user prefers.
    pub lang: JsonText,
    /// The object `data`: the gateway's URL under `url`, and whatever else it is to be told.
    pub details: JsonObject,
    /// Whether pushers of other users with the same app and pushkey stay; `None` where nothing was
    /// said of it, and they go.
    pub append: Option<bool>,
    /// When the pusher was set, in seconds.
    pub ts: u64,
}
