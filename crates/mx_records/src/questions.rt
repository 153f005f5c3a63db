ghost use Rattle.std.specs.Prelude.{◌≡◌, ◌≤◌, ℕ, List, slice_get};
ghost use Rattle.std.specs.Option.{option_copied};
ghost use Rattle.mx_records.specs.Counting.{counts_of, room_counts_of, threads_of};
ghost use Rattle.mx_records.specs.History.{History};
ghost use Rattle.mx_records.specs.Refusing.{most_inputs};
ghost use Rattle.mx_records.specs.Rules.{own_rules};
ghost use Rattle.mx_records.specs.Snapshot.{Snapshot, snapshot_of};

use crate::Counts;
use mx_json::{RoomId, UserId};
use mx_rows::ThreadKey;
use mx_rule::Ruleset;

/// What a state that stands for a history can be asked. No question takes memory or changes the
/// state.
pub trait Questions {
    /// The name of the homeserver whose users are local.
    ghost server: { Self → List ℕ };

    /// What the state knows of its history.
    ghost snapshot: { Self → Snapshot };

    /// How many events of the thread are unread for the user.
    fn counts(&self, user: &UserId, room: &RoomId, thread: &ThreadKey) -> Counts
        ensures exact { (h : History) → snapshot self.now ≡ snapshot_of (server self.now) h
            → result ≡ counts_of (server self.now) h user.now room.now thread.now }
        ensures notify_in_range { result.notify ≤ most_inputs }
        ensures highlight_in_range { result.highlight ≤ most_inputs };

    /// The threads of the room that have events which are unread for the user, in the order of the
    /// first of each; `k` counts from 0, and `None` comes exactly past the last.
    fn thread_at(&self, user: &UserId, room: &RoomId, k: usize) -> Option<&ThreadKey>
        ensures { (h : History) → snapshot self.now ≡ snapshot_of (server self.now) h
            → option_copied result
            ≡ slice_get (threads_of (server self.now) h user.now room.now) k };

    /// How many events of the room are unread for the user, whatever their threads.
    fn room_counts(&self, user: &UserId, room: &RoomId) -> Counts
        ensures exact { (h : History) → snapshot self.now ≡ snapshot_of (server self.now) h
            → result ≡ room_counts_of (server self.now) h user.now room.now }
        ensures notify_in_range { result.notify ≤ most_inputs }
        ensures highlight_in_range { result.highlight ≤ most_inputs };

    /// The push rules of a user who edited them; `None` exactly for any other user, whose rules are
    /// the predefined ones.
    fn rules(&self, user: &UserId) -> Option<&Ruleset>
        ensures { (h : History) → snapshot self.now ≡ snapshot_of (server self.now) h
            → option_copied result ≡ own_rules (server self.now) h user.now };
}
