ghost use Rattle.std.specs.Prelude.{◌≡◌, ◌<◌, ◌^◌, nat_lt, IfSome, slice_get};
ghost use Rattle.track_store.specs.Frames.{bytes_of};
ghost use Rattle.track_store.specs.Kept.{bytes_in};
ghost use Rattle.track_store.specs.State.{states_of};
ghost use Rattle.eviction.specs.Evicting.{is_within_quota, has_room};

use track_store::{FrameStore, Tracks};

/// What an append needs of a source buffer.
#[derive(Clone, Copy)]
pub struct Need {
    /// How many bytes are about to be appended.
    pub new_bytes: u64,
    /// How many bytes a source buffer may hold.
    pub quota: u64,
}

impl Need {
    /// Whether the new bytes have room beside so many others.
    fn is_within_quota(&self, used_bytes: u128) -> bool
        ensures { result ≡ is_within_quota used_bytes self.now.new_bytes self.now.quota }
    {
        self.new_bytes <= self.quota && used_bytes <= u128::from(self.quota - self.new_bytes)
    }
}

/// The bytes that are stored in the track buffer at a place, where there is one.
fn bytes_at<S: FrameStore>(tracks: &Tracks<S>, i: usize) -> u128
    ensures value { IfSome (slice_get (states_of S.frames tracks.now.items) i)
        (λ t. result ≡ bytes_of t.frames) }
    ensures small { result < 2 ^ 62 }
{
    match tracks.get(i) {
        Some(track) => u128::from(track.store.used()),
        None => 0,
    }
}

/// The bytes that are stored in all track buffers, however many these are.
fn bytes_stored<S: FrameStore>(tracks: &Tracks<S>) -> u128
    ensures { result ≡ bytes_in (states_of S.frames tracks.now.items) }
{
    let mut total = 0;
    for i in 0..tracks.len() {
        total += bytes_at(tracks, i);
    }
    total
}

/// Whether fewer bytes are stored than a source buffer may hold: then it is not full.
pub fn is_below_quota<S: FrameStore>(tracks: &Tracks<S>, quota: u64) -> bool
    ensures { result ≡ nat_lt (bytes_in (states_of S.frames tracks.now.items)) quota }
{
    bytes_stored(tracks) < u128::from(quota)
}

/// Whether the new bytes have room beside those that are stored.
pub fn has_room<S: FrameStore>(tracks: &Tracks<S>, need: &Need) -> bool
    ensures { result ≡ has_room need.now.new_bytes need.now.quota
        (states_of S.frames tracks.now.items) }
{
    need.is_within_quota(bytes_stored(tracks))
}
