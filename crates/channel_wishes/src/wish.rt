// What a channel is opened as.
use channel_face::Limits;

/// Where a channel keeps its events.
#[derive(Drop)]
pub enum ChannelPlace {
    /// In memory.
    Memory,
    /// In the folder of this path, whose disk the host hands out.
    Folder(String),
}

/// A channel that a run wants.
#[derive(Drop)]
pub struct ChannelWish {
    /// Where it keeps its events.
    pub place: ChannelPlace,
    /// Its limits.
    pub limits: Limits,
    /// How many workers use it, each with a pass of its own.
    pub users: u32,
}
