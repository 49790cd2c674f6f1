// A picture of a world: all that it has, as rows of tables. An event is a letter.

/// A connection, and the serial of a request on it.
pub type Tag = (u64, u32);

/// What an entry of takes names: an output place of its node, or an acknowledgement of the given node.
pub type Name = (Option<u32>, u64);

/// A channel: whose, whether it is broken, the nodes to which its sinks point, the letters that have to reach it, and the numbers
/// of the events that are left.
#[derive(Drop)]
pub struct ChannelRow {
    pub node: u32,
    pub channel: u32,
    pub broken: bool,
    pub later: Vec<u32>,
    pub last: bool,
    pub required: Vec<u64>,
    pub left: Vec<u64>,
}

/// An entry among the commits of a channel: the letters that it puts, or the numbers that it takes.
#[derive(Drop)]
pub struct EntryRow {
    pub node: u32,
    pub channel: u32,
    pub place: u64,
    pub settled: bool,
    pub takes: bool,
    pub values: Vec<u64>,
    pub name: Option<Name>,
}

/// A work by its number, or an acknowledgement by its place. An entry is named by channel and place.
#[derive(Drop)]
pub struct WorkRow {
    pub node: u32,
    pub number: u64,
    pub is_ack: bool,
    pub batch: Vec<u64>,
    pub made: Vec<u64>,
    pub tag: Tag,
    pub entries: Vec<(u32, u64)>,
}

/// An attempt: whether its take is open, and the numbers that this took. In a broken channel nobody sees these.
#[derive(Drop)]
pub struct AttemptRow {
    pub node: u32,
    pub number: u64,
    pub channel: u32,
    pub txn: u64,
    pub open: bool,
    pub took: Option<Vec<u64>>,
    pub events: Vec<u64>,
    pub tag: Option<Tag>,
    pub delivery: Option<Name>,
}

/// A request for a node, by its place among what was sent.
#[derive(Drop)]
pub struct RequestRow {
    pub packet: u64,
    pub node: u32,
    pub tag: Tag,
    pub batch: Vec<u64>,
}

/// An OK by the acknowledgement of a node at this place.
#[derive(Drop)]
pub struct ReplyRow {
    pub packet: u64,
    pub node: u32,
    pub tag: Tag,
    pub place: u64,
}

/// What the last sinks of a node took at one time.
#[derive(Drop)]
pub struct OutputRow {
    pub node: u32,
    pub place: u64,
    pub events: Vec<u64>,
}

/// All tables.
#[derive(Drop)]
pub struct Picture {
    pub channels: Vec<ChannelRow>,
    pub entries: Vec<EntryRow>,
    pub works: Vec<WorkRow>,
    pub attempts: Vec<AttemptRow>,
    pub requests: Vec<RequestRow>,
    pub replies: Vec<ReplyRow>,
    pub outputs: Vec<OutputRow>,
}
