// How a group chooses, and why it refuses.

/// How a group chooses the member that is handed a batch (Flume User Guide, "Flume Sink Processors").
#[derive(Clone, Copy, Debug, PartialEq, Eq)]
pub enum GroupKind {
    /// Its one member.
    Single,
    /// The first by priority.
    Failover,
    /// One after the other.
    RoundRobin,
    /// By chance.
    Random,
}

/// What a group is made by.
#[derive(Drop)]
pub struct GroupRules {
    /// How it chooses.
    pub kind: GroupKind,
    /// The priority of each member, the greatest first to be tried. Failover alone reads them.
    pub priorities: Vec<u32>,
    /// For how many milliseconds a member that failed is left alone at most.
    pub penalty: u64,
    /// Whether members that failed are left alone. Load balance alone reads it: under failover they always are, and a
    /// single member never is.
    pub backoff: bool,
}

/// Why no member took a batch.
#[derive(Drop)]
pub enum GroupRefused {
    /// These members were tried, in this order, and each refused it. No other member was due.
    AllFailed {
        /// The members, by their places in the group's list, from 0.
        tried: Vec<u32>,
    },
    /// Out of memory.
    NoMemory,
}
