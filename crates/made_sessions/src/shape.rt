//! How large a session is, and how its editors behave.

/// How large a session is, and how its editors behave.
#[derive(Clone, Copy)]
pub struct Shape {
    /// How many replicas there are, 1 to 16.
    pub replicas: usize,
    /// How many entries a replica has, receipts counted.
    pub entries: usize,
    /// How many elements a replica may insert.
    pub inserts: usize,
    /// How many names the responses of a replica have together, about.
    pub places: usize,
    /// How many bytes a name has, 5 to 32.
    pub width: usize,
    /// How many groups the replicas are dealt out to in turn: each group shows its own elements first, then
    /// those of the next group, and so on round. With one group all replicas show one order.
    pub groups: usize,
    /// How many reads in a thousand are views.
    pub views: usize,
    /// How many entries in a thousand are receipts.
    pub receipts: usize,
    /// Whether lists grow without deletes as long as they may.
    pub grows: bool,
}

/// The shape of a session near the limit on names alone: 16 replicas with 4 million names in all.
pub const NEAR_NAMES: Shape = Shape {
    replicas: 16,
    entries: 4096,
    inserts: 256,
    places: 262_144,
    width: 7,
    groups: 1,
    views: 0,
    receipts: 350,
    grows: false,
};

/// The shape of a session of a smaller team: 8 replicas with 190,000 names in all.
pub const SMALL_TEAM: Shape = Shape {
    replicas: 8,
    entries: 700,
    inserts: 80,
    places: 24_000,
    width: 6,
    groups: 1,
    views: 0,
    receipts: 350,
    grows: false,
};

/// The shape of a session of a day: 12 replicas with a million names in all.
pub const DAY: Shape = Shape {
    replicas: 12,
    entries: 2000,
    inserts: 160,
    places: 90_000,
    width: 7,
    groups: 1,
    views: 0,
    receipts: 350,
    grows: false,
};

/// The shape of a session near all limits but that on inserts: 16 replicas with 262,144 entries in all, which
/// may insert 65,536 elements, and insert some 40,000 of them.
pub const NEAR_ALL: Shape = Shape {
    replicas: 16,
    entries: 16_384,
    inserts: 4096,
    places: 262_144,
    width: 8,
    groups: 1,
    views: 0,
    receipts: 350,
    grows: false,
};
