//! A seed for each session, so that no two have the same.

/// The seeds of a job's sessions, one after the other. Where the seed that it begins with is below 2 ^ 32, no
/// other such seed and no other job gives one of them.
#[derive(Drop)]
pub struct Seeds {
    seed: u64,
    place: u64,
}

impl Seeds {
    /// The seeds of the job with this number.
    pub fn new(seed: u64, job: u64) -> Seeds {
        Seeds {
            seed,
            place: job << 24,
        }
    }

    /// The seed of one session more.
    pub fn take(&mut self) -> u64 {
        self.place = self.place.wrapping_add(1);
        mixed(self.seed.rotate_left(32) ^ self.place)
    }
}

/// A number all of whose bits hang on all bits of the one given; two numbers never give the same one. It is
/// the last step of the generator SplitMix64.
fn mixed(number: u64) -> u64 {
    let once = (number ^ number >> 30).wrapping_mul(0xbf58_476d_1ce4_e5b9);
    let twice = (once ^ once >> 27).wrapping_mul(0x94d0_49bb_1331_11eb);
    twice ^ twice >> 31
}
