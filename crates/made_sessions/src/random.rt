//! Numbers that look random, the same for the same seed.

/// Numbers that look drawn at random, from a seed.
#[derive(Drop)]
pub struct Random(u64);

impl Random {
    /// The numbers of this seed.
    pub fn new(seed: u64) -> Random {
        let mut random = Random(seed.wrapping_mul(0x9e37_79b9_7f4a_7c15) ^ 0x2545_f491_4f6c_dd1d);
        let _ = random.below(2);
        random
    }

    /// A number below a bound; 0 where the bound is 0.
    pub fn below(&mut self, bound: usize) -> usize {
        self.0 = self
            .0
            .wrapping_mul(6_364_136_223_846_793_005)
            .wrapping_add(1_442_695_040_888_963_407);
        let drawn = (self.0 >> 33) as usize;
        if bound == 0 { 0 } else { drawn % bound }
    }

    /// Whether chance says yes, which it does so many times in a thousand.
    pub fn is_one_of(&mut self, thousandths: usize) -> bool {
        self.below(1000) < thousandths
    }
}
