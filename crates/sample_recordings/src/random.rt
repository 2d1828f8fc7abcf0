//! Numbers that look random, the same in each run.

ghost use Rattle.std.specs.Prelude.{◌<◌};

/// Numbers that look drawn at random, from a seed.
#[derive(Drop)]
pub struct Random(pub u32);

impl Random {
    /// A number below a bound.
    pub fn below(&mut self, bound: usize) -> usize
        requires { 0 < bound }
        ensures { result < bound }
    {
        self.0 = self.0.wrapping_mul(1664525).wrapping_add(1013904223);
        (self.0 / 65536) as usize % bound
    }

    /// The numbers below 6, in some order.
    pub fn order(&mut self) -> [usize; 6] {
        let mut order = [0, 1, 2, 3, 4, 5];
        for i in 0..6 {
            order.swap(i, self.below(i + 1));
        }
        order
    }
}
