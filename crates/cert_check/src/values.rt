//! Whether values rise along a list of elements' numbers, and whether numbers begin at a first one.

ghost use Rattle.std.specs.Prelude.{◌↔◌, ◌<◌, ◌≤◌, All, IsTrue, length, map, slice_index};
ghost use Rattle.cert_check.specs.Values.{IsRising};

/// Whether the values rise strictly along the places.
pub fn is_rising(values: &[u32], places: &[u32]) -> bool
    requires { All (λ x. x < length values.now) places.now }
    ensures { IsTrue result ↔ IsRising (map (slice_index values.now) places.now) }
{
    let mut least: u64 = 0;
    for place in places {
        let value = u64::from(values[*place as usize]);
        if value < least {
            return false;
        }
        least = value + 1;
    }
    true
}

/// Whether none of these numbers is below `first`.
pub fn are_from(numbers: &[u32], first: u32) -> bool
    ensures { IsTrue result ↔ All (λ x. first ≤ x) numbers.now }
{
    for number in numbers {
        if *number < first {
            return false;
        }
    }
    true
}
