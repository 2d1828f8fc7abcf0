//! The law on the constants, as the contract of a function with an empty body.

ghost use Rattle.shared_bound.specs.Limits.{ConstantsAreTheNumbers};

/// A bound has at most 64 seats, and where nothing was offered it answers 4294967295. The other definitions
/// and contracts cite the constants, so that without this law another number would stay proved.
pub fn constants_are_the_numbers()
    ensures { ConstantsAreTheNumbers }
{}
