//! Bytes that may stand in a name, looked at sixteen at a time.

ghost use Rattle.std.specs.Prelude.{◌≡◌, ◌<◌, ◌≤◌, length, map, not, take, drop};
ghost use Rattle.std.specs.List.{prefix_len};
ghost use Rattle.std.specs.Simd.Lanes.{mask_l};
ghost use Rattle.events.specs.Names.{is_name_byte};

use std::simd::prelude::*;

/// How many bytes are looked at at once.
const LANES: usize = 16;

/// How many bytes at the front may stand in a name: the place of the first that may not, or all of them. It
/// takes time linear in that, and no memory.
pub fn allowed_bytes(bytes: &[u8]) -> usize
    ensures { result ≡ prefix_len is_name_byte bytes.now }
{
    let mut allowed = 0;
    'lanes: while LANES <= bytes.len() - allowed {
        let marks = not_allowed(after(bytes, allowed));
        if marks != 0 {
            return allowed + marks.trailing_zeros() as usize;
        }
        allowed += LANES;
    }
    allowed + allowed_in_few(after(bytes, allowed))
}

/// What stands from a place on.
fn after(bytes: &[u8], place: usize) -> &[u8]
    requires { place ≤ length bytes.now }
    ensures { result.now ≡ drop place bytes.now }
{
    &bytes[place..]
}

/// The same of fewer than sixteen bytes, behind which spaces are put: a space may not stand in a name.
fn allowed_in_few(bytes: &[u8]) -> usize
    requires { length bytes.now < LANES }
    ensures { result ≡ prefix_len is_name_byte bytes.now }
{
    let mut lanes = [b' '; LANES];
    lanes[..bytes.len()].copy_from_slice(bytes);
    not_allowed(&lanes).trailing_zeros() as usize
}

/// Of the first sixteen bytes a bit each, the least for the first: whether it may not stand in a name.
///
/// A byte less the first of a range is at most the range's length where the byte is in it, since lesser bytes
/// wrap round; so one comparison is enough for a range. Letters are asked for with the bit 32 set, which
/// makes small letters of capitals.
#[inline(always)]
fn not_allowed(bytes: &[u8]) -> u64
    requires { LANES ≤ length bytes.now }
    ensures { result ≡ mask_l (map (λ b. not (is_name_byte b)) (take LANES bytes.now)) }
{
    let lanes = u8x16::from_slice(bytes);
    let letter = ((lanes | u8x16::splat(32)) - u8x16::splat(b'a')).simd_le(u8x16::splat(25));
    let digit = (lanes - u8x16::splat(b'0')).simd_le(u8x16::splat(9));
    let dash_or_dot = (lanes - u8x16::splat(b'-')).simd_le(u8x16::splat(1));
    let underscore = lanes.simd_eq(u8x16::splat(b'_'));
    let none = u8x16::splat(0);
    let others = underscore.select(none, u8x16::splat(255));
    letter
        .select(none, digit.select(none, dash_or_dot.select(none, others)))
        .simd_ne(none)
        .to_bitmask()
}
