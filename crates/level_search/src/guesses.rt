//! What guesses read and write: lists of which nothing is promised. A guess is tested before anything hangs
//! on it.

/// No element.
pub const NONE: u32 = u32::MAX;

/// What a list has at a place; `NONE` past its end.
pub fn at(list: &[u32], x: u32) -> u32 {
    match list.get(x as usize) {
        Some(value) => *value,
        None => NONE,
    }
}

/// Writes at a place of a list, where it has such a place.
pub fn put(list: &mut Vec<u32>, x: u32, value: u32) {
    if (x as usize) < list.len() {
        list[x as usize] = value;
    }
}
