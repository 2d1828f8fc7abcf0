//! A spot: a list, and a place in it.

/// A place in a list: both are counted from 0.
#[derive(Clone, Copy)]
pub struct Spot {
    pub list: u32,
    pub place: u32,
}
