//! What layers are made on: a mark for each list, and what was entered.

use order_graph::Looked;

/// There is a mark for each list, behind which its places were passed, and a flag for each number that was
/// entered into a layer.
#[derive(Drop)]
pub struct State {
    pub marks: Vec<u32>,
    pub seen: Vec<bool>,
    pub looked: Looked,
}
