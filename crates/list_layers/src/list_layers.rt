//! The maker of layers along the lists of a graph.

ghost use Rattle.std.specs.Prelude.{◌≡◌, ℕ, ◌<◌, IfOk, length, vec_len};
ghost use Rattle.order_graph.specs.Lists.{lists_of};
ghost use Rattle.bit_tables.specs.Rule.{layer_at};
ghost use Rattle.list_layers.specs.Ways.{IsLayerAt};

use super::layers::layers_on;
use super::restore::clear;
use super::state::State;
use events::Memory;
use order_graph::{Looked, OrderGraph};
use std::alloc::Global;
use std::marker::Model;

/// Makes layers along the lists of a graph, for one source after another. What it writes for one it sets
/// back, so a call with few numbers costs little.
#[derive(Drop)]
pub struct ListLayers<'a> {
    graph: &'a OrderGraph,
    state: State,
}

/// The graph, and how much was looked at.
impl<'a> Model for ListLayers<'a> {
    ghost use Rattle.list_search.specs.Graph.{graph_of};
    ghost use Rattle.list_layers.specs.Progress.{IsClean};
    ghost use Rattle.list_layers.specs.View.{LayersView};

    ghost Value = { LayersView };

    ghost view = { λ a. record {
      graph = a.graph.now;
      looked = a.state.looked;
    } };

    ghost invariant = { λ a. IsClean (graph_of a.graph.now) a.state };
}

impl<'a> ListLayers<'a> {
    /// The maker of layers of a graph, whose spots are to be listed: a graph of `of_covering` gets them by
    /// `emptied`. It takes time and memory linear in the elements and the lists.
    pub fn new(alloc: Global, graph: &'a OrderGraph) -> Result<ListLayers<'a>, Memory>
        ensures { IfOk result (λ made. made ≡ record { graph = graph.now; looked = 0 }) }
    {
        let mut state = State {
            marks: Vec::from_elem(alloc, 0, graph.lists() as usize)?,
            seen: Vec::from_elem(alloc, false, graph.elements() as usize)?,
            looked: Looked::new(),
        };
        clear(graph, &mut state);
        Ok(ListLayers { graph, state })
    }

    /// How many places were passed for the last layers, and spots gone through, together; 0 before any. The
    /// count stays at 18446744073709551615 once it is there.
    pub fn looked(&self) -> u64
        ensures { result ≡ self.now.looked }
    {
        self.state.looked.count()
    }

    /// So many layers of the elements that are not numbered below the source: layer d holds those that d
    /// steps lead to from it, and no fewer, in rising order. A step leads to what stands after an element in
    /// some list, and all steps go through such elements.
    ///
    /// It passes the places behind the elements of the layers but the last, each place of a list once, those
    /// of elements below the source among them. It takes a step for each, one for each spot of these elements
    /// and one for each layer, and sorts the layers. To set back takes no more than that. Memory is for the
    /// layers. After an error the maker is as before.
    pub fn layers_from(
        &mut self,
        alloc: Global,
        source: u32,
        count: u32,
    ) -> Result<Vec<Vec<u32>>, Memory>
        requires { source < length self.old.graph.elements }
        ensures graph { self.new.graph ≡ self.old.graph }
        ensures count { IfOk result (λ layers. vec_len layers ≡ count) }
        ensures layers { IfOk result (λ layers. (d : ℕ) → d < count
            → IsLayerAt (length self.old.graph.elements) (lists_of self.old.graph) source d
            (layer_at layers.items d)) }
    {
        self.state.looked = Looked::new();
        layers_on(alloc, self.graph, source, count, &mut self.state)
    }
}
