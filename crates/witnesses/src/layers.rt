//! Rows of layers: for an element, what is reached from it in so many steps.

use super::fixed_list::FixedList;
use events::Name;

/// A layer of a row: names of elements.
pub type Layer = FixedList<Name>;

/// A row of a certificate: the layers of one source, which stands alone in the first.
pub type Row = FixedList<Layer>;

/// The rows of a certificate, one for a source.
pub type Layers = FixedList<Row>;
