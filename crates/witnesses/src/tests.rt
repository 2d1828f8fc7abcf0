//! Tests of orders, steps and layers.

use super::{Layer, Layers, Order, Row, Step, Steps};
use events::{Name, OpName};
use std::alloc::Global;
use std::test::Fail;

/// The names with these texts. Where memory is wanted a push is tried again.
fn names(alloc: Global, texts: &[&str]) -> Result<Vec<Name>, Fail> {
    let mut names = Vec::new(alloc);
    for text in texts {
        let name = Name::new(text.as_bytes())?;
        if names.push(name).is_err() {
            names.push(name)?;
        }
    }
    Ok(names)
}

/// Whether a name is there, and has this text.
fn has_text(name: Option<&Name>, text: &str) -> bool {
    match name {
        Some(name) => name.bytes() == text.as_bytes(),
        None => false,
    }
}

/// Whether an order is b and then a.
fn is_b_and_a(order: &Order) -> bool {
    order.len() == 2
        && has_text(order.get(0), "b")
        && has_text(order.get(1), "a")
        && order.get(2).is_none()
}

#[test]
fn an_order_is_its_names(rt: HostRuntime) -> Result<(), Fail> {
    let order = Order::from_names(names(rt.alloc(), &["b", "a"])?);
    assert!(&rt; is_b_and_a(&order));
    assert_eq!(&rt; order.into_names().len(), 2);
    Ok(())
}

/// A step from a to b.
fn step() -> Result<Step, Fail> {
    Ok(Step {
        from: Name::new(b"a")?,
        to: Name::new(b"b")?,
        shown: OpName { replica: 0, n: 2 },
    })
}

/// Steps of one step, which were given back once.
fn given_back(alloc: Global, step: Step) -> Result<Steps, Fail> {
    let mut steps = Vec::new(alloc);
    if steps.push(step).is_err() {
        steps.push(step)?;
    }
    Ok(Steps::from_items(Steps::from_items(steps).into_items()))
}

/// Whether steps are this one alone.
fn is_only(steps: &Steps, step: Step) -> bool {
    steps.len() == 1 && steps.get(0).copied() == Some(step) && steps.get(1).is_none()
}

#[test]
fn steps_are_given_back(rt: HostRuntime) -> Result<(), Fail> {
    let step = step()?;
    let steps = given_back(rt.alloc(), step)?;
    assert!(&rt; is_only(&steps, step));
    Ok(())
}

/// The layers `s`, none, and `b` and `c`.
fn layers(alloc: Global) -> Result<Vec<Layer>, Fail> {
    let mut layers = Vec::new(alloc);
    let texts: [&[&str]; 3] = [&["s"], &[], &["b", "c"]];
    for texts in texts {
        let layer = Layer::from_items(names(alloc, texts)?);
        if layers.reserve(1).is_err() {
            layers.reserve(1)?;
        }
        layers.push(layer)?;
    }
    Ok(layers)
}

/// How many names a layer of a row has; 9 where there is no such layer.
fn names_in(row: &Row, layer: usize) -> usize {
    match row.get(layer) {
        Some(layer) => layer.len(),
        None => 9,
    }
}

/// Whether a row has three layers, of one name, none and two.
fn has_lengths(row: &Row) -> bool {
    row.len() == 3 && names_in(row, 0) == 1 && names_in(row, 1) == 0 && names_in(row, 2) == 2
}

/// Whether the third layer of a row is its last, and c the second name of it.
fn has_c_in_last(row: &Row) -> bool {
    match row.get(2) {
        Some(layer) => has_text(layer.get(1), "c") && row.get(3).is_none(),
        None => false,
    }
}

#[test]
fn rows_have_layers_of_names(rt: HostRuntime) -> Result<(), Fail> {
    let row = Row::from_items(layers(rt.alloc())?);
    assert!(&rt; has_lengths(&row));
    assert!(&rt; has_c_in_last(&row));
    Ok(())
}

/// Layers of one row.
fn of_row(alloc: Global, row: Row) -> Result<Layers, Fail> {
    let mut rows = Vec::new(alloc);
    if rows.reserve(1).is_err() {
        rows.reserve(1)?;
    }
    rows.push(row)?;
    Ok(Layers::from_items(rows))
}

/// Whether there is one row, of three layers.
fn is_one_row(all: &Layers) -> bool {
    match all.get(0) {
        Some(row) => all.len() == 1 && row.len() == 3 && all.get(1).is_none(),
        None => false,
    }
}

#[test]
fn layers_have_rows(rt: HostRuntime) -> Result<(), Fail> {
    let row = Row::from_items(layers(rt.alloc())?);
    let all = of_row(rt.alloc(), row)?;
    assert!(&rt; is_one_row(&all));
    Ok(())
}
