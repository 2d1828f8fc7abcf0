//! The elements of a sound recording as they are handed on.

ghost use Rattle.std.specs.Prelude.{◌≡◌, IfOk, map};
ghost use Rattle.contents_check.specs.Known.{element_names};

use super::element::Element;
use super::elements::Elements;
use element_numbers::{Covering, NumberedElements};
use events::{Memory, Name};
use std::alloc::Global;

/// The names of these elements.
fn names_of(alloc: Global, list: &[Element]) -> Result<Vec<Name>, Memory>
    ensures { IfOk result (λ names. names.items ≡ map (λ x. x.name) list.now) }
{
    let mut names = Vec::with_capacity(alloc, list.len())?;
    for element in list {
        names.push(element.name)?;
    }
    Ok(names)
}

/// The elements as they are handed on. It takes memory for their names.
pub fn handed_on(
    alloc: Global,
    elements: Elements,
    covering: Covering,
) -> Result<NumberedElements, Memory>
    ensures names { IfOk result (λ numbered. numbered.names.items ≡ element_names elements) }
    ensures numbers { IfOk result (λ numbered. numbered.numbers ≡ elements.numbers) }
    ensures covering { IfOk result (λ numbered. numbered.covering ≡ covering) }
{
    let Elements {
        numbers,
        list,
        slots: _,
    } = elements;
    let names = names_of(alloc, list.as_slice())?;
    Ok(NumberedElements {
        names,
        numbers,
        covering,
    })
}
