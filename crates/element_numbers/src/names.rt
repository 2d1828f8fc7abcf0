//! The names that operations insert.

ghost use Rattle.std.specs.Prelude.{◌≡◌, IfOk, OnOk, ◌++◌, [], filter_map, option_and_then};
ghost use Rattle.std.specs.List.{cons_option};
ghost use Rattle.events.specs.History.{inserted_name};
ghost use Rattle.events.specs.Operations.{operation};

use events::{Body, Memory, Name, OpName, Recording};
use std::alloc::Global;

/// The names that these operations insert, in their order.
pub fn inserted_names(
    alloc: Global,
    recording: &Recording,
    operations: &[OpName],
) -> Result<Vec<Name>, Memory>
    ensures { IfOk result (λ names. names.items ≡ filter_map
        (λ o. option_and_then inserted_name (operation recording.now o)) operations.now) }
{
    let mut names = Vec::new(alloc);
    for operation in operations {
        add_inserted(&mut names, recording, *operation)?;
    }
    Ok(names)
}

/// Adds the name that an operation inserts, if it inserts one.
fn add_inserted(names: &mut Vec<Name>, recording: &Recording, by: OpName) -> Result<(), Memory>
    ensures { OnOk result (names.new.items
        ≡ names.old.items ++ cons_option (option_and_then inserted_name (operation recording.now by)) []) }
{
    if let Some(Body::Ins { name, .. }) = recording.operation(by) {
        names.push(*name)?;
    }
    Ok(())
}
