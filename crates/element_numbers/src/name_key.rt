//! What maps of names hash by.

ghost use Rattle.std.specs.Prelude.{◌≡◌, [], filter_map, fold, option_and_then};
ghost use Rattle.std.specs.List.{cons_option};
ghost use Rattle.events.specs.History.{inserted_name};
ghost use Rattle.events.specs.Operations.{operation};
ghost use Rattle.element_numbers.specs.Keys.{key_of, key_with, no_key};

use events::{Body, Name, OpName, Recording};
use std::hash::{BuildHasher, DefaultHasher, Hash};

/// What a map of names hashes by: SipHash, begun with all names that go into the map.
///
/// Whoever writes a recording chooses its names. With a hasher that always begins alike they could choose
/// many names that a map puts into one place, and each look would go past all of them. Here one name more, or
/// another one, changes the hashes of all.
#[derive(Clone, Copy)]
pub struct NameKey {
    begun: DefaultHasher,
}

impl NameKey {
    /// The key of no names.
    pub fn new() -> NameKey
        ensures { result ≡ no_key }
    {
        NameKey {
            begun: DefaultHasher::new(),
        }
    }

    /// Adds a name.
    pub fn add(&mut self, name: &Name)
        ensures { self.new ≡ key_with self.old name.now }
    {
        name.hash(&mut self.begun);
    }

    /// The key of these names.
    pub fn of(names: &[Name]) -> NameKey
        ensures { result ≡ key_of names.now }
    {
        let mut key = NameKey::new();
        for name in names {
            key.add(name);
        }
        key
    }

    /// The key of the names that these operations insert. It goes through the operations once, and takes no
    /// memory.
    pub fn of_inserted(recording: &Recording, operations: &[OpName]) -> NameKey
        ensures { result ≡ key_of (filter_map
            (λ o. option_and_then inserted_name (operation recording.now o)) operations.now) }
    {
        let mut key = NameKey::new();
        for operation in operations {
            key.add_inserted(recording, *operation);
        }
        key
    }

    /// Adds the name that an operation inserts, if it inserts one.
    fn add_inserted(&mut self, recording: &Recording, by: OpName)
        ensures { self.new ≡ fold key_with self.old
            (cons_option (option_and_then inserted_name (operation recording.now by)) []) }
    {
        if let Some(Body::Ins { name, .. }) = recording.operation(by) {
            self.add(name);
        }
    }
}

impl BuildHasher for NameKey {
    type Hasher = DefaultHasher;

    ghost build_hasher = { λ key. key.begun };

    fn build_hasher(&self) -> DefaultHasher {
        self.begun
    }
}
