//! A registry is a list of sessions with different names.
use super::opened;
use crate::{Names, RefusedSession, Registry, RegistryRefusal, Session};
use events::{Memory, Name};
use std::alloc::Global;

/// A name of two letters, by a number below 676.
fn numbered(number: u32) -> Option<Name> {
    let first = b'a' + (number / 26 % 26) as u8;
    let second = b'a' + (number % 26) as u8;
    Name::new(&[first, second]).ok()
}

/// What the registry says of a session; where it finds no memory, the session is handed back and tried again.
fn added(registry: &mut Registry, name: Name, session: Session) -> Result<(), RefusedSession> {
    match registry.add(name, session) {
        Err(
            RefusedSession {
                why: RegistryRefusal::Memory,
                session,
            },
        ) => registry.add(name, session),
        answer => answer,
    }
}

/// What the registry says of a new session under the name of this number.
fn answer(
    registry: &mut Registry,
    alloc: Global,
    number: u32,
) -> Option<Result<(), RegistryRefusal>> {
    let name = numbered(number)?;
    let (session, _) = opened(alloc, 1).ok()?;
    Some(added(registry, name, session).map_err(|refused| refused.why))
}

/// The names.
fn named(registry: &Registry, alloc: Global) -> Option<Names> {
    match registry.names(alloc) {
        Err(Memory) => registry.names(alloc).ok(),
        Ok(names) => Some(names),
    }
}

/// Whether the names are those of the numbers from this one up to 64.
fn has_names_from(registry: &Registry, alloc: Global, from: u32) -> bool {
    let Some(names) = named(registry, alloc) else {
        return false;
    };
    for number in from..64 {
        if names.get((number - from) as usize).copied() != numbered(number) {
            return false;
        }
    }
    names.len() == registry.len()
}

/// Whether the session of this number is found; it is of one replica.
fn has(registry: &Registry, number: u32) -> bool {
    match numbered(number) {
        Some(name) => registry.get(&name).is_some(),
        None => false,
    }
}

/// Whether the session of this number is taken out.
fn removes(registry: &mut Registry, number: u32) -> bool {
    match numbered(number) {
        Some(name) => registry.remove(&name).is_some(),
        None => false,
    }
}

#[test]
fn registry_of_64(rt: HostRuntime) {
    let alloc = rt.alloc();
    let mut registry = Registry::new(alloc);
    for number in 0..64 {
        assert!(rt; answer(&mut registry, alloc, number) == Some(Ok(())));
        assert!(rt; answer(&mut registry, alloc, 0) == Some(Err(RegistryRefusal::Taken)));
    }
    assert!(rt; answer(&mut registry, alloc, 64) == Some(Err(RegistryRefusal::Full)));
    assert!(rt; has_names_from(&registry, alloc, 0) && registry.len() == 64);
    assert!(rt; has(&registry, 63) && !has(&registry, 64));
    assert!(rt; removes(&mut registry, 0) && !removes(&mut registry, 0));
    assert!(rt; has_names_from(&registry, alloc, 1) && registry.len() == 63);
    assert!(rt; has(&registry, 1) && !has(&registry, 0));
}
