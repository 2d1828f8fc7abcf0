//! The machine as a world.

use super::fault::ProgramFault;
use super::world::World;
use byte_streams::Source;
use std::io::{Eprint, Input, Read};
use std::rt::Files;
use std::{fs, io};

/// Standard input, or an open file.
#[derive(Drop)]
pub enum Opened<I, F> {
    Input(I),
    File(F),
}

impl<I: Read, F: Read> Read for Opened<I, F> {
    fn read(&mut self, buffer: &mut [u8]) -> io::Result<usize> {
        match self {
            Opened::Input(input) => input.read(buffer),
            Opened::File(file) => file.read(buffer),
        }
    }
}

/// The machine as a world: `-` names standard input, another word the file of that name. What its files
/// hold, and what was done, is not known to contracts.
#[derive(Drop)]
pub struct Machine<'a, H: Files + Input + Eprint> {
    rt: &'a H,
}

impl<'a, H: Files + Input + Eprint> Machine<'a, H> {
    /// The machine that this runtime reaches.
    pub fn new(rt: &'a H) -> Machine<'a, H> {
        Machine { rt }
    }
}

impl<H: Files + Input + Eprint> World for Machine<'_, H> {
    ghost use Rattle.std.specs.Prelude.{◌≡◌, IfSome, MatchOption, None, ⊤};
    ghost use Rattle.finder_cli.specs.Deeds.{IsFresh};

    type Stream = Opened<H::Reader, H::File>;

    ghost text = { λ _ _. None };

    ghost deeds = { λ _. None };

    fn open(&mut self, file: &str) -> Option<Source<Opened<H::Reader, H::File>>>
        ensures fresh { IfSome result (λ source. IsFresh source × (source.bytes ≡ None)) }
        ensures done { MatchOption result ⊤ (λ _. ⊤) }
    {
        if file == "-" {
            return Some(Source::new(Opened::Input(self.rt.reader())));
        }
        match fs::open(self.rt, file) {
            Ok(opened) => Some(Source::new(Opened::File(opened))),
            Err(_) => None,
        }
    }

    fn close(&mut self, _source: &Source<Opened<H::Reader, H::File>>)
        ensures { ⊤ }
    {}

    fn complain(&mut self, fault: &ProgramFault) {
        let _ = eprintln!(self.rt; "finder: {fault}");
    }
}
