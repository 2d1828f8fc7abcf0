//! Sessions whose least cycle stands first in a long document and has the highest numbers of elements.

use super::session::push_number;
use anyhow::Result;
use std::alloc::Global;

/// How large such a session is. Writers and the replicas of the ring are 16 together at most.
#[derive(Clone, Copy)]
pub struct FrontShape {
    /// How many replicas write.
    pub writers: usize,
    /// How many elements each of them inserts in a phase.
    pub inserts: usize,
    /// How many phases there are. In each, what was inserted in the one before is deleted.
    pub phases: usize,
    /// How many replicas show a ring of as many elements.
    pub ring: usize,
    /// Whether one of the ring is shown behind the last phase too, so that a cycle leads through all elements.
    pub closed: bool,
}

/// An element that a writer inserts: the writer, and how many it has inserted before.
#[derive(Clone, Copy)]
struct Written {
    writer: usize,
    number: usize,
}

/// The text of a trace on its way.
#[derive(Drop)]
struct Lines {
    text: Vec<u8>,
}

impl Lines {
    /// Begins a line of a replica.
    fn begin(&mut self, r: usize, word: &[u8]) -> Result<()> {
        push_number(&mut self.text, r)?;
        self.text.extend_from_slice(word)?;
        Ok(())
    }

    /// Adds the name of an element of the ring.
    fn ring_name(&mut self, i: usize) -> Result<()> {
        self.text.extend_from_slice(b" c")?;
        push_number(&mut self.text, i)
    }

    /// Adds the name of an element that a writer inserts.
    fn name(&mut self, element: Written) -> Result<()> {
        self.text.extend_from_slice(b" e")?;
        push_number(&mut self.text, element.writer)?;
        self.text.push(b'.')?;
        push_number(&mut self.text, element.number)
    }

    /// Adds the names of elements that a writer inserts, from one number to another.
    fn names(&mut self, writer: usize, from: usize, to: usize) -> Result<()> {
        for number in from..to {
            self.name(Written { writer, number })?;
        }
        Ok(())
    }

    /// Adds a receipt.
    fn receipt(&mut self, r: usize, other: usize, n: usize) -> Result<()> {
        self.begin(r, b" recv ")?;
        push_number(&mut self.text, other)?;
        self.text.push(b' ')?;
        push_number(&mut self.text, n)?;
        self.text.push(b'\n')?;
        Ok(())
    }
}

impl FrontShape {
    /// The replica that shows phase behind phase.
    fn viewer(&self) -> usize {
        self.writers.saturating_add(self.ring).saturating_sub(1)
    }

    /// Each replica of the ring inserts its element, hears of the others, and shows it before the next one's.
    fn show_ring(&self, lines: &mut Lines) -> Result<()> {
        for i in 0..self.ring {
            lines.begin(self.writers.saturating_add(i), b" ins")?;
            lines.ring_name(i)?;
            lines.text.extend_from_slice(b" 0 :")?;
            lines.ring_name(i)?;
            lines.text.push(b'\n')?;
        }
        for i in 0..self.ring {
            for j in 0..self.ring {
                if i != j {
                    let r = self.writers.saturating_add(i);
                    lines.receipt(r, self.writers.saturating_add(j), 1)?;
                }
            }
        }
        for i in 0..self.ring {
            lines.begin(self.writers.saturating_add(i), b" view :")?;
            lines.ring_name(i)?;
            lines.ring_name(i.saturating_add(1) % self.ring.max(1))?;
            lines.text.push(b'\n')?;
        }
        Ok(())
    }

    /// The number of a writer's first element in a phase.
    fn first_of(&self, phase: usize) -> usize {
        phase.saturating_mul(self.inserts)
    }

    /// A writer inserts its elements of a phase, behind those of the phase before.
    fn insert(&self, lines: &mut Lines, writer: usize, phase: usize) -> Result<()> {
        let begin = self.first_of(phase.saturating_sub(1));
        let first = self.first_of(phase);
        for number in first..first.saturating_add(self.inserts) {
            lines.begin(writer, b" ins")?;
            lines.name(Written { writer, number })?;
            lines.text.push(b' ')?;
            push_number(&mut lines.text, number.saturating_sub(begin))?;
            lines.text.extend_from_slice(b" :")?;
            lines.names(writer, begin, number.saturating_add(1))?;
            lines.text.push(b'\n')?;
        }
        Ok(())
    }

    /// A writer deletes its elements of the phase before.
    fn delete(&self, lines: &mut Lines, writer: usize, phase: usize) -> Result<()> {
        let begin = self.first_of(phase.saturating_sub(1));
        let first = self.first_of(phase);
        let end = first.saturating_add(self.inserts);
        for number in begin..first {
            lines.begin(writer, b" del")?;
            lines.name(Written { writer, number })?;
            lines.text.extend_from_slice(b" :")?;
            lines.names(writer, number.saturating_add(1), end)?;
            lines.text.push(b'\n')?;
        }
        Ok(())
    }

    /// Adds the names of all that writers insert in a phase.
    fn names_of(&self, lines: &mut Lines, phase: usize) -> Result<()> {
        let first = self.first_of(phase);
        for writer in 0..self.writers {
            lines.names(writer, first, first.saturating_add(self.inserts))?;
        }
        Ok(())
    }

    /// The viewer hears of a phase, and shows it behind the one before: the first behind the ring.
    fn view(&self, lines: &mut Lines, phase: usize) -> Result<()> {
        // Each insert and each delete is an operation; what a writer deleted of the phase before the last.
        let inserted = self.first_of(phase.saturating_add(1));
        let deleted = self.first_of(phase.saturating_sub(1));
        for writer in 0..self.writers {
            lines.receipt(self.viewer(), writer, inserted.saturating_add(deleted))?;
        }
        lines.begin(self.viewer(), b" view :")?;
        if phase == 0 {
            lines.ring_name(0)?;
        } else {
            self.names_of(lines, phase.saturating_sub(1))?;
        }
        self.names_of(lines, phase)?;
        lines.text.push(b'\n')?;
        Ok(())
    }
}

/// Some replicas show a ring of their elements, whose first stands before all that others write in phases.
/// The elements of the ring have the highest numbers. It takes time and memory linear in the text.
pub fn front(alloc: Global, shape: FrontShape) -> Result<Vec<u8>> {
    let mut lines = Lines {
        text: Vec::new(alloc),
    };
    lines.text.extend_from_slice(b"trace 2\nreplicas ")?;
    push_number(&mut lines.text, shape.writers.saturating_add(shape.ring))?;
    lines.text.push(b'\n')?;
    shape.show_ring(&mut lines)?;
    for phase in 0..shape.phases {
        for writer in 0..shape.writers {
            shape.insert(&mut lines, writer, phase)?;
        }
        shape.view(&mut lines, phase)?;
        if phase > 0 {
            for writer in 0..shape.writers {
                shape.delete(&mut lines, writer, phase)?;
            }
        }
    }
    if shape.closed {
        lines.begin(shape.viewer(), b" view :")?;
        shape.names_of(&mut lines, shape.phases.saturating_sub(1))?;
        lines.ring_name(0)?;
        lines.text.push(b'\n')?;
    }
    let Lines { text } = lines;
    Ok(text)
}
