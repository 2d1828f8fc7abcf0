//! Sessions that are made up: their editors type, delete, look and hear of each other, and the text of a
//! trace says so.

use super::elements::{Elements, part};
use super::random::Random;
use super::replica::{Act, Replica};
use super::shape::Shape;
use anyhow::{Result, anyhow};
use std::alloc::Global;

/// A position past the end of every list.
const PAST_THE_END: usize = 4_294_967_295;

/// A session on its way, and the trace of it so far.
#[derive(Drop)]
pub struct Session {
    pub shape: Shape,
    pub elements: Elements,
    pub replicas: Vec<Replica>,
    pub text: Vec<u8>,
    pub random: Random,
}

/// Adds the digits of a number.
pub fn push_number(text: &mut Vec<u8>, number: usize) -> Result<()> {
    let mut digits = [b'0'; 20];
    let mut rest = number;
    let mut from = 20usize;
    for place in (0..20).rev() {
        digits[place] = b'0'.wrapping_add((rest % 10) as u8);
        rest /= 10;
        from = place;
        if rest == 0 {
            break;
        }
    }
    text.extend_from_slice(part(&digits, from, 20))?;
    Ok(())
}

impl Session {
    /// A session of this shape in which nothing has happened.
    pub fn new(alloc: Global, shape: Shape, seed: u64) -> Result<Session> {
        let mut random = Random::new(seed);
        let (elements, mut planned) = Elements::new(alloc, &shape, &mut random)?;
        let count = shape.replicas.saturating_mul(shape.inserts);
        let mut replicas = Vec::new(alloc);
        for number in (0..shape.replicas).rev() {
            let own = match planned.pop() {
                Some(own) => own,
                None => Vec::new(alloc),
            };
            replicas.push(Replica::new(
                alloc,
                number,
                shape.entries,
                shape.places,
                count,
                shape.groups,
                own,
            )?)?;
        }
        replicas.reverse();
        let mut text = Vec::new(alloc);
        text.extend_from_slice(if shape.views == 0 {
            b"trace 1\nreplicas "
        } else {
            b"trace 2\nreplicas "
        })?;
        push_number(&mut text, shape.replicas)?;
        text.push(b'\n')?;
        Ok(Session {
            shape,
            elements,
            replicas,
            text,
            random,
        })
    }

    /// The replica of this number.
    pub fn replica(&self, r: usize) -> Result<&Replica> {
        match self.replicas.get(r) {
            Some(replica) => Ok(replica),
            None => Err(anyhow!("no replica")),
        }
    }

    fn replica_mut(&mut self, r: usize) -> Result<&mut Replica> {
        match self.replicas.get_mut(r) {
            Some(replica) => Ok(replica),
            None => Err(anyhow!("no replica")),
        }
    }

    /// Adds an operation's line, whose response is what the replica shows, from one name to another.
    fn say(&mut self, r: usize, act: Option<Act>, from: usize, to: usize) -> Result<()> {
        let stride = self.elements.stride;
        self.text.extend_from_slice(b" :")?;
        let Some(replica) = self.replicas.get_mut(r) else {
            return Err(anyhow!("no replica"));
        };
        let size = to.saturating_sub(from);
        self.text.extend_from_slice(part(
            replica.spell(&self.elements)?,
            from.saturating_mul(stride),
            size.saturating_mul(stride),
        ))?;
        self.text.push(b'\n')?;
        replica.entries = replica.entries.saturating_sub(1);
        replica.places = replica.places.saturating_sub(size);
        replica.note(act)?;
        Ok(())
    }

    /// Adds an operation's line, with all that the replica shows.
    fn say_all(&mut self, r: usize, act: Option<Act>) -> Result<()> {
        let count = self.replica(r)?.ranks.len();
        self.say(r, act, 0, count)
    }

    /// Begins a line of a replica.
    fn begin(&mut self, r: usize, word: &[u8]) -> Result<()> {
        push_number(&mut self.text, r)?;
        self.text.extend_from_slice(word)?;
        Ok(())
    }

    /// The replica inserts its next element, if there is one, and answers it.
    pub fn insert(&mut self, r: usize) -> Result<Option<usize>> {
        let Some(element) = self.replica_mut(r)?.planned.pop() else {
            return Ok(None);
        };
        self.insert_this(r, element)?;
        Ok(Some(element))
    }

    /// The replica inserts this element.
    pub fn insert_this(&mut self, r: usize, element: usize) -> Result<()> {
        let Some(replica) = self.replicas.get_mut(r) else {
            return Err(anyhow!("no replica"));
        };
        let at = replica.put(&self.elements, element)?;
        let is_last = at.saturating_add(1) == replica.ranks.len();
        let is_past = is_last && self.random.is_one_of(100);
        self.begin(r, b" ins")?;
        self.text.extend_from_slice(self.elements.word(element))?;
        self.text.push(b' ')?;
        push_number(&mut self.text, if is_past { PAST_THE_END } else { at })?;
        self.say_all(r, Some(Act::Insert(element)))
    }

    /// The replica deletes this element.
    pub fn delete_this(&mut self, r: usize, element: usize) -> Result<()> {
        let Some(replica) = self.replicas.get_mut(r) else {
            return Err(anyhow!("no replica"));
        };
        replica.take_away(&self.elements, element);
        self.begin(r, b" del")?;
        self.text.extend_from_slice(self.elements.word(element))?;
        self.say_all(r, Some(Act::Delete(element)))
    }

    /// The replica deletes an element that it shows, if there is one.
    pub fn delete(&mut self, r: usize) -> Result<()> {
        let count = self.replica(r)?.ranks.len();
        let at = self.random.below(count);
        let rank = match self.replica(r)?.ranks.get(at) {
            Some(rank) => *rank,
            None => return Ok(()),
        };
        let element = self.elements.element_at(rank);
        self.delete_this(r, element)
    }

    /// The replica reads, or views a window of at most 400 names that follow one another.
    pub fn look(&mut self, r: usize) -> Result<()> {
        if !self.random.is_one_of(self.shape.views) {
            return self.read(r);
        }
        let count = self.replica(r)?.ranks.len();
        let size = 400.min(self.random.below(count).saturating_add(1));
        let from = self.random.below(count.saturating_sub(size));
        self.view(r, from, from.saturating_add(size).min(count))
    }

    /// The replica reads.
    pub fn read(&mut self, r: usize) -> Result<()> {
        self.begin(r, b" read")?;
        self.say_all(r, None)
    }

    /// The replica answers a read with the first so many names that it should show.
    pub fn read_to(&mut self, r: usize, to: usize) -> Result<()> {
        self.begin(r, b" read")?;
        self.say(r, None, 0, to)
    }

    /// The replica answers a read with the two names in the middle the other way round.
    pub fn read_exchanged(&mut self, r: usize) -> Result<()> {
        let stride = self.elements.stride;
        let middle = (self.replica(r)?.ranks.len() / 2)
            .saturating_sub(1)
            .saturating_mul(stride);
        self.begin(r, b" read :")?;
        let Some(replica) = self.replicas.get_mut(r) else {
            return Err(anyhow!("no replica"));
        };
        let names = replica.spell(&self.elements)?;
        self.text.extend_from_slice(part(names, 0, middle))?;
        let second = middle.saturating_add(stride);
        self.text.extend_from_slice(part(names, second, stride))?;
        self.text.extend_from_slice(part(names, middle, stride))?;
        self.text
            .extend_from_slice(part(names, second.saturating_add(stride), names.len()))?;
        self.text.push(b'\n')?;
        self.replica_mut(r)?.note(None)?;
        Ok(())
    }

    /// Whether the replica has an entry and places for one more response.
    pub fn has_room(&self, r: usize) -> Result<bool> {
        let replica = self.replica(r)?;
        Ok(replica.entries > 0 && replica.places > replica.ranks.len())
    }

    /// The element that the replica would insert next, which it now does not.
    pub fn next_planned(&mut self, r: usize) -> Result<Option<usize>> {
        Ok(self.replica_mut(r)?.planned.pop())
    }

    /// The replica views what it shows from one place to another.
    pub fn view(&mut self, r: usize, from: usize, to: usize) -> Result<()> {
        self.begin(r, b" view")?;
        self.say(r, None, from, to)
    }

    /// The replica is told of operation `n` of another one, counted from 1.
    pub fn receive(&mut self, r: usize, other: usize, n: usize) -> Result<()> {
        self.begin(r, b" recv ")?;
        push_number(&mut self.text, other)?;
        self.text.push(b' ')?;
        push_number(&mut self.text, n)?;
        self.text.push(b'\n')?;
        let acts = self.news(r, other, n)?;
        let Some(replica) = self.replicas.get_mut(r) else {
            return Err(anyhow!("no replica"));
        };
        replica.entries = replica.entries.saturating_sub(1);
        replica.expect(acts.len());
        for act in &acts {
            if let Act::Delete(element) = act {
                replica.take_away(&self.elements, *element);
            }
        }
        for act in &acts {
            if let Act::Insert(element) = act {
                if !replica.is_gone(*element) {
                    replica.put(&self.elements, *element)?;
                }
            }
        }
        Ok(())
    }

    /// What an operation brings a replica, which is then noted as seen.
    fn news(&mut self, r: usize, other: usize, n: usize) -> Result<Vec<Act>> {
        let mut acts = Vec::new(*self.text.allocator());
        let Some(clock) = self.replica(other)?.clock_behind(n) else {
            return Err(anyhow!("no operation"));
        };
        for (q, count) in clock.iter().enumerate() {
            let seen = self.replica(r)?.has_seen(q);
            if seen < *count {
                acts.extend_from_slice(self.replica(q)?.acts_of(seen, *count))?;
                self.replica_mut(r)?.hears(q, *count);
            }
        }
        Ok(acts)
    }

    /// How many operations a replica has.
    pub fn count(&self, r: usize) -> Result<usize> {
        Ok(self.replica(r)?.clocks.len())
    }

    /// Each of these replicas is told of all that the others have done.
    pub fn sync(&mut self, group: &[usize]) -> Result<()> {
        for r in group {
            for other in group {
                let count = self.count(*other)?;
                if r != other && count > 0 && self.replica(*r)?.entries > 0 {
                    self.receive(*r, *other, count)?;
                }
            }
        }
        Ok(())
    }

    /// The replica is told of some operation of another of these, mostly the last.
    fn hear(&mut self, r: usize, group: &[usize]) -> Result<()> {
        let Some(other) = group.get(self.random.below(group.len())) else {
            return Ok(());
        };
        let count = self.count(*other)?;
        if *other == r || count == 0 {
            return Ok(());
        }
        let seen = self.replica(r)?.has_seen(*other);
        let n = if seen >= count || self.random.is_one_of(800) {
            count
        } else {
            count.min(
                seen.saturating_add(self.random.below(count.saturating_sub(seen)))
                    .saturating_add(1),
            )
        };
        self.receive(r, *other, n)
    }

    /// What a replica of this group does next, where it keeps so many inserts and places for later: about so
    /// long a list is wanted that its places are used up with its entries.
    fn act(
        &mut self,
        r: usize,
        group: &[usize],
        entries: usize,
        inserts: usize,
        places: usize,
    ) -> Result<()> {
        let receipts = self.shape.receipts;
        let grows = self.shape.grows;
        let drawn = self.random.below(1000);
        if drawn < receipts && group.len() > 1 {
            return self.hear(r, group);
        }
        let replica = self.replica(r)?;
        let operations = replica
            .entries
            .saturating_sub(entries)
            .saturating_mul(1000usize.saturating_sub(receipts))
            / 1000;
        let operations = operations.max(1);
        let wanted = replica.places.saturating_sub(places) / operations;
        let shown = replica.ranks.len();
        let left = replica.planned.len().saturating_sub(inserts);
        let is_long = shown > 2 && shown.saturating_mul(10) > wanted.saturating_mul(14);
        let is_longish = shown > 2 && shown.saturating_mul(100) > wanted.saturating_mul(105);
        let is_short = shown.saturating_mul(10) < wanted.saturating_mul(9);
        let is_due = drawn.saturating_sub(receipts).saturating_mul(operations)
            < left.saturating_mul(1000usize.saturating_sub(receipts));
        if is_long && !grows && self.random.is_one_of(850) {
            return self.delete(r);
        }
        if left > 0 && (is_short || is_due) {
            self.insert(r)?;
            return Ok(());
        }
        if is_longish && self.random.is_one_of(600)
            || left > 0 && shown > 2 && self.random.is_one_of(100)
        {
            return self.delete(r);
        }
        self.look(r)
    }

    /// The replicas of a group edit together, down to so many entries, inserts and places.
    pub fn edit(
        &mut self,
        group: &[usize],
        entries: usize,
        inserts: usize,
        places: usize,
    ) -> Result<()> {
        let mut live = Vec::new(*self.text.allocator());
        live.extend_from_slice(group)?;
        for _ in 0..4_000_000 {
            let at = self.random.below(live.len());
            let Some(r) = live.get(at) else {
                return Ok(());
            };
            let r = *r;
            let replica = self.replica(r)?;
            if replica.entries <= entries
                || replica.places < places.saturating_add(replica.ranks.len()).saturating_add(1)
            {
                if at < live.len() {
                    live.remove(at);
                }
                continue;
            }
            self.act(r, group, entries, inserts, places)?;
        }
        Ok(())
    }
}
