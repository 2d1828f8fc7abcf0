//! Short sessions, as a property-based test and its shrinker make them: texts of some lines, and these texts
//! with one line left out.

use super::judged::Judged;
use anyhow::{Result, anyhow};
use made_sessions::{Random, Seeds, Shape, accepted, lacking, ring};
use std::alloc::Global;

/// How many lines a trace has before its entries.
const HEAD: usize = 2;

/// The shape of a short session.
fn short_shape(random: &mut Random) -> Shape {
    let replicas = random.below(4).wrapping_add(2);
    let groups = if random.is_one_of(500) { 1 } else { replicas };
    Shape {
        replicas,
        entries: random.below(9).wrapping_add(3),
        inserts: random.below(3).wrapping_add(1),
        places: 60,
        width: 5,
        groups,
        views: if random.is_one_of(200) { 500 } else { 0 },
        receipts: 350,
        grows: false,
    }
}

/// A short session of some kind.
fn short_session(alloc: Global, random: &mut Random, seed: u64) -> Result<Vec<u8>> {
    let shape = short_shape(random);
    if shape.groups > 1 {
        return ring(alloc, shape, seed);
    }
    if random.is_one_of(300) {
        return lacking(alloc, shape, seed);
    }
    accepted(alloc, shape, seed)
}

/// A short session whose text was not judged before, and now counts as judged: sessions are drawn until one
/// is new.
pub fn new_session(
    alloc: Global,
    random: &mut Random,
    seeds: &mut Seeds,
    judged: &mut Judged,
) -> Result<Vec<u8>> {
    for _ in 0..1000 {
        let trace = short_session(alloc, random, seeds.take())?;
        if judged.add(&trace)? {
            return Ok(trace);
        }
    }
    Err(anyhow!("no session is new"))
}

/// Where the lines of a text begin, the line behind the last too.
pub fn line_begins(alloc: Global, text: &[u8]) -> Result<Vec<usize>> {
    let mut begins = Vec::new(alloc);
    begins.push(0)?;
    for (i, byte) in text.iter().enumerate() {
        if *byte == b'\n' {
            begins.push(i.wrapping_add(1))?;
        }
    }
    Ok(begins)
}

/// How many entries there are between these beginnings.
pub fn count_of_entries(begins: &[usize]) -> usize {
    begins.len().saturating_sub(HEAD.wrapping_add(1))
}

/// Writes the text without this entry in the place of what stood in `rest`.
pub fn leave_out(rest: &mut Vec<u8>, text: &[u8], begins: &[usize], entry: usize) -> Result<()> {
    let line = entry.wrapping_add(HEAD);
    rest.clear();
    if let (Some(begin), Some(end)) = (begins.get(line), begins.get(line.wrapping_add(1))) {
        if let (Some((front, _)), Some((_, back))) = (
            text.split_at_checked(*begin),
            text.split_at_checked(*end),
        ) {
            rest.extend_from_slice(front)?;
            rest.extend_from_slice(back)?;
        }
    }
    Ok(())
}

/// So many sixteenths of a text, up to the end of a line.
pub fn first_sixteenths(text: &[u8], count: usize) -> &[u8] {
    let least = (text.len() / 16).saturating_mul(count);
    let Some((_, back)) = text.split_at_checked(least) else {
        return text;
    };
    let Some(rest) = back.iter().position(|byte| *byte == b'\n') else {
        return text;
    };
    match text.split_at_checked(least.saturating_add(rest).saturating_add(1)) {
        Some((front, _)) => front,
        None => text,
    }
}
