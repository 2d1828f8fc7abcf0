//! What is said of a recording.
use anyhow::Result;
use certificate::{NoGate, judge};
use events::Recording;
use report::{json, text};
use std::alloc::Global;
use std::thread::Threads;

/// Both reports of a recording; the verdict is in them.
#[derive(Drop)]
pub struct Reports {
    text: Vec<u8>,
    json: Vec<u8>,
}

impl Reports {
    /// Whether these are the same, byte for byte.
    pub fn are(&self, others: &Reports) -> bool {
        self.text == others.text && self.json == others.json
    }

    /// The report as text.
    pub fn text(&self) -> &[u8] {
        &self.text
    }
}

/// Both reports of the recording, on a verdict by four workers.
pub fn reports_of<H: Threads + Sync>(
    rt: &H,
    alloc: Global,
    recording: &Recording,
) -> Result<Reports> {
    let verdict = judge(rt, alloc, recording, 4, &NoGate)?;
    let text = text(alloc, recording, &verdict)?;
    let json = json(alloc, recording, &verdict)?;
    Ok(Reports { text, json })
}
