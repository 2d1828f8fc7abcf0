//! The order graph of random recordings, beside a plain reading of their responses.

use super::graphs::{Kept, ask};
use super::plain::{agrees, tells_the_same};
use sample_recordings::{Random, generated};
use std::alloc::Global;
use std::test::Fail;
use std::thread::Threads;

/// Whether the graph of the next generated recording answers all as the plain programs do, or what covering
/// responses show is what they find.
fn next_agrees(
    rt: &(impl Threads + Sync),
    alloc: Global,
    random: &mut Random,
    kept: Kept,
) -> Result<bool, Fail> {
    ask(
        rt,
        alloc,
        generated(alloc, random)?,
        kept,
        |recording, graph| {
            Ok(match kept {
                Kept::All => agrees(recording, graph),
                Kept::Covering | Kept::CoveringByThreads => tells_the_same(recording, graph),
            })
        },
    )
}

#[test]
fn generated_recordings_agree_with_the_plain_programs(rt: HostRuntime) -> Result<(), Fail> {
    for (seed, kept) in [
        (2016, Kept::All),
        (1936, Kept::Covering),
        (1936, Kept::CoveringByThreads),
    ] {
        let mut random = Random(seed);
        for _ in 0..300 {
            assert!(rt;
                next_agrees(&rt, rt.alloc(), &mut random, kept)?,
                "from {seed}"
            );
        }
    }
    Ok(())
}
