//! Tests of recordings in which views stand in the place of reads.

use super::{Said, said_of};
use crate::NoGate;
use sample_recordings::{Random, generated, mostly_ordered, views_of};
use std::test::Fail;

/// Whether what is said of the views is that their conflict number is none or not smaller than that of the
/// reads.
fn has_no_smaller_number(reads: Said, views: Said) -> bool {
    match (reads, views) {
        (Said::Accepted(_) | Said::Refused(_, _), Said::Accepted(_)) => true,
        (Said::Refused(k, _), Said::Refused(l, _)) => k <= l,
        _ => false,
    }
}

#[test]
fn views_in_the_place_of_reads(rt: HostRuntime) -> Result<(), Fail> {
    let mut random = Random(1964);
    for case in 0..500 {
        let reads = if case % 2 == 0 {
            generated(rt.alloc(), &mut random)?
        } else {
            mostly_ordered(rt.alloc(), &mut random)?
        };
        let views = views_of(rt.alloc(), &mut random, &reads)?;
        let of_reads = said_of(&rt, rt.alloc(), &reads, 1, &NoGate);
        let of_views = said_of(&rt, rt.alloc(), &views, 1, &NoGate);
        assert!(rt; has_no_smaller_number(of_reads, of_views), "in case {case}");
    }
    Ok(())
}
