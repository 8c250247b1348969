//! The filter of host times, over a clock without jitter and anew.

use super::a_place;
use crate::tests::expect;
use link_hostfilter::{FilterFault, HostFilter};
use std::process::Abort;

/// A pair of a sample count and a host time, and the answer to it.
type Case = (i64, i64, Result<i64, FilterFault>);

// Half a microsecond goes away from 0.
const HALVES: &[Case] = &[(0, 0, Ok(0)), (1, 0, Ok(0)), (2, 3, Ok(3))];

#[test]
fn a_filter_that_was_reset_begins_anew(rt: HostRuntime) {
    let mut filter = HostFilter::new();
    add_all(&rt, &mut filter, HALVES);
    expect(&rt, &"kept", &filter.len(), &3);
    filter.reset();
    expect(&rt, &"kept", &filter.len(), &0);
    add_all(&rt, &mut filter, HALVES);
}

// rule: IsFiltered
#[test]
fn a_steady_clock_is_told_as_it_is(rt: HostRuntime) {
    let mut filter = HostFilter::new();
    for block in 0..1000_u16 {
        let host = 5000 * i64::from(block);
        let told = filter.add(256 * i64::from(block), host);
        expect(&rt, &block, &told, &Ok(host));
    }
}

// Adds a pair after the other, each with its answer.
fn add_all(rt: &impl Abort, filter: &mut HostFilter, cases: &[Case]) {
    for case in cases {
        let answer = filter.add(a_place(rt, case.0), a_place(rt, case.1));
        expect(rt, case, &answer, &case.2);
    }
}
