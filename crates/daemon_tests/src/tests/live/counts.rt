//! How often each datagram came, by its bytes.

use indexmap::IndexMap;
use link_node::Event;
use lk_outside::Arrival;
use std::alloc::{AllocError, Global};

type Counts<'a> = IndexMap<&'a [u8], u64>;

/// A datagram that doesn't stand as often among the arrivals as among the events: its bytes, and how often it stands in each. `None` where
/// there is no such datagram.
pub fn miscounted<'a>(
    alloc: Global,
    given: &'a [Arrival],
    events: &'a [Event],
) -> Result<Option<(&'a [u8], u64, u64)>, AllocError> {
    let given = counts_given(alloc, given)?;
    let taken = counts_taken(alloc, events)?;
    Ok(odd_one(&given, &taken))
}

fn counts_given<'a>(alloc: Global, given: &'a [Arrival]) -> Result<Counts<'a>, AllocError> {
    let mut counts = IndexMap::new(alloc);
    for arrival in given {
        if let Arrival::Datagram { bytes, .. } = arrival {
            count(&mut counts, bytes.as_slice())?;
        }
    }
    Ok(counts)
}

fn counts_taken<'a>(alloc: Global, events: &'a [Event]) -> Result<Counts<'a>, AllocError> {
    let mut counts = IndexMap::new(alloc);
    for event in events {
        if let Event::Rx { bytes, .. } = event {
            count(&mut counts, bytes.as_slice())?;
        }
    }
    Ok(counts)
}

fn count<'a>(counts: &mut Counts<'a>, bytes: &'a [u8]) -> Result<(), AllocError> {
    let times = times_of(counts, bytes);
    counts.insert(bytes, times.saturating_add(1))?;
    Ok(())
}

fn times_of(counts: &Counts<'_>, bytes: &[u8]) -> u64 {
    counts.get(bytes).copied().unwrap_or(0)
}

// Of those given and then of those taken, the first.
fn odd_one<'a>(given: &Counts<'a>, taken: &Counts<'a>) -> Option<(&'a [u8], u64, u64)> {
    for (bytes, times) in given.iter() {
        let other = times_of(taken, bytes);
        if *times != other {
            return Some((*bytes, *times, other));
        }
    }
    for (bytes, times) in taken.iter() {
        if times_of(given, bytes) == 0 {
            return Some((*bytes, 0, *times));
        }
    }
    None
}
