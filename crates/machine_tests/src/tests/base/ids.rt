//! Ids, by the reference generator of PCG.

use crate::tests::expect;
use lk_base::{IdSource, NodeId};

// rule: drawn_id
#[test]
fn a_source_gives_the_ids_of_the_reference_generator(rt: HostRuntime) {
    let mut ids = IdSource::new(1, 0);
    for id in [*b">pz1+Yoc", *b"rs19+?#%"] {
        expect(&rt, &id, &ids.draw(), &NodeId(id));
    }
}
