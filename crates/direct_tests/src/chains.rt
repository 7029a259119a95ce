//! The versions of one item, by direct calls.

use mv_chain::{Chain, Late};
use std::test::Fail;

/// Why a write at 1 comes too late: the base's version was read at 2.
const LATE: Late = Late {
    version: 0,
    mark: 2,
};

// An attempt at 1 and one at 2 read the base's version; the one at 2 commits, and the first comes too late. Then versions
// are added at 5 and at 4, and those that none at 4 or above can find are dropped.
#[test]
fn each_call_of_a_chain(rt: HostRuntime) -> Result<(), Fail> {
    let mut chain = Chain::new(rt.alloc(), 10u64);
    assert!(rt; chain.oldest() == 0 && chain.count() == 1 && *chain.read_at(1) == 10);
    chain.mark(1);
    chain.mark(2);
    assert!(rt; chain.late(1) == Some(LATE) && chain.late(2).is_none());
    assert!(rt; chain.timestamp_at(9) == 0 && chain.mark_of(0) == 2);
    chain.reserve()?;
    chain.install(2, 20)?;
    assert!(rt;
        *chain.read_at(1) == 10
            && *chain.read_at(2) == 20
            && *chain.read_at(9) == 20
            && chain.late(3).is_none()
    );
    chain.install(5, 50)?;
    chain.install(4, 40)?;
    assert!(rt; *chain.read_at(3) == 20 && *chain.read_at(4) == 40 && *chain.read_at(5) == 50);
    assert!(rt; chain.timestamp_at(4) == 4 && chain.timestamp_at(3) == 2);
    chain.mark(3);
    assert!(rt; chain.mark_of(2) == 3 && chain.mark_of(3) == 0 && chain.mark_of(5) == 0);
    chain.prune(4);
    assert!(rt; chain.oldest() == 4 && chain.count() == 2);
    Ok(())
}
