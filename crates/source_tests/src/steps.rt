// Steps that set or remove headers: what becomes of an event.
use crate::passing::Passing;
use scenarios::pass;
use std::test::Fail;

const STEPS: &str = "The moment is set, and a value that is there stays or is replaced.
header k v
body xxx
moment 1350586020000
link timestamp t stays
becomes [k=v][t=1350586020000]xxx
link timestamp k stays
becomes [k=v]xxx
link timestamp k replaces
becomes [k=1350586020000]xxx
link timestamp t replaces
becomes [k=v][t=1350586020000]xxx

The host is set.
header k v
host 10.0.0.1
link host-address host replaces
becomes [host=10.0.0.1][k=v]

Headers are removed.
header k v
link remove none k
becomes";

#[test]
fn headers_are_set_kept_and_removed(rt: HostRuntime) -> Result<(), Fail> {
    pass::<Passing>(rt.alloc(), STEPS)
}

const LARGE: &str = "An event that grows too large is refused.
// 33,554,432 bytes with a header of 10 more: 8 of lengths, a key and a value
header k v
link static a b stays
large x 33554404 passes
large x 33554405 too-large 33554433";

#[test]
fn an_event_that_grows_too_large_is_refused(rt: HostRuntime) -> Result<(), Fail> {
    pass::<Passing>(rt.alloc(), LARGE)
}
