// What becomes of batches: which channels hold which events, over channels in memory, plain ones and those on a disk.
use crate::intakes::Intakes;
use scenarios::pass;
use std::test::Fail;

// Of three channels, CZ goes to the first one and may go to the second. Other states go to the third, which is the default, and US may
// go to the second. Elsewhere `second` goes to the second one, and `both` to the first and the second.
const IN_MEMORY: &str = "A full optional channel is passed by.
by-state
mapped CZ 0
default 2
may-get CZ 1
may-get US 1
most 1
in-memory 2 2 2
event CZ body
put taken
event US body
put taken
event US body
put taken
sizes 1 2 2

A full channel refuses, and those before it keep the event.
by-state
mapped second 1
mapped both 0 1
may-get both 2
most 1
in-memory 2 2 2
event second body
put taken
event second body
put taken
event both body
put stage-full 1 2
event both body
put stage-full 1 2
sizes 2 2 0

A chain sets headers in order, and refuses what grows too large.
// with the header state=CZ, which takes 15 bytes, the largest event is 33,554,447 bytes long
link static state CZ replaces
link host-name state stays
by-state
mapped CZ 0
default 2
may-get CZ 1
may-get US 1
most 1
in-memory 2 2 2
event XX body
put taken
zeros 33554424
put too-large 33554447
sizes 1 1 0";

#[test]
fn batches_come_into_channels_in_memory(rt: HostRuntime) -> Result<(), Fail> {
    pass::<Intakes>(rt.alloc(), IN_MEMORY)
}

const PLAIN_AND_ON_DISK: &str =
    r#"An event goes where its header says, also where a channel is full that it may miss, for plain, on-disk
by-state
mapped CZ 0
default 2
may-get CZ 1
may-get US 1
$ 10 1 10
event CZ x
put taken
event US x
put taken
event DE x
put taken
sizes 1 1 2

A full channel is named, and the one before it keeps the event, which a retry puts there again, for plain, on-disk
by-state
mapped second 1
mapped both 0 1
may-get both 2
$ 10 1 10
event second x
put taken
event both x
put full 1 1
event both x
put full 1 1
sizes 2 1 0

Groups become headers, and an event that a filter drops is taken and is in no channel, for plain, on-disk
link extract (\d):(\d):(\d) => one, two, three
link filter-out x
$ 10 10 10
event CZ 1:2:3.4foobar5
put taken
event CZ 1:2
put taken
event CZ 1:2:3x
put taken
gives 0 [one=1][state=CZ][three=3][two=2]1:2:3.4foobar5
gives 0 [state=CZ]1:2
empty 0
gives 1 [one=1][state=CZ][three=3][two=2]1:2:3.4foobar5
gives 1 [state=CZ]1:2
empty 1
gives 2 [one=1][state=CZ][three=3][two=2]1:2:3.4foobar5
gives 2 [state=CZ]1:2
empty 2
sizes 0 0 0

An event that is given back stays, and dropped events are nowhere, for plain, on-disk
link extract (\d):(\d):(\d) => one, two, three
link filter-out x
$ 10 10 10
event CZ 1:2:3.4foobar5
put taken
event CZ 1:2:3x
put taken
shows 0 [one=1][state=CZ][three=3][two=2]1:2:3.4foobar5
shows 1 [one=1][state=CZ][three=3][two=2]1:2:3.4foobar5
shows 2 [one=1][state=CZ][three=3][two=2]1:2:3.4foobar5
sizes 1 1 1

The date at the front of a body becomes its milliseconds, for plain, on-disk
// python3 gives them: int(datetime(2012, 10, 18, 18, 47, tzinfo=timezone.utc).timestamp() * 1000); the second body has no such date
link extract ^(\d{4}-\d\d-\d\d \d\d:\d\d) => timestamp:yyyy-MM-dd HH:mm
$ 10 10 10
event CZ 2012-10-18 18:47 up
put taken
event CZ 2012-02-30 18:47 up
put taken
gives 0 [state=CZ][timestamp=1350586020000]2012-10-18 18:47 up
gives 0 [state=CZ]2012-02-30 18:47 up
empty 0
gives 1 [state=CZ][timestamp=1350586020000]2012-10-18 18:47 up
gives 1 [state=CZ]2012-02-30 18:47 up
empty 1
gives 2 [state=CZ][timestamp=1350586020000]2012-10-18 18:47 up
gives 2 [state=CZ]2012-02-30 18:47 up
empty 2
sizes 0 0 0

Each channel gets as many events as it is given, for plain, on-disk
by-state
mapped CZ 0
default 2
may-get CZ 1
may-get US 1
$ 10 10 10
event CZ 1
event US 2
event CZ 3
put taken
sizes 2 3 1

Each channel gives its own events in order, for plain, on-disk
by-state
mapped CZ 0
default 2
may-get CZ 1
may-get US 1
$ 10 10 10
event CZ 1
event US 2
event CZ 3
put taken
gives 0 [state=CZ]1
gives 0 [state=CZ]3
empty 0
gives 1 [state=CZ]1
gives 1 [state=US]2
gives 1 [state=CZ]3
empty 1
gives 2 [state=US]2
empty 2
sizes 0 0 0

A channel that is required and optional takes two transactions, for plain, on-disk
// a has to go to the first channel, and b may go there; a transaction has one event, so that only two transactions take two; what may
// miss the channel follows what has to go there, wherever it stands in the batch
by-state
mapped a 0
may-get b 0
most 1
$ 10 10 10
event a 1
event b 2
put taken
gives 0 [state=a]1
gives 0 [state=b]2
empty 0
event b 3
event a 4
put taken
gives 0 [state=a]4
gives 0 [state=b]3
empty 0
event a 5
event a 6
put txn-full 0 1
empty 0
event b 7
event b 8
put taken
empty 0
sizes 0 0 0"#;

#[test]
fn batches_come_into_channels_that_may_be_on_a_disk(rt: HostRuntime) -> Result<(), Fail> {
    pass::<Intakes>(rt.alloc(), PLAIN_AND_ON_DISK)
}

const HANDED_IN: &str = "An object that is handed in goes on as it then is.
first-only
plain 10 10 10
event CZ x
put taken
event CZ x
put taken
sizes 1 1 1";

#[test]
fn an_object_that_is_handed_in_goes_on(rt: HostRuntime) -> Result<(), Fail> {
    pass::<Intakes>(rt.alloc(), HANDED_IN)
}
