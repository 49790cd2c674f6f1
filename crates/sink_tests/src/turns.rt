// Turns of sinks over a channel.
use crate::sinks::Sinks;
use scenarios::pass;
use std::test::Fail;

const TURNS: &str = r#"Two events are taken out at a time, once they are delivered.
in-memory 5
put a
put b
put c
roll 0
turn 7 2 delivered 2
turn 7 2 delivered 1
turn 7 2 empty
left 0
files 7-1:a\nb\nc\n

The begin, a write and the flush fail: each time all is there again, and it comes whole into the next file.
in-memory 5
put a
put b
put c
roll 0 0 4 12
turn 7 5 refused
turn 7 5 refused
turn 7 5 refused
turn 7 5 delivered 3
turn 7 5 empty
left 0
files 7-2:a\n7-3:a\nb\nc\n7-4:a\nb\nc\n

The channel does not give a batch in one transaction.
in-memory 2
put a
put b
put c
roll 0
turn 7 5 txn-full 2
left 3
files

A turn takes no further event once it has 16,777,216 bytes. An event's size is its body's and eight bytes.
in-memory 5
put-large 16777208
put y
put z
null
turn 7 5 delivered 1
turn 7 5 delivered 2
left 0

A boxed group is a sink: of two folders by turns, the first fails at its first call and the second at its eighth.
in-memory 5
put a
put b
put c
member 0
member 7
backoff
boxed-group round-robin 0 0
turn 7 2 delivered 2
faults 1
left 1
turn 8 2 refused
faults 3
left 1
turn 2008 2 delivered 1
faults 3
left 0
turn 2009 2 empty
faults 3
left 0

The last sync of a commit fails: the events were delivered, and no caller can know whether a crash would leave them taken.
failing-on-disk
roll 0
turn 7 5 in-doubt
// until it is reopened the channel begins no transaction
turn 7 5 broken
files 7-1:a\nb\n"#;

#[test]
fn events_are_taken_out_once_they_are_delivered(rt: HostRuntime) -> Result<(), Fail> {
    pass::<Sinks>(rt.alloc(), TURNS)
}
