// Worked examples of channels: the plain one, the one in memory and the one on a disk.
use crate::scene::Channels;
use scenarios::pass;
use std::test::Fail;

const TURNS: &str =
    r#"A channel with room for two events is full until a taker has committed, for plain, on-disk
limits 2 10 1000000
$
begin-put > token 1
put 1 a > done
put 1 b > done
put 1 c > full 2
commit-put 1 > first 0
begin-take > token 2
take 2 > event a
begin-put > token 3
put 3 c > full 2
commit-take 2 > first 0
put 3 c > done
size > count 1

So it is with files of at most 1,000 bytes.
limits 2 10 1000
plain
begin-put > token 1
put 1 a > done
put 1 b > done
put 1 c > full 2
commit-put 1 > first 0
begin-take > token 2
take 2 > event a
begin-put > token 3
put 3 c > full 2
commit-take 2 > first 0
put 3 c > done
size > count 1

Two transactions commit the other way round, and two takers roll back the other way round, for plain, plain-as-in-memory, in-memory, on-disk
limits 10 10 1000000
$
begin-put > token 1
begin-put > token 2
put 1 x > done
put 2 y > done
commit-put 2 > first 0
commit-put 1 > first 1
asked > settled
begin-take > token 3
begin-take > token 4
take 3 > event y
take 4 > event x
take 3 > no-event
rollback-take 4 > ended
rollback-take 3 > ended
take 4 > stale
begin-take > token 5
take 5 > event y
take 5 > event x
commit-take 5 > first 0
size > count 0
capacity > count 10
put-attempts > count 2
put-successes > count 2
take-attempts > count 6
take-successes > count 2

The second sync of a flush fails: the commit is in doubt, and the channel is broken.
limits 10 10 1000000
// the flush writes, syncs, writes and syncs
fails 3
on-disk
begin-put > token 1
begin-put > token 2
put 1 a > done
put 2 b > done
commit-put 1 > in-doubt
put 2 c > broken
begin-put > broken
flush > broken
rollback-put 2 > ended
rollback-put 2 > not-open
size > count 0

So with a stage and a flush, whose ticket stays in doubt.
limits 10 10 1000000
fails 3
on-disk
begin-put > token 1
put 1 a > done
stage-put 1 > first 0
asked > not-settled
flush > disk-fault
asked > in-doubt
put 1 a > stale

The read of an event fails, which is still there.
limits 10 10 1000000
// the first call after a flush
fails 4
on-disk
begin-put > token 1
put 1 a > done
put 1 b > done
commit-put 1 > first 0
begin-take > token 2
take 2 > read-fault
size > count 2
take-attempts > count 1
take 2 > event a
take 2 > event b
take 2 > no-event
commit-take 2 > first 0
size > count 0
take-attempts > count 4
take-successes > count 2

So is one of a folder that was just opened.
limits 10 10 1000000
log 1 header 1 1 1, gate 1, put 1 a, commit-put 1 0 1, end 2, gate 1, put 2 b, commit-put 2 1 1, end 2, gate 0
on-disk
close
note
log 1 header 1 1 1, gate 1, put 1 a, commit-put 1 0 1, end 2, gate 1, put 2 b, commit-put 2 1 1, end 2, gate 0
fails-after-noted 0
on-disk
begin-take > token 3
take 3 > read-fault
size > count 2
take-attempts > count 1
take 3 > event a
take 3 > event b
take 3 > no-event
commit-take 3 > first 0
size > count 0
take-attempts > count 4
take-successes > count 2

An event has at most 1,048,576 bytes, eight of which are not its body's.
limits 10 10 1000000
on-disk
begin-put > token 1
put-bytes 1 1048568 > done
put-bytes 1 1048569 > too-large 1048577

A batch that passes the capacity is not staged.
// a transaction may have more puts than there is room for
limits 2 3 0
in-memory
begin-put > token 1
put 1 a > done
put 1 b > done
put 1 c > done
commit-put 1 > full 0
rollback-put 1 > ended
begin-put > token 2
put 2 y > done
commit-put 2 > first 0
begin-put > token 3
put 3 b > done
put 3 c > done
commit-put 3 > full 1
rollback-put 3 > ended
begin-put > token 4
put 4 x > done
commit-put 4 > first 1
begin-put > token 5
commit-put 5 > first 2
begin-take > token 6
take 6 > event y
take 6 > event x
take 6 > no-event
rollback-take 6 > ended
size > count 2
put-attempts > count 7

The plain channel keeps a journal, for plain, plain-as-in-memory
limits 10 10 1000
$
begin-put > token 1
begin-put > token 2
put 1 x > done
put 2 y > done
commit-put 2 > first 0
commit-put 1 > first 1
asked > settled
begin-take > token 3
begin-take > token 4
take 3 > event y
take 4 > event x
take 3 > no-event
rollback-take 4 > ended
rollback-take 3 > ended
take 4 > stale
begin-take > token 5
take 5 > event y
take 5 > event x
commit-take 5 > first 0
size > count 0
capacity > count 10
put-attempts > count 2
put-successes > count 2
take-attempts > count 6
take-successes > count 2
journal-of-two

So many transactions may be open.
limits 10 1 1000000
on-disk
begin-puts 1024 > done
begin-put > too-many-open 1024"#;

#[test]
fn channels_answer_as_worked_out(rt: HostRuntime) -> Result<(), Fail> {
    pass::<Channels>(rt.alloc(), TURNS)
}
