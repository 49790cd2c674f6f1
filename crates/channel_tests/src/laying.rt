// Checkpoints that a channel lays of itself.
use crate::scene::Channels;
use scenarios::pass;
use std::test::Fail;

const SPELLED: &str =
    r#"A checkpoint that is laid in the life that wrote its events says where they stand.
limits 10 10 1000
on-disk
begin-put > token 1
put 1 a > done
commit-put 1 > first 0
begin-put > token 2
put 2 b > done
commit-put 2 > first 1
checkpoint > done
close
// the commit byte, the mark and its form, and the place
holds check-1 0 \x01FLUMECHK\0\0\0\x01\0\0\0\x01\0\0\0\0\0\0\0\x72
// the next numbers, and how many events are left
holds check-1 25 \0\0\0\0\0\0\0\x02\0\0\0\0\0\0\0\x03\0\0\0\x02
// each event's number, file, offset and length
holds check-1 45 \0\0\0\0\0\0\0\0\0\0\0\x01\0\0\0\0\0\0\0\x11\0\0\0\x09
holds check-1 69 \0\0\0\0\0\0\0\x01\0\0\0\x01\0\0\0\0\0\0\0\x42\0\0\0\x09
// no transaction is open
holds check-1 93 \0\0\0\0\0\0\0\0
long check-1 101
long check-2 none
on-disk
gives ab"#;

const OPEN: &str =
    r#"A put and a take are open across a checkpoint, and the log goes on in two further files before they are committed.
on-disk
begin-put > token 1
put 1 a > done
begin-put > token 2
put 2 b > done
put 2 c > done
commit-put 2 > first 0
begin-take > token 3
take 3 > event b
checkpoint > done
begin-put > token 4
put 4 d > done
commit-put 4 > first 2
begin-put > token 5
put 5 e > done
commit-put 5 > first 3
commit-take 3 > first 0
commit-put 1 > first 4
close
long check-1 149
holds 4 0 FLUMELOG
on-disk
gives cdea

What is open at the end is dropped, also where its checkpoint is the newest.
on-disk
begin-put > token 1
put 1 a > done
begin-put > token 2
put 2 b > done
commit-put 2 > first 0
begin-take > token 3
take 3 > event b
checkpoint > done
close
on-disk
begin-put > token 4
gives b"#;

const CALLED: &str = r#"What is staged is settled first.
limits 10 10 1000
on-disk
begin-put > token 1
put 1 a > done
stage-put 1 > first 0
asked > not-settled
checkpoint > done
asked > settled
size > count 1
checkpoint > done
close
long check-1 77
long check-2 77
on-disk
gives a

The next number is one above the greatest, also where that file is passed over.
check 7 \x01
check 3 \0
on-disk
checkpoint > done
close
long check-7 1
long check-8 53

No number is left after the last one. What is staged stays so.
check 4294967295 \0
on-disk
begin-put > token 1
put 1 a > done
stage-put 1 > first 0
checkpoint > spent-check
asked > not-settled
flush > done
checkpoint > spent-check

A channel that was opened anew goes on with its numbers.
on-disk
checkpoint > done
reopen > done
checkpoint > done
close
long check-1 53
long check-2 53
long check-3 none"#;

const FAILING: &str =
    r#"Where the checkpoint's own file fails, what was staged is settled, the channel goes on and the number is used up, for 0, 1, 2, 3, 4, 5, 6
on-disk
begin-put > token 1
put 1 a > done
stage-put 1 > first 0
flush > done
close
note
fails-after-noted $
on-disk
begin-put > token 1
put 1 a > done
stage-put 1 > first 0
checkpoint > check-fault
asked > settled
size > count 1
begin-put > token 2
put 2 b > done
commit-put 2 > first 1
checkpoint > done
close
long check-3 none
holds check-2 0 \x01FLUMECHK
on-disk
gives ab

Where the flush fails, nothing is laid and the channel is broken.
fails 1
on-disk
begin-put > token 1
put 1 a > done
stage-put 1 > first 0
checkpoint > disk-fault
checkpoint > broken
close
long check-1 none"#;

// The checkpoint of two lines, with another next number of an event.
const SPENT: &str =
    r#"No number is left for an event. A put that is not staged is still open, and one of nothing is staged.
limits 10 10 1000
log 1 header 1 1 1, gate 1, put 1 a, commit-put 1 0 1, end 2, gate 1, put 2 b, commit-put 2 1 1, end 2, gate 0
check 1 \x01FLUMECHK\0\0\0\x01\0\0\0\x01\0\0\0\0\0\0\0\x72\xff\xff\xff\xff\xff\xff\xff\xff\0\0\0\0\0\0\0\x03\0\0\0\x02\0\0\0\0\0\0\0\0\0\0\0\x01\0\0\0\0\0\0\0\x11\0\0\0\x09\0\0\0\0\0\0\0\x01\0\0\0\x01\0\0\0\0\0\0\0\x42\0\0\0\x09\0\0\0\0\0\0\0\0
on-disk
begin-put > token 3
put 3 c > done
stage-put 3 > spent-number
commit-put 3 > spent-number
rollback-put 3 > ended
rollback-put 3 > not-open
begin-put > token 4
stage-put 4 > first 18446744073709551615
gives ab

One is left, and is not enough for two.
limits 10 10 1000
log 1 header 1 1 1, gate 1, put 1 a, commit-put 1 0 1, end 2, gate 1, put 2 b, commit-put 2 1 1, end 2, gate 0
check 1 \x01FLUMECHK\0\0\0\x01\0\0\0\x01\0\0\0\0\0\0\0\x72\xff\xff\xff\xff\xff\xff\xff\xfe\0\0\0\0\0\0\0\x03\0\0\0\x02\0\0\0\0\0\0\0\0\0\0\0\x01\0\0\0\0\0\0\0\x11\0\0\0\x09\0\0\0\0\0\0\0\x01\0\0\0\x01\0\0\0\0\0\0\0\x42\0\0\0\x09\0\0\0\0\0\0\0\0
on-disk
begin-put > token 3
put 3 c > done
put 3 d > done
stage-put 3 > spent-number
rollback-put 3 > ended
begin-put > token 4
put 4 e > done
commit-put 4 > first 18446744073709551614
begin-put > token 5
put 5 f > done
stage-put 5 > spent-number
rollback-put 5 > ended
gives abe
close
on-disk
gives abe"#;

#[test]
fn a_checkpoint_says_what_is_left(rt: HostRuntime) -> Result<(), Fail> {
    pass::<Channels>(rt.alloc(), SPELLED)
}

#[test]
fn transactions_are_open_across_a_checkpoint(rt: HostRuntime) -> Result<(), Fail> {
    pass::<Channels>(rt.alloc(), OPEN)
}

#[test]
fn checkpoints_have_numbers(rt: HostRuntime) -> Result<(), Fail> {
    pass::<Channels>(rt.alloc(), CALLED)
}

#[test]
fn numbers_of_events_end(rt: HostRuntime) -> Result<(), Fail> {
    pass::<Channels>(rt.alloc(), SPENT)
}

#[test]
fn a_checkpoint_fails(rt: HostRuntime) -> Result<(), Fail> {
    pass::<Channels>(rt.alloc(), FAILING)
}
