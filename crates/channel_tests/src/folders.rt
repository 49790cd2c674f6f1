// Folders that were written before, and what a channel that opens them answers and leaves.
use crate::scene::Channels;
use scenarios::pass;
use std::test::Fail;

const FOLDERS: &str = r#"A full file is followed by the next, and events are taken in a second life.
limits 10 10 66
on-disk
begin-put > token 1
put 1 a > done
commit-put 1 > first 0
begin-put > token 2
put 2 b > done
begin-put > token 3
put 3 c > done
commit-put 2 > first 1
put 3 d > done
commit-put 3 > first 2
begin-take > token 4
take 4 > event a
take 4 > event b
take 4 > event c
take 4 > event d
rollback-take 4 > ended
close
holds 1 0 FLUMELOG\0\x01\0\x01\0\0\0\x01
holds 1 16 \x01\x01\0\0\0\0\0\0\0\x01\0\0\0\x09\0\0\0\0\0\0\0\x01a
holds 1 39 \x04\0\0\0\0\0\0\0\x01\0\0\0\0\0\0\0\0\0\0\0\x01\x06\0\0\0\x02
holds 1 65 \0
long 1 66
holds 2 0 FLUMELOG\0\x01\0\x02\0\0\0\x02
holds 2 16 \x01\x01\0\0\0\0\0\0\0\x02\0\0\0\x09\0\0\0\0\0\0\0\x01b
holds 2 39 \x01\0\0\0\0\0\0\0\x03\0\0\0\x09\0\0\0\0\0\0\0\x01c
holds 2 61 \x04\0\0\0\0\0\0\0\x02\0\0\0\0\0\0\0\x01\0\0\0\x01\x06\0\0\0\x03
holds 2 87 \0
long 2 88
holds 3 0 FLUMELOG\0\x01\0\x02\0\0\0\x03
holds 3 16 \x01\x01\0\0\0\0\0\0\0\x03\0\0\0\x09\0\0\0\0\0\0\0\x01d
holds 3 39 \x04\0\0\0\0\0\0\0\x03\0\0\0\0\0\0\0\x02\0\0\0\x02\x06\0\0\0\x02
holds 3 65 \0
long 3 66
on-disk
begin-take > token 4
take 4 > event a
take 4 > event b
take 4 > event c
take 4 > event d
take 4 > no-event
commit-take 4 > first 0
size > count 0
close
// the commit begins one more file after the one of that life
holds 1 0 FLUMELOG\0\x01\0\x01\0\0\0\x01
holds 1 16 \x01\x01\0\0\0\0\0\0\0\x01\0\0\0\x09\0\0\0\0\0\0\0\x01a
holds 1 39 \x04\0\0\0\0\0\0\0\x01\0\0\0\0\0\0\0\0\0\0\0\x01\x06\0\0\0\x02
holds 1 65 \0
long 1 66
long 4 104

Lines are put in two lives.
limits 10 10 1000000
on-disk
begin-put > token 1
put 1 a > done
commit-put 1 > first 0
begin-put > token 2
put 2 b > done
commit-put 2 > first 1
close
holds 1 0 FLUMELOG\0\x01\0\x01\0\0\0\x01
holds 1 16 \x01\x01\0\0\0\0\0\0\0\x01\0\0\0\x09\0\0\0\0\0\0\0\x01a
holds 1 39 \x04\0\0\0\0\0\0\0\x01\0\0\0\0\0\0\0\0\0\0\0\x01\x06\0\0\0\x02
holds 1 65 \x01\x01\0\0\0\0\0\0\0\x02\0\0\0\x09\0\0\0\0\0\0\0\x01b
holds 1 88 \x04\0\0\0\0\0\0\0\x02\0\0\0\0\0\0\0\x01\0\0\0\x01\x06\0\0\0\x02
holds 1 114 \0
long 1 115
on-disk
begin-put > token 3
put 3 c > done
commit-put 3 > first 2
begin-take > token 4
take 4 > event a
take 4 > event b
take 4 > event c
take 4 > no-event
close
holds 1 0 FLUMELOG\0\x01\0\x01\0\0\0\x01
holds 1 16 \x01\x01\0\0\0\0\0\0\0\x01\0\0\0\x09\0\0\0\0\0\0\0\x01a
holds 1 39 \x04\0\0\0\0\0\0\0\x01\0\0\0\0\0\0\0\0\0\0\0\x01\x06\0\0\0\x02
holds 1 65 \x01\x01\0\0\0\0\0\0\0\x02\0\0\0\x09\0\0\0\0\0\0\0\x01b
holds 1 88 \x04\0\0\0\0\0\0\0\x02\0\0\0\0\0\0\0\x01\0\0\0\x01\x06\0\0\0\x02
holds 1 114 \0
long 1 115
holds 2 0 FLUMELOG\0\x01\0\x01\0\0\0\x02
holds 2 16 \x01\x01\0\0\0\0\0\0\0\x03\0\0\0\x09\0\0\0\0\0\0\0\x01c
holds 2 39 \x04\0\0\0\0\0\0\0\x03\0\0\0\0\0\0\0\x02\0\0\0\x01\x06\0\0\0\x02
holds 2 65 \0
long 2 66

A file of 17 bytes counts as empty.
limits 10 10 1000000
log 1 garbage 17
on-disk
size > count 0
close
long 2 17

The last log file is begun, and its length passes the most for a file.
limits 10 10 66
log 4294967294 garbage 17
on-disk
begin-put > token 1
put 1 a > done
commit-put 1 > first 0
begin-put > token 2
put 2 b > spent-file
size > count 1

The second sync of a flush fails, after which the channel is opened anew, and the token of the open transaction is stale.
limits 10 10 1000000
fails 3
on-disk
begin-put > token 1
begin-put > token 2
put 1 a > done
put 2 b > done
stage-put 1 > first 0
flush > disk-fault
asked > in-doubt
reopen > done
mended 1
asked > in-doubt
put 2 c > stale
rollback-put 2 > not-open"#;

#[test]
fn folders_are_opened(rt: HostRuntime) -> Result<(), Fail> {
    pass::<Channels>(rt.alloc(), FOLDERS)
}

const REFUSED: &str = r#"One byte stands after an open commit byte.
limits 10 10 1000000
log 1 header 1 1 1, gate 1, garbage 1
refused bad-log 1 16

END counts one record too many.
limits 10 10 1000000
log 1 header 1 1 1, gate 1, put 1 a, commit-put 1 0 1, end 3, gate 0
refused bad-log 1 16

A transaction that is not open is committed.
limits 10 10 1000000
log 1 header 1 1 1, gate 1, commit-put 5 0 1, end 1, gate 0
refused bad-log 1 17

No number is left for a log file.
limits 10 10 1000000
log 4294967295 garbage 17
refused spent-file

There are more events than the capacity.
limits 1 10 1000000
log 1 header 1 1 1, gate 1, put 1 a, commit-put 1 0 1, end 2, gate 1, put 2 b, commit-put 2 1 1, end 2, gate 0
refused over-capacity 2

A checkpoint is there.
limits 10 10 1000000
check 3 \x01x
refused bad-check 3 1"#;

#[test]
fn a_folder_is_refused_for_its_cause(rt: HostRuntime) -> Result<(), Fail> {
    pass::<Channels>(rt.alloc(), REFUSED)
}

// A checkpoint is passed over that has no byte after an open commit byte.
const PASSED: &str = r#"An empty checkpoint is passed over.
limits 10 10 1000000
check 3
on-disk
size > count 0

So is one of an open commit byte alone, and one whose commit byte is closed, for \x01, \x00x, \xffx
limits 10 10 1000000
check 3 $
on-disk
size > count 0"#;

#[test]
fn a_checkpoint_is_passed_over(rt: HostRuntime) -> Result<(), Fail> {
    pass::<Channels>(rt.alloc(), PASSED)
}

// How many events of one frame are taken one after another, and how many reads of the disk that takes. A block of 65,536 bytes is
// read at a time, from the PUT of the first event on that it has to give; of 22 bytes for each PUT it has 2,978.
const TAKEN: &str = r#"0 events are taken with 0 reads.
limits 10000 10000 1000000
long-log 1 6000
on-disk
close
note
long-log 1 6000
on-disk
begin-take > token 2
take-many 2 0 > done
close
more-calls 0

1 events are taken with 1 reads.
limits 10000 10000 1000000
long-log 1 6000
on-disk
close
note
long-log 1 6000
on-disk
begin-take > token 2
take-many 2 1 > done
close
more-calls 1

100 events are taken with 1 reads.
limits 10000 10000 1000000
long-log 1 6000
on-disk
close
note
long-log 1 6000
on-disk
begin-take > token 2
take-many 2 100 > done
close
more-calls 1

2978 events are taken with 1 reads.
limits 10000 10000 1000000
long-log 1 6000
on-disk
close
note
long-log 1 6000
on-disk
begin-take > token 2
take-many 2 2978 > done
close
more-calls 1

2979 events are taken with 2 reads.
limits 10000 10000 1000000
long-log 1 6000
on-disk
close
note
long-log 1 6000
on-disk
begin-take > token 2
take-many 2 2979 > done
close
more-calls 2

5956 events are taken with 2 reads.
limits 10000 10000 1000000
long-log 1 6000
on-disk
close
note
long-log 1 6000
on-disk
begin-take > token 2
take-many 2 5956 > done
close
more-calls 2

5957 events are taken with 3 reads.
limits 10000 10000 1000000
long-log 1 6000
on-disk
close
note
long-log 1 6000
on-disk
begin-take > token 2
take-many 2 5957 > done
close
more-calls 3"#;

#[test]
fn events_of_one_block_are_taken_with_one_read(rt: HostRuntime) -> Result<(), Fail> {
    pass::<Channels>(rt.alloc(), TAKEN)
}
