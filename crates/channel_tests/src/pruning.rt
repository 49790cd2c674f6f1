// A channel removes the files that its newest checkpoint does not need.
use crate::scene::Channels;
use scenarios::pass;
use std::test::Fail;

const REMOVED: &str =
    r#"A put is open across a checkpoint, a further file and a prune. Its file is kept, and so is what it names.
limits 10 10 66
on-disk
begin-put > token 1
put 1 a > done
commit-put 1 > first 0
begin-take > token 2
take 2 > event a
commit-take 2 > first 0
begin-put > token 3
put 3 b > done
begin-put > token 4
put 4 c > done
commit-put 4 > first 1
checkpoint > done
begin-put > token 5
put 5 d > done
commit-put 5 > first 2
prune > count 2
prune > count 0
commit-put 3 > first 3
close
long 1 none
long 2 none
holds 3 0 FLUMELOG
holds 5 0 FLUMELOG
on-disk
gives cdb

A second checkpoint needs neither the first one nor the files that only this one named.
limits 10 10 66
on-disk
begin-put > token 1
put 1 a > done
commit-put 1 > first 0
checkpoint > done
begin-put > token 2
put 2 b > done
commit-put 2 > first 1
begin-take > token 3
take 3 > event a
commit-take 3 > first 0
checkpoint > done
prune > count 2
close
long check-1 none
holds check-2 0 \x01FLUMECHK
long 1 none
holds 2 0 FLUMELOG
on-disk
gives b

Without a checkpoint nothing is removed.
on-disk
begin-put > token 1
put 1 a > done
commit-put 1 > first 0
prune > count 0
close
holds 1 0 FLUMELOG
on-disk
gives a"#;

const KNOWN: &str =
    r#"An opening knows the newest checkpoint of its folder, and what this one needs.
limits 10 10 66
on-disk
begin-put > token 1
put 1 a > done
commit-put 1 > first 0
begin-take > token 2
take 2 > event a
commit-take 2 > first 0
begin-put > token 3
put 3 b > done
commit-put 3 > first 1
checkpoint > done
close
holds 1 0 FLUMELOG
on-disk
prune > count 2
begin-put > token 4
put 4 c > done
commit-put 4 > first 2
reopen > done
prune > count 0
close
long 2 none
holds 3 0 FLUMELOG
on-disk
gives bc

A checkpoint whose file failed is not the one that counts, for 0, 1, 2, 3, 4, 5, 6
limits 10 10 66
on-disk
begin-put > token 1
put 1 a > done
commit-put 1 > first 0
checkpoint > done
begin-put > token 2
put 2 b > done
commit-put 2 > first 1
begin-take > token 3
take 3 > event a
commit-take 3 > first 0
close
note
fails-after-noted $
on-disk
begin-put > token 1
put 1 a > done
commit-put 1 > first 0
checkpoint > done
begin-put > token 2
put 2 b > done
commit-put 2 > first 1
begin-take > token 3
take 3 > event a
commit-take 3 > first 0
checkpoint > check-fault
prune > count 0
checkpoint > done
close
holds check-1 0 \x01FLUMECHK
holds 1 0 FLUMELOG
on-disk
gives b"#;

#[test]
fn files_that_no_checkpoint_needs_are_removed(rt: HostRuntime) -> Result<(), Fail> {
    pass::<Channels>(rt.alloc(), REMOVED)
}

#[test]
fn the_newest_whole_checkpoint_counts(rt: HostRuntime) -> Result<(), Fail> {
    pass::<Channels>(rt.alloc(), KNOWN)
}
