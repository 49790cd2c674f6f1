// Deliveries by groups of rolled files, of whose folders calls fail: a begin, two writes for each event, and a flush.
use crate::sinks::Sinks;
use scenarios::pass;
use std::test::Fail;

const GROUPS: &str =
    r#"After a failed begin and one more, both fail at 3,000, since the write of the other does.
member 7
member 0 1
group failover 5 10
took 1000 0
took 2999 0
all-failed 3000 1 0
all-failed 3000
took 5000 0
took 7000 1
files 1000-1:e\ne\n1000-2:e\n;1000-3:e\n;

By turns without backoff, flush, write, newline and begin of the second member fail.
member
member 3 5 8 9
member
group round-robin 0 0 0
took 0 0
took 1 2
took 2 2
took 3 0
took 4 2
took 5 2
took 6 0
took 7 2
took 8 2
took 9 0
took 10 2
files 0-1:e\ne\ne\ne\n;1-1:e\n1-2:1-3:e;1-1:e\ne\ne\ne\ne\ne\ne\n;

A group has one member.
member 0 3
group single 0
all-failed 9 0
all-failed 9 0
took 9 0
files 9-2:e9-3:e\n;

A group is a sink: the second member takes what the first refuses, and where both refuse, the group does, and counts that too.
member 0 1
member 4
group-sink failover 1 0
delivers 1000 e
faults 1
refuses 3000 e
faults 4
refuses 3000 e
faults 5
delivers 5000 e
faults 5
files ;1000-1:e\n1000-2:e\n;"#;

#[test]
fn one_member_takes_each_batch(rt: HostRuntime) -> Result<(), Fail> {
    pass::<Sinks>(rt.alloc(), GROUPS)
}
