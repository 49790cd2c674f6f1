// Agents with groups of sinks of rolled files, some calls of which fail: the first of a folder begins a file. A channel has one worker of
// the group beside that of the source, and none of a sink.
use crate::running::pass;
use std::test::Fail;

const GROUPS: &str = r#"The sink of the highest priority takes all.
use GROUPED
a.sinkgroups.g.processor.type = failover
a.sinkgroups.g.processor.priority.k1 = 5
a.sinkgroups.g.processor.priority.k2 = 10
input x\ny\n
run agent -n a -f x.conf
status 0
said
workers 2
worker c1 sinkgroups.g 0
rolled-in o1
rolled-in o2 5000-1=x\ny\n
rolled-in o3
writes OK\nOK\n{"CHANNEL.c1":{"ChannelCapacity":"100","ChannelSize":"0","EventPutAttemptCount":"2","EventPutSuccessCount":"2","EventTakeAttemptCount":"<1>","EventTakeSuccessCount":"2"}}\n

It fails, and is left alone then.
use GROUPED
a.sinkgroups.g.processor.type = failover
a.sinkgroups.g.processor.priority.k1 = 5
a.sinkgroups.g.processor.priority.k2 = 10
roll o2 0
input x\ny\n
run agent -n a -f x.conf
status 0
said
workers 2
worker c1 sinkgroups.g 0
rolled-in o1 5000-1=x\ny\n
rolled-in o2
rolled-in o3
writes OK\nOK\n{"CHANNEL.c1":{"ChannelCapacity":"100","ChannelSize":"0","EventPutAttemptCount":"2","EventPutSuccessCount":"2","EventTakeAttemptCount":"<1>","EventTakeSuccessCount":"2"}}\n

All fail, and are left alone.
use GROUPED
a.sinkgroups.g.processor.type = failover
a.sinkgroups.g.processor.priority.k1 = 5
a.sinkgroups.g.processor.priority.k2 = 10
roll o1 0
roll o2 0
roll o3 0
input x\ny\n
run agent -n a -f x.conf
status 0
said
workers 2
worker c1 sinkgroups.g 0
rolled-in o1
rolled-in o2
rolled-in o3
writes OK\nOK\n{"CHANNEL.c1":{"ChannelCapacity":"100","ChannelSize":"2","EventPutAttemptCount":"2","EventPutSuccessCount":"2","EventTakeAttemptCount":"<1>","EventTakeSuccessCount":"0"}}\n

It fails, and is not left alone.
use GROUPED
a.sinkgroups.g.processor.type = failover
a.sinkgroups.g.processor.priority.k1 = 5
a.sinkgroups.g.processor.priority.k2 = 10
a.sinkgroups.g.processor.maxpenalty = 0
roll o2 0
input x\ny\n
run agent -n a -f x.conf
status 0
said
workers 2
worker c1 sinkgroups.g 0
rolled-in o1 5000-1=x\n
rolled-in o2 5000-2=y\n
rolled-in o3
writes OK\nOK\n{"CHANNEL.c1":{"ChannelCapacity":"100","ChannelSize":"0","EventPutAttemptCount":"2","EventPutSuccessCount":"2","EventTakeAttemptCount":"<1>","EventTakeSuccessCount":"2"}}\n

Round robin, while the second always fails.
use GROUPED
a.sinkgroups.g.processor.type = load_balance
roll o2 0 1 2 3
input p\nq\nr\ns\n
run agent -n a -f x.conf
status 0
said
workers 2
worker c1 sinkgroups.g 0
rolled-in o1 5000-1=p\ns\n
rolled-in o2
rolled-in o3 5000-1=q\nr\n
writes OK\nOK\nOK\nOK\n{"CHANNEL.c1":{"ChannelCapacity":"100","ChannelSize":"0","EventPutAttemptCount":"4","EventPutSuccessCount":"4","EventTakeAttemptCount":"<1>","EventTakeSuccessCount":"4"}}\n

Round robin, where one that failed is left alone.
use GROUPED
a.sinkgroups.g.processor.type = load_balance
a.sinkgroups.g.processor.backoff = true
roll o3 0
input p\nq\nr\ns\n
run agent -n a -f x.conf
status 0
said
workers 2
worker c1 sinkgroups.g 0
rolled-in o1 5000-1=p\nr\ns\n
rolled-in o2 5000-1=q\n
rolled-in o3
writes OK\nOK\nOK\nOK\n{"CHANNEL.c1":{"ChannelCapacity":"100","ChannelSize":"0","EventPutAttemptCount":"4","EventPutSuccessCount":"4","EventTakeAttemptCount":"<1>","EventTakeSuccessCount":"4"}}\n

By chance.
use GROUPED
a.sinkgroups.g.processor.type = load_balance
a.sinkgroups.g.processor.selector = random
draw 5
input x\ny\n
run agent -n a -f x.conf
status 0
said
workers 2
worker c1 sinkgroups.g 0
rolled-in o1
rolled-in o2
rolled-in o3 5000-1=x\ny\n
writes OK\nOK\n{"CHANNEL.c1":{"ChannelCapacity":"100","ChannelSize":"0","EventPutAttemptCount":"2","EventPutSuccessCount":"2","EventTakeAttemptCount":"<1>","EventTakeSuccessCount":"2"}}\n"#;

#[test]
fn groups_choose_among_their_sinks(rt: HostRuntime) -> Result<(), Fail> {
    pass(&rt, rt.alloc(), GROUPS)
}
