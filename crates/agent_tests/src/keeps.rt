// Checkpoints of an agent. A clock comes to the end of its first second at once; then its next pause sets the flag that the input waits
// for, and is slow. So a channel with the least interval is kept once before the input is read.
use crate::running::pass;
use std::test::Fail;

const INTERVAL: &str =
    r#"A channel on a disk has a checkpoint after its interval, and the line after it is not in that.
use UNTAKEN
a.channels.c1.checkpointInterval = 1000
input a\n
input-held 0 1
long-pause-sets 1
run agent -n a -f x.conf
status 0
said
disk-faults 0
workers 3
worker c1 channels.c1 0
worker c1 sources.r 0
worker c2 sinks.k 0
begins OK\n
file check 1 = some
left a\n
then
use UNTAKEN
input b\n
run agent -n a -f x.conf
status 0
said
file check 1 = some
left a\nb\n

Before its interval it has none.
use UNTAKEN
a.channels.c1.checkpointInterval = 86400000
input a\n
input-held 0 1
long-pause-sets 1
run agent -n a -f x.conf
status 0
said
begins OK\n
file check 1 = none
left a\n

A checkpoint whose file can't be made changes no status.
use UNTAKEN
a.channels.c1.checkpointInterval = 1000
fails 9
input a\n
input-held 0 1
long-pause-sets 1
run agent -n a -f x.conf
status 0
said
disk-faults 1
begins OK\n
left a\n"#;

#[test]
fn a_channel_is_kept_after_its_interval(rt: HostRuntime) -> Result<(), Fail> {
    pass(&rt, rt.alloc(), INTERVAL)
}

const CLOSE: &str = r#"A channel is kept at the end.
use UNTAKEN
swap OnClose = false => OnClose = true
input a\n
run agent -n a -f x.conf
status 0
said
begins OK\n
file check 1 = some
left a\n
note
noted-in 16 40
then
use UNTAKEN
swap OnClose = false => OnClose = true
input b\n
run agent -n a -f x.conf
status 0
said
file check 1 = none
file check 2 = some
left a\nb\n

After an interval it has the next one then.
use UNTAKEN
swap OnClose = false => OnClose = true
a.channels.c1.checkpointInterval = 1000
input a\n
input-held 0 1
long-pause-sets 1
run agent -n a -f x.conf
status 0
said
begins OK\n
file check 1 = none
file check 2 = some
left a\n

Each call of it fails in turn, for 13, 14, 15, 16, 17, 18, 19, 20, 21, 22, 23, 24
use UNTAKEN
swap OnClose = false => OnClose = true
fails $
input a\n
run agent -n a -f x.conf
status 0
said
begins OK\n
left a\n

A channel that was broken is mended after it, and no status changes.
use UNTAKEN
swap OnClose = false => OnClose = true
fails 10 11
input a\n
run agent -n a -f x.conf
status 0
said
disk-faults 1
begins FAILED: channel in doubt\n
file check 1 = none
left -"#;

#[test]
fn a_channel_is_kept_at_the_end(rt: HostRuntime) -> Result<(), Fail> {
    pass(&rt, rt.alloc(), CLOSE)
}
