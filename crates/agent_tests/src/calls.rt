// Avro sources of an agent, whose links make calls by a script. The input, which nobody reads, ends once the reply to the handshake
// of a second link is written.
use crate::running::pass;
use std::test::Fail;

const CALLS: &str = r#"Calls behind a handshake.
use CALLED
use IN_MEMORY
listen 4545
link HELLO APPEND BATCH
link HELLO sets 0
input-held 3 0
run agent -n a -f x.conf
status 0
said
links 4545 HELLO_REPLY+APPENDED+BATCH_TAKEN HELLO_REPLY
writes {"CHANNEL.c1":{"ChannelCapacity":"100","ChannelSize":"0","EventPutAttemptCount":"3","EventPutSuccessCount":"3","EventTakeAttemptCount":"<4>","EventTakeSuccessCount":"3"}}\n
rolled

The same into a channel on a disk.
use CALLED
use CALLED_ON_DISK
listen 4545
link HELLO APPEND BATCH
link HELLO sets 0
input-held 3 0
run agent -n a -f x.conf
status 0
said
links 4545 HELLO_REPLY+APPENDED+BATCH_TAKEN HELLO_REPLY
writes {"CHANNEL.c1":{"ChannelCapacity":"1000000","ChannelSize":"0","EventPutAttemptCount":"3","EventPutSuccessCount":"3","EventTakeAttemptCount":"<4>","EventTakeSuccessCount":"3"}}\n
rolled 5000-1=a\nx\ny\n

Headers with their size.
use CALLED
use CALLED_ON_DISK
listen 4545
link HELLO APPEND_SIZED
link HELLO sets 0
input-held 3 0
run agent -n a -f x.conf
status 0
said
links 4545 HELLO_REPLY+APPENDED HELLO_REPLY
writes {"CHANNEL.c1":{"ChannelCapacity":"1000000","ChannelSize":"0","EventPutAttemptCount":"1","EventPutSuccessCount":"1","EventTakeAttemptCount":"<2>","EventTakeSuccessCount":"1"}}\n
rolled 5000-1=a\n

A hash that is not known, and then its text.
use CALLED
use CALLED_ON_DISK
listen 4545
link STRANGE TOLD PROTOCOL TOLD_END
link HELLO sets 0
input-held 3 0
run agent -n a -f x.conf
status 0
said
links 4545 NONE+PROTOCOL+NONE_END+TOLD_REPLY HELLO_REPLY
writes {"CHANNEL.c1":{"ChannelCapacity":"1000000","ChannelSize":"0","EventPutAttemptCount":"2","EventPutSuccessCount":"2","EventTakeAttemptCount":"<3>","EventTakeSuccessCount":"2"}}\n
rolled 5000-1=x\ny\n

A batch for which the channel has no room.
use CALLED
use IN_MEMORY
a.channels.c1.capacity = 1
listen 4545
link HELLO BATCH
link HELLO sets 0
input-held 3 0
run agent -n a -f x.conf
status 0
said
links 4545 HELLO_REPLY+BATCH_FAILED HELLO_REPLY
writes {"CHANNEL.c1":{"ChannelCapacity":"1","ChannelSize":"0","EventPutAttemptCount":"2","EventPutSuccessCount":"0","EventTakeAttemptCount":"<0>","EventTakeSuccessCount":"0"}}\n
rolled"#;

#[test]
fn an_avro_source_answers_calls(rt: HostRuntime) -> Result<(), Fail> {
    pass(&rt, rt.alloc(), CALLS)
}

const BOTH: &str =
    r#"The first link of the Avro source makes its call once the line of the netcat source's link was answered.
use CALLED
use CALLED_ON_DISK
a.sources = m n
a.sources.m.type = netcat
a.sources.m.bind = localhost
a.sources.m.port = 44444
a.sources.m.threads = 1
a.sources.m.channels = c1
listen 4545
link wait:1 HELLO APPEND
link HELLO sets 0
listen 44444
link x\n sets 1
input-held 3 0
run agent -n a -f x.conf
status 0
said
links 4545 HELLO_REPLY+APPENDED HELLO_REPLY
links 44444 OK\n
writes {"CHANNEL.c1":{"ChannelCapacity":"1000000","ChannelSize":"0","EventPutAttemptCount":"2","EventPutSuccessCount":"2","EventTakeAttemptCount":"<3>","EventTakeSuccessCount":"2"}}\n
rolled 5000-1=x\na\n"#;

#[test]
fn lines_and_calls_go_into_one_channel(rt: HostRuntime) -> Result<(), Fail> {
    pass(&rt, rt.alloc(), BOTH)
}
