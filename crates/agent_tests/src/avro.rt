// Agents with a sink of Avro, over dialers whose links answer by a script.
use crate::running::pass;
use std::test::Fail;

// What each link of the dialer gives, read by read, and what it took.
const SENT: &str = r#"Each is answered OK.
use SENDING
use STDIN
input x\ny\n
dial REPLY_OK SECOND_OK
run agent -n a -f x.conf
status 0
said
dialed CLIENT_HELLO+PROTOCOL+CALL+x\0+SECOND+y\0
writes OK\nOK\n{"CHANNEL.c1":{"ChannelCapacity":"100","ChannelSize":"0","EventPutAttemptCount":"2","EventPutSuccessCount":"2","EventTakeAttemptCount":"<2>","EventTakeSuccessCount":"2"}}\n

OK and a byte behind it: the link is not used again.
use SENDING
use STDIN
input x\ny\n
dial REPLY_OK_AND_MORE
dial REPLY_OK
run agent -n a -f x.conf
status 0
said
dialed CLIENT_HELLO+PROTOCOL+CALL+x\0 CLIENT_HELLO+PROTOCOL+CALL+y\0
writes OK\nOK\n{"CHANNEL.c1":{"ChannelCapacity":"100","ChannelSize":"0","EventPutAttemptCount":"2","EventPutSuccessCount":"2","EventTakeAttemptCount":"<2>","EventTakeSuccessCount":"2"}}\n

FAILED.
use SENDING
use STDIN
input x\ny\n
dial REPLY_FAILED
run agent -n a -f x.conf
status 0
said
dialed CLIENT_HELLO+PROTOCOL+CALL+x\0
writes OK\nOK\n{"CHANNEL.c1":{"ChannelCapacity":"100","ChannelSize":"2","EventPutAttemptCount":"2","EventPutSuccessCount":"2","EventTakeAttemptCount":"<1>","EventTakeSuccessCount":"0"}}\n

Another serial.
use SENDING
use STDIN
input x\ny\n
dial REPLY_OTHER
run agent -n a -f x.conf
status 0
said
dialed CLIENT_HELLO+PROTOCOL+CALL+x\0
writes OK\nOK\n{"CHANNEL.c1":{"ChannelCapacity":"100","ChannelSize":"2","EventPutAttemptCount":"2","EventPutSuccessCount":"2","EventTakeAttemptCount":"<1>","EventTakeSuccessCount":"0"}}\n

The link ends before its reply is whole.
use SENDING
use STDIN
input x\ny\n
dial REPLY_CUT
run agent -n a -f x.conf
status 0
said
dialed CLIENT_HELLO+PROTOCOL+CALL+x\0
writes OK\nOK\n{"CHANNEL.c1":{"ChannelCapacity":"100","ChannelSize":"2","EventPutAttemptCount":"2","EventPutSuccessCount":"2","EventTakeAttemptCount":"<1>","EventTakeSuccessCount":"0"}}\n

No link is made.
use SENDING
use STDIN
input x\ny\n
run agent -n a -f x.conf
status 0
said
dialed
writes OK\nOK\n{"CHANNEL.c1":{"ChannelCapacity":"100","ChannelSize":"2","EventPutAttemptCount":"2","EventPutSuccessCount":"2","EventTakeAttemptCount":"<1>","EventTakeSuccessCount":"0"}}\n"#;

#[test]
fn a_sink_hands_events_on(rt: HostRuntime) -> Result<(), Fail> {
    pass(&rt, rt.alloc(), SENT)
}

const AGAIN: &str =
    r#"The first link ends before its reply: the event goes over a new one, and is gone then. Its request ends the run.
use SENDING
a.sources = n
a.sources.n.type = netcat
a.sources.n.bind = localhost
a.sources.n.port = 44444
a.sources.n.threads = 1
a.sources.n.channels = c1
listen 44444
link x\n
input-held 3 0
dial
dial REPLY_OK sets 0
run agent -n a -f x.conf
status 0
said
dialed CLIENT_HELLO+PROTOCOL+CALL+x\0 CLIENT_HELLO+PROTOCOL+CALL+x\0
writes {"CHANNEL.c1":{"ChannelCapacity":"100","ChannelSize":"0","EventPutAttemptCount":"1","EventPutSuccessCount":"1","EventTakeAttemptCount":"<2>","EventTakeSuccessCount":"1"}}\n"#;

#[test]
fn a_request_without_its_reply_is_made_again(rt: HostRuntime) -> Result<(), Fail> {
    pass(&rt, rt.alloc(), AGAIN)
}
