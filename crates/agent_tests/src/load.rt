// `load N DIR`: the generator's summaries, and how it ends where it is stopped. The digests were made by a program of its own, in another
// language.
use crate::running::pass;
use std::test::Fail;

// How many calls the channel sees, and the summary.
const RUNS: &str = r#"1 event.
input a\n
run load 1 d
status 0
calls 9
said
writes events 1\nbatches 1\ncommitted takes 1\ntaken 1\nleft 0\ndigest 6be6388eb3875ab294e60a57c6f96b51\n

50 events.
input a\n
run load 50 d
status 0
calls 106
said
writes events 50\nbatches 1\ncommitted takes 1\ntaken 50\nleft 0\ndigest a184f7f5c5e4e5c35df404d4efc3ae1d\n

51 events.
input a\n
run load 51 d
status 0
calls 107
said
writes events 51\nbatches 1\ncommitted takes 1\ntaken 50\nleft 1\ndigest 51896e597422ec8381827dacea9c0022\n

150 events.
input a\n
run load 150 d
status 0
calls 262
said
writes events 150\nbatches 2\ncommitted takes 2\ntaken 100\nleft 50\ndigest 6df35e99c87210a4b54e502c3d4ea0c5\n

701 events.
input a\n
run load 701 d
status 0
calls 1148
said
writes events 701\nbatches 8\ncommitted takes 7\ntaken 350\nleft 351\ndigest b23b07c979596b3a8813ad031ef22e0c\n
file check 1 = none

10000 events.
input a\n
run load 10000 d
status 0
calls 15590
said
writes events 10000\nbatches 100\ncommitted takes 86\ntaken 4300\nleft 5700\ndigest 102b2759972f32c2342768a2a29c6643\n
file check 1 = none
file check 2 = some
file check 3 = none"#;

#[test]
fn a_run_says_what_it_did(rt: HostRuntime) -> Result<(), Fail> {
    pass(&rt, rt.alloc(), RUNS)
}

const NUMBERS: &str =
    r#"What is no number of events: nothing is opened or written, for 0, 01, +1, -1, '', \s1, 1a, 1000001, 4294967297
input a\n
run load $ d
status 1
calls 0
said usage: flume pipe DIR | agent -n NAME -f FILE | check -n NAME -f FILE | load N DIR
writes"#;

#[test]
fn other_numbers_are_no_command(rt: HostRuntime) -> Result<(), Fail> {
    pass(&rt, rt.alloc(), NUMBERS)
}

const BEHIND: &str =
    r#"A run goes on behind what an earlier one left, and one that would leave too many does not begin.
input a\n
run load 150 d
status 0
calls 262
said
run load 701 d
status 0
calls 1148
said
writes events 701\nbatches 8\ncommitted takes 7\ntaken 350\nleft 401\ndigest b120bde23f88f2a59c1653685147833d\n
run load 999600 d
status 4
calls 0
said flume: d: holds 1000001, more than 1000000"#;

#[test]
fn a_run_goes_on_behind_another_up_to_the_capacity(rt: HostRuntime) -> Result<(), Fail> {
    pass(&rt, rt.alloc(), BEHIND)
}

const KEPT: &str = r#"After the fiftieth batch the channel has a checkpoint.
input a\n
run load 5000 d
status 0
calls 7795
said
writes events 5000\nbatches 50\ncommitted takes 43\ntaken 2150\nleft 2850\ndigest b0c4196c3d30b713b025efcd669302c9\n
file log 1 = some
file check 1 = some
file check 2 = none"#;

#[test]
fn after_the_fiftieth_batch_the_channel_is_kept(rt: HostRuntime) -> Result<(), Fail> {
    pass(&rt, rt.alloc(), KEPT)
}

const UNLAID: &str =
    r#"A call of the disk fails while the checkpoint is laid: its file is made, its text is written, its commit byte is opened, for 386, 389, 393
input a\n
fails $
run load 5000 d
status 3
calls 7794
writes
said flume: fault outside
file log 1 = some"#;

#[test]
fn a_failing_checkpoint_stops_a_run(rt: HostRuntime) -> Result<(), Fail> {
    pass(&rt, rt.alloc(), UNLAID)
}

const UNPRUNED: &str =
    r#"A call of the disk fails while old files are looked for: checkpoints, log files, for 394, 395
input a\n
fails $
run load 5000 d
status 3
calls 7795
writes
said flume: fault outside
file check 1 = some"#;

#[test]
fn a_failing_removal_stops_a_run(rt: HostRuntime) -> Result<(), Fail> {
    pass(&rt, rt.alloc(), UNPRUNED)
}

const STOPPED: &str =
    r#"Calls of the disk fail: in the opening, in the flush of each batch, and of the takes behind each, for 0, 6, 7, 11, 15, 19
input a\n
fails $
run load 101 d
status 3
writes
said flume: fault outside"#;

#[test]
fn a_failing_disk_stops_a_run(rt: HostRuntime) -> Result<(), Fail> {
    pass(&rt, rt.alloc(), STOPPED)
}
