// `pipe DIR`, example by example. The channel sees four calls of a line that is put: a begin, a put, a stage and a flush.
use crate::running::pass;
use std::test::Fail;

const FRAMES: &str = r#"Two lines.
input a\nb\n
run pipe d
status 0
calls 8
writes OK\nOK\n
said
file log 1 = TWO_LINES

None.
input
run pipe d
status 0
calls 0
writes
said
file log 1 = BEGUN"#;

#[test]
fn each_line_makes_a_frame(rt: HostRuntime) -> Result<(), Fail> {
    pass(&rt, rt.alloc(), FRAMES)
}

// The input comes in pieces of this length, and the output takes two bytes at a time.
const PIECES: &str = r#"A line and a rest, for 1, 3, 512, 10000
input a\nb
input-in $
output-in 2
run pipe d
status 0
calls 4
writes OK\n

An empty line, for 1, 3, 512, 10000
input \n
input-in $
output-in 2
run pipe d
status 0
calls 4
writes OK\n

Three lines, of which one ends with a return and one is empty, for 1, 3, 512, 10000
input a\r\n\nb\n
input-in $
output-in 2
run pipe d
status 0
calls 12
writes OK\nOK\nOK\n

A line of the greatest length, for 1, 3, 512, 10000
many 511
input \n
input-in $
output-in 2
run pipe d
status 0
calls 4
writes OK\n

The same without its end, for 1, 3, 512, 10000
many 511
input-in $
output-in 2
run pipe d
status 0
calls 0
writes

A line with a byte more, for 1, 3, 512, 10000
many 512
input \n
input-in $
output-in 2
run pipe d
status 7
calls 0
writes FAILED: line too long\n

The same behind a line, and without its end, for 1, 3, 512, 10000
input a\n
many 512
input-in $
output-in 2
run pipe d
status 7
calls 4
writes OK\nFAILED: line too long\n

A long line in front of a line, for 1, 3, 512, 10000
many 9000
input \na\n
input-in $
output-in 2
run pipe d
status 7
calls 0
writes FAILED: line too long\n"#;

#[test]
fn every_line_has_its_answer_in_any_pieces(rt: HostRuntime) -> Result<(), Fail> {
    pass(&rt, rt.alloc(), PIECES)
}

const WORDS: &str = r#"No word.
input a\n
run
status 1
calls 0
writes
file log 1 = none
said usage: flume pipe DIR | agent -n NAME -f FILE | check -n NAME -f FILE | load N DIR

Other words, for pipe, pipe '', pipe -d, pipe d e, Pipe d, --help, load d
input a\n
run $
status 1
calls 0
writes
file log 1 = none
said usage: flume pipe DIR | agent -n NAME -f FILE | check -n NAME -f FILE | load N DIR"#;

#[test]
fn other_words_are_no_command(rt: HostRuntime) -> Result<(), Fail> {
    pass(&rt, rt.alloc(), WORDS)
}

// Of the call that fails nothing is done, or the first byte is written.
const DISKS: &str =
    r#"Opening takes nine calls, of which five look for files, for fails 0, fails-with-1 0, fails 1, fails-with-1 1, fails 2, fails-with-1 2, fails 3, fails-with-1 3, fails 4, fails-with-1 4, fails 5, fails-with-1 5, fails 6, fails-with-1 6, fails 7, fails-with-1 7, fails 8, fails-with-1 8
input a\nb\n
$
run pipe d
status 3
calls 0
writes
said flume: fault outside

The first line takes four, for fails 9, fails-with-1 9, fails 10, fails-with-1 10, fails 11, fails-with-1 11, fails 12, fails-with-1 12
input a\nb\n
$
run pipe d
status 3
calls 4
writes FAILED: channel in doubt\n
said flume: fault outside

The second line takes four, for fails 13, fails-with-1 13, fails 14, fails-with-1 14, fails 15, fails-with-1 15, fails 16, fails-with-1 16
input a\nb\n
$
run pipe d
status 3
calls 8
writes OK\nFAILED: channel in doubt\n
said flume: fault outside

There is no further call, for fails 17, fails-with-1 17
input a\nb\n
$
run pipe d
status 0
calls 8
writes OK\nOK\n"#;

#[test]
fn a_failing_disk_leaves_the_line_in_doubt(rt: HostRuntime) -> Result<(), Fail> {
    pass(&rt, rt.alloc(), DISKS)
}

const OUTPUTS: &str = r#"The flush before the first read.
input a\nb\n
output-fails 0
run pipe d
status 3
calls 0
writes

The write for the first line.
input a\nb\n
output-fails 1
run pipe d
status 3
calls 4
writes

The write for the second line.
input a\nb\n
output-fails 2
run pipe d
status 3
calls 8
writes OK\n

The flush before the second read.
input a\nb\n
output-fails 3
run pipe d
status 3
calls 8
writes OK\nOK\n

The flush at the end.
input a\nb\n
output-fails 4
run pipe d
status 3
calls 8
writes OK\nOK\n

There is no further call.
input a\nb\n
output-fails 5
run pipe d
status 0
calls 8
writes OK\nOK\n"#;

#[test]
fn a_failing_output_cuts_the_answers(rt: HostRuntime) -> Result<(), Fail> {
    pass(&rt, rt.alloc(), OUTPUTS)
}

const INPUTS: &str = r#"The input comes in pieces of two bytes, and the second fails.
input a\nb\n
input-in 2
input-fails 1
run pipe d
status 3
calls 4
writes OK\n"#;

#[test]
fn a_failing_input_ends_with_a_fault(rt: HostRuntime) -> Result<(), Fail> {
    pass(&rt, rt.alloc(), INPUTS)
}
