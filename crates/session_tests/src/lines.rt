// Sessions of lines: what is written, how the session ends, and what the channels then hold.
use crate::script::add_cut;
use crate::sessions::Sessions;
use scenarios::{Scene, pass, word_and_rest};
use std::alloc::Global;
use std::test::Fail;

const LINES: &str = r#"A carriage return stays, and a full channel refuses.
channels 1
reads a\r\nb
reads \n
lines end
wrote OK\nFAILED: channel refused\n
holds a\r,;

A rest without a newline is no event and has no answer.
channels 10
reads a\nb
lines end
wrote OK\n
holds a,;

An empty line is an event with an empty body.
channels 10
reads \n
lines end
wrote OK\n
holds ,;

A line has one byte less than the limit.
drops a{511}
channels 10
reads-many 511
reads \n
lines end
wrote OK\n
holds ;

A line has as many bytes as the limit.
channels 10
reads x\n
reads-many 512
reads \ny\n
lines too-long
wrote OK\nFAILED: line too long\n
holds x,;

An event that a filter drops is accepted, and no channel has it.
drops drop
channels 10
reads keep\ndrop\nkeep\n
lines end
wrote OK\nOK\nOK\n
holds keep,keep,;

A channel before the one that refused keeps the event.
channels 2 1
reads a\nb\n
lines end
wrote OK\nFAILED: channel refused\n
holds a,b,;a,;

An accepted line is not answered unless each is to be.
channels 2
unanswered
reads a\nb\nc\n
lines end
wrote FAILED: channel refused\n
holds a,b,;

A session that waits goes on.
channels 10
waits 1
reads a
waits 2
reads b\n
lines end
wrote OK\n
holds ab,;

A stop comes before the first read.
channels 10
told-after 0
reads a\n
lines stopped
wrote
holds ;

A stop comes in the middle of a piece: what was taken is answered.
channels 10
told-after 3
reads a\nb\nc\n
lines stopped
wrote OK\nOK\n
holds a,b,;

A read fails.
channels 10
reads a\nb
breaks
reads \n
lines link-fault
wrote OK\n
holds a,;

No line is taken after a reply that failed.
channels 10
reads a\nb\nc\n
writes-fail 1
lines link-fault
wrote OK\n
holds a,b,;

The reply to a line that is too long fails.
channels 10
limit 4
reads abcd
writes-fail 0
lines link-fault
wrote
holds ;

The peer sends a second line only when it has an answer.
channels 10
reads a\n
waits-for-an-answer
reads b\n
lines end
wrote OK\nOK\n
holds a,b,;

A line whose commit fails is in doubt, and is answered so.
doubtful-channel
told-after 100
reads a\nb\n
lines end
wrote FAILED: channel in doubt\nFAILED: channel refused\n

Links of one listener follow one another: one that ends, a wait in vain, a failure, and one with a line that is too long.
channels 10
reads a\nb\n
offer
offer-nothing
offer-fails
reads c\n
reads-many 512
offer
listen
accepts end
accepts none
accepts failed
accepts too-long
accepts none
back OK\nOK\n;OK\nFAILED: line too long\n;
holds a,b,c,;"#;

#[test]
fn sessions_of_lines(rt: HostRuntime) -> Result<(), Fail> {
    pass::<Sessions>(rt.alloc(), LINES)
}

// `a`, a carriage return and `b` are lines, and the fourth byte of the third is one too many.
const CUT: &str = r#"lines too-long
wrote OK\nOK\nFAILED: line too long\n
holds a\r,b,;"#;

fn is_said(scene: &mut Sessions, lines: &str) -> bool {
    for line in lines.lines() {
        let (word, rest) = word_and_rest(line);
        if !scene.holds(word, rest) {
            return false;
        }
    }
    true
}

// Whether a session is the same where its text is cut after these of its bytes.
fn is_cut_well(alloc: Global, cuts: u32) -> bool {
    let mut scene = Sessions::begin(alloc);
    is_said(&mut scene, "channels 10\nlimit 4")
        && add_cut(&mut scene.script, b"a\r\nb\nccccc", cuts)
        && is_said(&mut scene, CUT)
}

#[test]
fn lines_in_any_pieces(rt: HostRuntime) {
    for cuts in 0..256 {
        assert!(rt; is_cut_well(rt.alloc(), cuts), "{cuts}");
    }
}
