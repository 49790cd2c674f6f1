// A frame of a log file.
use channel_log::{Scan, scan_frame};

// The first frame of a log of two lines: a PUT and a COMMIT_PUT of transaction 1, and END.
const FRAME: [u8; 48] =
    *b"\x01\0\0\0\0\0\0\0\x01\0\0\0\x09\0\0\0\0\0\0\0\x01a\x04\0\0\0\0\0\0\0\x01\0\0\0\0\0\0\0\0\0\0\0\x01\x06\0\0\0\x02";

#[test]
fn frame_is_scanned(rt: HostRuntime) {
    assert!(&rt;
        scan_frame(&FRAME)
            == Scan::Frame {
                count: 2,
                length: 48
            }
    );
    for end in 0..FRAME.len() {
        assert!(&rt; scan_frame(&FRAME[..end]) == Scan::Part, "{end}");
    }
    let mut wrong = FRAME;
    wrong[47] = 3;
    assert!(&rt; scan_frame(&wrong) == Scan::Bad);
}
