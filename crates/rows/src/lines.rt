// The refusals of a line.
use crate::refusal::refusal_of;
use answer::fault::Layer;
use console::line::line_of;
use listing::lines;

// A line, and the number and the place of its refusal. Byte 1, a digit and half a byte are all 2.
const LINES: [(&[u8], u8, usize); 9] = [
    (lines::OTHER_CALL, 1, 0),
    (b" # no remark", 1, 0),
    (lines::CALL_ALONE, 2, 1),
    (b"R05", 2, 1),
    (lines::LOWER_CASE, 2, 3),
    (lines::HALF_BYTE, 2, 5),
    (lines::BYTE_ADDED, 3, 6),
    (b"M ", 3, 2),
    (b"N 05000F00", 3, 10),
];

#[test]
fn lines_are_refused(rt: HostRuntime) {
    for (line, number, place) in &LINES {
        assert_eq!(rt;
            refusal_of(line_of(line)),
            Some((*number, Layer::Line, *place))
        );
    }
    let long = [b'R'; 8227];
    assert_eq!(rt; refusal_of(line_of(&long)), Some((4, Layer::Line, 8226)));
    assert_eq!(rt;
        refusal_of(line_of(&long[0..8226])),
        Some((2, Layer::Line, 1))
    );
}
