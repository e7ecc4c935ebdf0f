// Calls of a station: what is done, and with what.
// Rows of tables are tuples, so that a row stays a line: as structs they have a line for each field. Each table names its columns.
use code::catalogue::{ATM_HEC, CRC_16, PARITY_16, WSC_8};
use code::description::Description;
use listing::{frames, lines};

// What is entered, in this order: words, number, description, reach.
pub(crate) const ENTERED: [(&str, u8, Description, u16); 12] = [
    ("05 entered, ATM-HEC", 5, ATM_HEC, 15),
    ("06 entered, PARITY-16", 6, PARITY_16, 15),
    ("08 entered, WSC-8", 8, WSC_8, 256),
    ("kind 09 entered", 9, Description { kind: 9, ..ATM_HEC }, 15),
    (
        "degree 12 entered",
        9,
        Description {
            degree: 12,
            ..ATM_HEC
        },
        15,
    ),
    (
        "tuple bytes 2 entered",
        9,
        Description {
            tuple: 2,
            ..ATM_HEC
        },
        15,
    ),
    (
        "low part 06 entered",
        9,
        Description { low: 6, ..ATM_HEC },
        15,
    ),
    (
        "PARITY-16 with low part 0001 entered",
        9,
        Description {
            low: 1,
            ..PARITY_16
        },
        15,
    ),
    (
        "WSC-8 with second low part 05 entered",
        9,
        Description { low2: 5, ..WSC_8 },
        15,
    ),
    ("ATM-HEC with reach 1 entered", 9, ATM_HEC, 1),
    ("CRC-16 with reach 4096 entered", 9, CRC_16, 4096),
    ("05 entered twice", 5, ATM_HEC, 15),
];

// What is narrowed: words, number, reach.
pub(crate) const NARROWED: [(&str, u8, u16); 5] = [
    ("99 narrowed, which is not held", 0x99, 9),
    ("05 narrowed from 15 to 15", 5, 15),
    ("05 narrowed from 15 to 1", 5, 1),
    ("08 narrowed from 256 to 15", 8, 15),
    ("08 narrowed from 15 to 15", 8, 15),
];

// What is sealed: words, number, message, the room in the output.
pub(crate) const SEALED: [(&str, u8, &[u8], usize); 5] = [
    ("01 sealed under 99, which is not held", 0x99, &[1], 18),
    ("nothing sealed", 5, &[], 18),
    ("15 bytes sealed for a reach of 15", 5, &[0; 15], 40),
    ("01 sealed into 17 bytes", 5, &[1], 17),
    ("01 sealed into 18 bytes", 5, &[1], 18),
];

// What is taken: words, frame.
pub(crate) const TAKEN: [(&str, &[u8]); 10] = [
    ("a frame of 16 bytes taken", &[1; 16]),
    ("a frame with 9463 for 9462 taken", frames::OTHER_HEAD_CHECK),
    ("a frame with a byte added taken", frames::BYTE_ADDED),
    (
        "a frame under 99 taken, which is not held",
        frames::NOT_HELD,
    ),
    (
        "a frame of kind 1 taken where kind 2 is held",
        frames::OTHER_KIND,
    ),
    ("a word of one byte taken", frames::CHECK_ALONE),
    (
        "a word of 16 bytes taken for a reach of 15",
        frames::OVER_REACH,
    ),
    ("the word 010236 of WSC-8 taken", frames::BOTH_SUMS_VANISH),
    ("nothing taken", &[]),
    ("the frame of 01 taken", &frames::GOOD),
];

// Trials of the frame of 01: words, place, byte.
pub(crate) const TRIED: [(&str, usize, u8); 4] = [
    ("02 tried at 0", 0, 2),
    ("06 tried at 17", 17, 6),
    ("07 tried at 17", 17, 7),
    ("00 tried at 18", 18, 0),
];

// Lines that are none: words, line.
pub(crate) const LINES: [(&str, &[u8]); 5] = [
    ("the line 'Q 05'", lines::OTHER_CALL),
    ("the line 'R 0a'", lines::LOWER_CASE),
    ("the line 'R 050'", lines::HALF_BYTE),
    ("the line 'R'", lines::CALL_ALONE),
    ("the line 'R 0506'", lines::BYTE_ADDED),
];
