// The rows of the book and of the frame: a call at the book of `stations`, and the refusal that it gives.
use crate::refusal::Refusal;
use answer::fault::Layer;
use code::catalogue::ATM_HEC;
use listing::frames;
use station::call::Call;

const ROOM: &[u8] = &[0xEE; 40];

pub(crate) type Row = (Call<'static>, Refusal);

pub(crate) const BOOK: [Row; 6] = [
    (
        Call::Enter {
            number: 5,
            description: ATM_HEC,
            reach: 15,
        },
        (21, Layer::Book, 1),
    ),
    (
        Call::Enter {
            number: 0x99,
            description: ATM_HEC,
            reach: 15,
        },
        (22, Layer::Book, 1),
    ),
    (
        Call::Narrow {
            number: 0x99,
            reach: 9,
        },
        (23, Layer::Book, 1),
    ),
    (Call::Retire { number: 0x99 }, (23, Layer::Book, 1)),
    (
        Call::Narrow {
            number: 5,
            reach: 15,
        },
        (24, Layer::Book, 12),
    ),
    (
        Call::Narrow {
            number: 5,
            reach: 1,
        },
        (16, Layer::Kind, 12),
    ),
];

pub(crate) const SEAL: [Row; 4] = [
    (
        Call::Seal {
            number: 0x99,
            message: &[1],
            out: ROOM,
        },
        (23, Layer::Book, 1),
    ),
    (
        Call::Seal {
            number: 5,
            message: &[],
            out: ROOM,
        },
        (31, Layer::Frame, 0),
    ),
    (
        Call::Seal {
            number: 5,
            message: &[0; 15],
            out: ROOM,
        },
        (32, Layer::Frame, 12),
    ),
    (
        Call::Seal {
            number: 5,
            message: &[1],
            out: &[0xEE; 17],
        },
        (33, Layer::Frame, 17),
    ),
];

// Frames that take refuses, and the refusal.
pub(crate) const TAKE: [(&[u8], Refusal); 10] = [
    (&[1; 16], (41, Layer::Frame, 16)),
    (frames::OTHER_LAYOUT, (42, Layer::Frame, 0)),
    (frames::OTHER_HEAD_CHECK, (43, Layer::Frame, 14)),
    (frames::BYTE_ADDED, (44, Layer::Frame, 12)),
    (frames::NOT_HELD, (23, Layer::Book, 1)),
    (frames::OTHER_KIND, (45, Layer::Frame, 2)),
    (frames::CHECK_ALONE, (46, Layer::Frame, 12)),
    (frames::OVER_REACH, (32, Layer::Frame, 12)),
    (frames::OTHER_CHECK, (47, Layer::Frame, 17)),
    (frames::BOTH_SUMS_VANISH, (47, Layer::Frame, 18)),
];

pub(crate) const TRIAL: [Row; 2] = [
    (
        Call::Trial {
            frame: &frames::GOOD,
            at: 18,
            byte: 0,
        },
        (48, Layer::Frame, 18),
    ),
    (
        Call::Trial {
            frame: &frames::GOOD,
            at: 17,
            byte: 6,
        },
        (47, Layer::Frame, 17),
    ),
];
