//! Which messages are sent again, and when.

use crate::again::Does::{Hears, Rests, Sends, SendsToAnother};
use crate::again::{
    ACCEPT, ACK, BEGIN, CHUNK, COLLECT, COMMIT, FORWARD, GET_CHUNK, GET_COOKIE, LAST, LEASE,
    LEASE_ACK, PROBE, PROPOSE, ROUTE, Step, VICTORY,
};

// A PROPOSE or PROBE of the same epoch doesn't end the copies of one's own; an ACK does.
pub(crate) const ACKNOWLEDGED: &[Step] = &[
    (0u64, Sends, PROPOSE, 5u64, 0u64, 1usize, false),
    (499, Rests, 0, 0, 0, 0, false),
    (500, Hears, PROPOSE, 5, 0, 0, true),
    (501, Rests, 0, 0, 0, 1, false),
    (1_500, Rests, 0, 0, 0, 0, false),
    (1_501, Rests, 0, 0, 0, 1, false),
    (1_600, Hears, PROBE, 5, 0, 0, true),
    (2_501, Rests, 0, 0, 0, 1, false),
    (2_600, Hears, ACK, 5, 0, 0, true),
    (60_000, Rests, 0, 0, 0, 0, false),
];

// A PROPOSE of an earlier epoch doesn't end the copies of one's own; one of a later epoch does.
pub(crate) const OUTVOTED: &[Step] = &[
    (0u64, Sends, PROPOSE, 5u64, 0u64, 1usize, false),
    (100, Hears, PROPOSE, 3, 0, 0, true),
    (500, Rests, 0, 0, 0, 1, false),
    (600, Hears, PROPOSE, 7, 0, 0, true),
    (60_000, Rests, 0, 0, 0, 0, false),
];

// An ACK to any monitor ends the copies of one's own PROPOSE.
pub(crate) const DEFERRED: &[Step] = &[
    (0u64, Sends, PROPOSE, 5u64, 0u64, 1usize, false),
    (100, SendsToAnother, ACK, 5, 0, 1, false),
    (60_000, Rests, 0, 0, 0, 0, false),
];

// A LEASE goes again until its version is acknowledged.
pub(crate) const LEASED: &[Step] = &[
    (0u64, Sends, LEASE, 6u64, 9u64, 1usize, false),
    (500, Rests, 0, 0, 0, 1, false),
    (1_499, Hears, LEASE_ACK, 6, 8, 0, true),
    (1_500, Rests, 0, 0, 0, 1, false),
    (2_500, Rests, 0, 0, 0, 1, false),
    (3_500, Rests, 0, 0, 0, 1, false),
    (3_501, Hears, LEASE_ACK, 6, 9, 0, true),
    (60_000, Rests, 0, 0, 0, 0, false),
];

// One answer after 400 ms: a copy goes after 1,200. The third answer in a row that comes soon after the first copy halves that,
// and so does each after it.
pub(crate) const SOONER: &[Step] = &[
    (0u64, Sends, BEGIN, 6u64, 1u64, 1usize, false),
    (400, Hears, ACCEPT, 6, 1, 0, true),
    (1_000, Sends, BEGIN, 6, 2, 1, false),
    (2_199, Rests, 0, 0, 0, 0, false),
    (2_200, Rests, 0, 0, 0, 1, false),
    (2_201, Hears, ACCEPT, 6, 2, 0, true),
    (3_000, Sends, BEGIN, 6, 3, 1, false),
    (4_200, Rests, 0, 0, 0, 1, false),
    (4_201, Hears, ACCEPT, 6, 3, 0, true),
    (5_000, Sends, BEGIN, 6, 4, 1, false),
    (6_200, Rests, 0, 0, 0, 1, false),
    (6_201, Hears, ACCEPT, 6, 4, 0, true),
    (7_000, Sends, BEGIN, 6, 5, 1, false),
    (7_599, Rests, 0, 0, 0, 0, false),
    (7_600, Rests, 0, 0, 0, 1, false),
    (7_601, Hears, ACCEPT, 6, 5, 0, true),
    (8_000, Sends, BEGIN, 6, 6, 1, false),
    (8_299, Rests, 0, 0, 0, 0, false),
    (8_300, Rests, 0, 0, 0, 1, false),
];

// An answer that may be a late one of the message itself ends the row, and so does one that comes after the second copy.
pub(crate) const NOT_SOONER: &[Step] = &[
    (0u64, Sends, BEGIN, 6u64, 1u64, 1usize, false),
    (400, Hears, ACCEPT, 6, 1, 0, true),
    (1_000, Sends, BEGIN, 6, 2, 1, false),
    (2_200, Rests, 0, 0, 0, 1, false),
    (2_201, Hears, ACCEPT, 6, 2, 0, true),
    (3_000, Sends, BEGIN, 6, 3, 1, false),
    (4_200, Rests, 0, 0, 0, 1, false),
    (4_201, Hears, ACCEPT, 6, 3, 0, true),
    (5_000, Sends, BEGIN, 6, 4, 1, false),
    (6_200, Rests, 0, 0, 0, 1, false),
    (6_301, Hears, ACCEPT, 6, 4, 0, true),
    (7_000, Sends, BEGIN, 6, 5, 1, false),
    (8_199, Rests, 0, 0, 0, 0, false),
    (8_200, Rests, 0, 0, 0, 1, false),
    (8_201, Hears, ACCEPT, 6, 5, 0, true),
    (9_000, Sends, BEGIN, 6, 6, 1, false),
    (10_199, Rests, 0, 0, 0, 0, false),
    (10_200, Rests, 0, 0, 0, 1, false),
    (11_400, Rests, 0, 0, 0, 1, false),
    (11_401, Hears, ACCEPT, 6, 6, 0, true),
    (12_000, Sends, BEGIN, 6, 7, 1, false),
    (13_199, Rests, 0, 0, 0, 0, false),
    (13_200, Rests, 0, 0, 0, 1, false),
    (13_201, Hears, ACCEPT, 6, 7, 0, true),
    (14_000, Sends, BEGIN, 6, 8, 1, false),
    (15_199, Rests, 0, 0, 0, 0, false),
    (15_200, Rests, 0, 0, 0, 1, false),
];

// A VICTORY goes again until something comes that a peon sends.
pub(crate) const WON: &[Step] = &[
    (0u64, Sends, VICTORY, 6u64, 0u64, 1usize, false),
    (500, Rests, 0, 0, 0, 1, false),
    (600, Hears, LEASE_ACK, 6, 0, 0, true),
    (60_000, Rests, 0, 0, 0, 0, false),
];

// A COLLECT goes again until a LAST of its number or a greater one comes.
pub(crate) const COLLECTED: &[Step] = &[
    (0u64, Sends, COLLECT, 6u64, 9u64, 1usize, false),
    (400, Hears, LAST, 6, 8, 0, true),
    (500, Rests, 0, 0, 0, 1, false),
    (600, Hears, LAST, 6, 10, 0, true),
    (60_000, Rests, 0, 0, 0, 0, false),
];

// A BEGIN ends the COLLECT before it, and goes again until its ACCEPT comes.
pub(crate) const BEGUN: &[Step] = &[
    (0u64, Sends, COLLECT, 6u64, 9u64, 1usize, false),
    (10, Sends, BEGIN, 6, 2, 1, false),
    (400, Hears, ACCEPT, 6, 1, 0, true),
    (509, Rests, 0, 0, 0, 0, false),
    (510, Rests, 0, 0, 0, 1, false),
    (600, Hears, ACCEPT, 6, 2, 0, true),
    (60_000, Rests, 0, 0, 0, 0, false),
];

// A COMMIT ends the BEGIN before it, and goes again until a LEASE_ACK of its last version comes.
pub(crate) const COMMITTED: &[Step] = &[
    (0u64, Sends, BEGIN, 6u64, 1u64, 1usize, false),
    (10, Sends, COMMIT, 6, 1, 1, false),
    (400, Hears, LEASE_ACK, 6, 0, 0, true),
    (509, Rests, 0, 0, 0, 0, false),
    (510, Rests, 0, 0, 0, 1, false),
    (600, Hears, ACCEPT, 6, 1, 0, true),
    (1_510, Rests, 0, 0, 0, 1, false),
    (1_600, Hears, LEASE_ACK, 6, 1, 0, true),
    (60_000, Rests, 0, 0, 0, 0, false),
];

// An ACCEPT of a later version shows that a COMMIT arrived, and a COLLECT ends one.
pub(crate) const COMMITTED_BEFORE: &[Step] = &[
    (0u64, Sends, COMMIT, 6u64, 1u64, 1usize, false),
    (10, Hears, ACCEPT, 6, 2, 0, true),
    (2_000, Rests, 0, 0, 0, 0, false),
    (3_000, Sends, COMMIT, 6, 1, 1, false),
    (3_001, Sends, COLLECT, 8, 9, 1, false),
    (3_002, Hears, LAST, 8, 9, 0, true),
    (60_000, Rests, 0, 0, 0, 0, false),
];

// FORWARDs are sent one after the other: the second when the ROUTE of the first arrives.
pub(crate) const FORWARDED: &[Step] = &[
    (0u64, Sends, FORWARD, 6u64, 1u64, 1usize, false),
    (1, Sends, FORWARD, 6, 2, 0, false),
    (2, Sends, FORWARD, 6, 3, 0, false),
    (99, Hears, ROUTE, 6, 2, 0, true),
    (100, Hears, ROUTE, 6, 1, 1, true),
    (599, Rests, 0, 0, 0, 0, false),
    (600, Rests, 0, 0, 0, 1, false),
    (601, Hears, ROUTE, 6, 3, 0, true),
    (602, Hears, ROUTE, 6, 2, 0, true),
    (60_000, Rests, 0, 0, 0, 0, false),
];

// A question for a cookie goes again after two seconds, until a chunk is asked for. Nothing that comes ends either.
pub(crate) const COPIED: &[Step] = &[
    (0u64, Sends, GET_COOKIE, 6u64, 0u64, 1usize, false),
    (1_999, Rests, 0, 0, 0, 0, false),
    (2_000, Rests, 0, 0, 0, 1, false),
    (2_100, Sends, GET_CHUNK, 6, 7, 1, false),
    (2_200, Hears, CHUNK, 6, 7, 0, true),
    (2_599, Rests, 0, 0, 0, 0, false),
    (2_600, Rests, 0, 0, 0, 1, false),
    (2_700, Sends, PROBE, 6, 0, 1, false),
    (60_000, Rests, 0, 0, 0, 0, false),
];

// An ACCEPT goes again when its BEGIN comes again, which isn't handed up.
pub(crate) const ACCEPTED: &[Step] = &[
    (0u64, Hears, BEGIN, 6u64, 1u64, 0usize, true),
    (1, Sends, ACCEPT, 6, 1, 1, false),
    (20_000, Rests, 0, 0, 0, 0, false),
    (20_001, Hears, BEGIN, 6, 1, 1, false),
    (20_002, Rests, 0, 0, 0, 0, false),
    (20_003, Hears, BEGIN, 6, 2, 0, true),
    (20_004, Hears, BEGIN, 6, 1, 1, false),
    (20_005, Hears, BEGIN, 8, 1, 0, true),
];

// A ROUTE goes again when its FORWARD comes again, which is handed up.
pub(crate) const ROUTED: &[Step] = &[
    (0u64, Sends, ROUTE, 6u64, 1u64, 1usize, false),
    (20_000, Hears, FORWARD, 6, 1, 1, true),
    (20_001, Hears, FORWARD, 6, 2, 0, true),
    (20_002, Sends, ROUTE, 6, 2, 1, false),
    (20_003, Hears, FORWARD, 6, 1, 0, true),
];

// A chunk goes again when the same question for it comes again, until another question comes.
pub(crate) const ANSWERED: &[Step] = &[
    (0u64, Sends, PROBE, 6u64, 0u64, 1usize, false),
    (1, Hears, GET_CHUNK, 6, 7, 0, true),
    (2, Sends, CHUNK, 6, 7, 1, false),
    (20_000, Hears, GET_CHUNK, 6, 7, 1, false),
    (20_001, Hears, GET_CHUNK, 6, 8, 0, true),
    (20_002, Hears, GET_CHUNK, 6, 8, 0, true),
    (20_003, Hears, GET_CHUNK, 6, 7, 0, true),
];

// A message of a greater epoch ends the copies of a quorum, wherever it comes from or goes to, and not those of a
// synchronization.
pub(crate) const LEFT_BEHIND: &[Step] = &[
    (0u64, Sends, LEASE, 6u64, 9u64, 1usize, false),
    (1, Sends, GET_CHUNK, 6, 7, 1, false),
    (2, SendsToAnother, LEASE, 8, 9, 1, false),
    (501, Rests, 0, 0, 0, 1, false),
    (502, Rests, 0, 0, 0, 1, false),
    (503, Hears, PROPOSE, 9, 0, 0, true),
    (1_501, Rests, 0, 0, 0, 1, false),
    (1_502, Rests, 0, 0, 0, 0, false),
];

// A copy is dropped after it was sent sixteen times.
pub(crate) const GIVEN_UP: &[Step] = &[
    (0u64, Sends, PROPOSE, 5u64, 0u64, 1usize, false),
    (500, Rests, 0, 0, 0, 1, false),
    (1_500, Rests, 0, 0, 0, 1, false),
    (2_500, Rests, 0, 0, 0, 1, false),
    (3_500, Rests, 0, 0, 0, 1, false),
    (4_500, Rests, 0, 0, 0, 1, false),
    (5_500, Rests, 0, 0, 0, 1, false),
    (6_500, Rests, 0, 0, 0, 1, false),
    (7_500, Rests, 0, 0, 0, 1, false),
    (8_500, Rests, 0, 0, 0, 1, false),
    (9_500, Rests, 0, 0, 0, 1, false),
    (10_500, Rests, 0, 0, 0, 1, false),
    (11_500, Rests, 0, 0, 0, 1, false),
    (12_500, Rests, 0, 0, 0, 1, false),
    (13_500, Rests, 0, 0, 0, 1, false),
    (14_500, Rests, 0, 0, 0, 1, false),
    (15_500, Rests, 0, 0, 0, 1, false),
    (16_500, Rests, 0, 0, 0, 0, false),
    (60_000, Rests, 0, 0, 0, 0, false),
];
