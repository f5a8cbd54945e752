//! What else ends the copies of each row, and how long they wait.

use crate::again::Does::{Hears, Rests, Sends};
use crate::again::{
    ACCEPT, BEGIN, CHUNK, COLLECT, COMMIT, COOKIE, GET_CHUNK, GET_COOKIE, GET_COOKIE_RECENT, LAST,
    LAST_CHUNK, LAST_PIECE, LEASE, LEASE_ACK, PIECE, PROBE, PROPOSE, ROUTE, Step, VICTORY,
};

// One answer after 40 ms: a copy goes after 120. Then the time is doubled, up to a second.
pub(crate) const DOUBLED: &[Step] = &[
    (0u64, Sends, BEGIN, 6u64, 1u64, 1usize, false),
    (40, Hears, ACCEPT, 6, 1, 0, true),
    (1_000, Sends, BEGIN, 6, 2, 1, false),
    (1_119, Rests, 0, 0, 0, 0, false),
    (1_120, Rests, 0, 0, 0, 1, false),
    (1_359, Rests, 0, 0, 0, 0, false),
    (1_360, Rests, 0, 0, 0, 1, false),
    (1_839, Rests, 0, 0, 0, 0, false),
    (1_840, Rests, 0, 0, 0, 1, false),
    (2_799, Rests, 0, 0, 0, 0, false),
    (2_800, Rests, 0, 0, 0, 1, false),
    (3_799, Rests, 0, 0, 0, 0, false),
    (3_800, Rests, 0, 0, 0, 1, false),
    (4_799, Rests, 0, 0, 0, 0, false),
    (4_800, Rests, 0, 0, 0, 1, false),
];

// An answer in no time: a copy goes after 3 ms, but that of a GET_CHUNK after 100.
pub(crate) const SOONEST: &[Step] = &[
    (0u64, Sends, BEGIN, 6u64, 1u64, 1usize, false),
    (0, Hears, ACCEPT, 6, 1, 0, true),
    (10, Sends, BEGIN, 6, 2, 1, false),
    (12, Rests, 0, 0, 0, 0, false),
    (13, Rests, 0, 0, 0, 1, false),
    (18, Rests, 0, 0, 0, 0, false),
    (19, Rests, 0, 0, 0, 1, false),
    (20, Hears, ACCEPT, 6, 2, 0, true),
    (30, Sends, GET_CHUNK, 6, 7, 1, false),
    (129, Rests, 0, 0, 0, 0, false),
    (130, Rests, 0, 0, 0, 1, false),
    (329, Rests, 0, 0, 0, 0, false),
    (330, Rests, 0, 0, 0, 1, false),
];

// A message of a later epoch ends a PROPOSE, also if it isn't of the greatest epoch so far.
pub(crate) const OUTVOTED_LATER: &[Step] = &[
    (0u64, Hears, PROPOSE, 9u64, 0u64, 0usize, true),
    (1, Sends, PROPOSE, 5, 0, 1, false),
    (501, Rests, 0, 0, 0, 1, false),
    (600, Hears, PROPOSE, 7, 0, 0, true),
    (60_000, Rests, 0, 0, 0, 0, false),
];

// A VICTORY is answered by a LAST and by an ACCEPT too, and by nothing else.
pub(crate) const WON_OTHERWISE: &[Step] = &[
    (0u64, Sends, VICTORY, 6u64, 0u64, 1usize, false),
    (100, Hears, ROUTE, 6, 1, 0, true),
    (500, Rests, 0, 0, 0, 1, false),
    (600, Hears, LAST, 6, 0, 0, true),
    (20_000, Rests, 0, 0, 0, 0, false),
    (21_000, Sends, VICTORY, 8, 0, 1, false),
    (21_500, Rests, 0, 0, 0, 1, false),
    (21_600, Hears, ACCEPT, 8, 0, 0, true),
    (60_000, Rests, 0, 0, 0, 0, false),
];

// A COLLECT ends the BEGIN before it, and a COMMIT of its epoch.
pub(crate) const COLLECTED_ANEW: &[Step] = &[
    (0u64, Sends, BEGIN, 6u64, 1u64, 1usize, false),
    (10, Sends, COLLECT, 6, 9, 1, false),
    (509, Rests, 0, 0, 0, 0, false),
    (510, Rests, 0, 0, 0, 1, false),
    (600, Hears, LAST, 6, 9, 0, true),
    (20_000, Rests, 0, 0, 0, 0, false),
    (21_000, Sends, COMMIT, 6, 1, 1, false),
    (21_001, Sends, COLLECT, 6, 9, 1, false),
    (21_002, Hears, LAST, 6, 9, 0, true),
    (60_000, Rests, 0, 0, 0, 0, false),
];

// A LEASE_ACK of a later version shows that a COMMIT arrived.
pub(crate) const COMMITTED_LATER: &[Step] = &[
    (0u64, Sends, COMMIT, 6u64, 1u64, 1usize, false),
    (500, Rests, 0, 0, 0, 1, false),
    (600, Hears, LEASE_ACK, 6, 2, 0, true),
    (60_000, Rests, 0, 0, 0, 0, false),
];

// A BEGIN, a COMMIT and a COLLECT each end the LEASE before it.
pub(crate) const LEASED_BEFORE: &[Step] = &[
    (0u64, Sends, LEASE, 6u64, 0u64, 1usize, false),
    (1, Sends, BEGIN, 6, 1, 1, false),
    (2, Hears, ACCEPT, 6, 1, 0, true),
    (2_000, Rests, 0, 0, 0, 0, false),
    (3_000, Sends, LEASE, 6, 0, 1, false),
    (3_001, Sends, COMMIT, 6, 1, 1, false),
    (3_002, Hears, LEASE_ACK, 6, 1, 0, true),
    (5_000, Rests, 0, 0, 0, 0, false),
    (6_000, Sends, LEASE, 6, 0, 1, false),
    (6_001, Sends, COLLECT, 6, 11, 1, false),
    (6_002, Hears, LAST, 6, 11, 0, true),
    (60_000, Rests, 0, 0, 0, 0, false),
];

// A question for a cookie goes again every two seconds, also after a cookie, until a chunk is asked for.
pub(crate) const COPIED_SINCE: &[Step] = &[
    (0u64, Sends, GET_COOKIE_RECENT, 6u64, 5u64, 1usize, false),
    (1_999, Rests, 0, 0, 0, 0, false),
    (2_000, Rests, 0, 0, 0, 1, false),
    (3_999, Rests, 0, 0, 0, 0, false),
    (4_000, Rests, 0, 0, 0, 1, false),
    (4_100, Hears, COOKIE, 6, 0, 0, true),
    (6_000, Rests, 0, 0, 0, 1, false),
    (6_100, Sends, GET_CHUNK, 6, 7, 1, false),
    (6_600, Rests, 0, 0, 0, 1, false),
    (7_600, Rests, 0, 0, 0, 1, false),
    (8_000, Rests, 0, 0, 0, 0, false),
];

// After a piece of the chunk its GET_CHUNK waits its whole time again, and 20 ms after the last piece. The next GET_CHUNK ends
// it, and the pieces of the chunk before that one don't count.
pub(crate) const IN_PIECES: &[Step] = &[
    (0u64, Sends, GET_CHUNK, 6u64, 7u64, 1usize, false),
    (400, Hears, PIECE, 0, 3, 0, true),
    (899, Rests, 0, 0, 0, 0, false),
    (900, Rests, 0, 0, 0, 1, false),
    (1_000, Hears, LAST_PIECE, 0, 3, 0, true),
    (1_019, Rests, 0, 0, 0, 0, false),
    (1_020, Rests, 0, 0, 0, 1, false),
    (1_100, Sends, GET_CHUNK, 6, 8, 1, false),
    (1_200, Hears, LAST_PIECE, 0, 3, 0, true),
    (1_599, Rests, 0, 0, 0, 0, false),
    (1_600, Rests, 0, 0, 0, 1, false),
    (1_700, Hears, LAST_PIECE, 0, 4, 0, true),
    (1_719, Rests, 0, 0, 0, 0, false),
    (1_720, Rests, 0, 0, 0, 1, false),
];

// The next ACCEPT ends the one before it.
pub(crate) const ACCEPTED_NEXT: &[Step] = &[
    (0u64, Sends, ACCEPT, 6u64, 1u64, 1usize, false),
    (1, Sends, ACCEPT, 6, 2, 1, false),
    (2, Hears, BEGIN, 6, 1, 0, true),
    (3, Hears, BEGIN, 6, 2, 1, false),
];

// A GET_COOKIE ends the copies of a CHUNK, and a PROBE those of a LAST_CHUNK.
pub(crate) const ANSWERED_BEFORE: &[Step] = &[
    (0u64, Hears, GET_CHUNK, 6u64, 7u64, 0usize, true),
    (1, Sends, CHUNK, 6, 7, 1, false),
    (100, Hears, GET_CHUNK, 6, 7, 1, false),
    (200, Hears, GET_COOKIE, 6, 0, 0, true),
    (300, Hears, GET_CHUNK, 6, 7, 0, true),
    (301, Sends, LAST_CHUNK, 6, 7, 1, false),
    (400, Hears, GET_CHUNK, 6, 7, 1, false),
    (500, Hears, PROBE, 6, 0, 0, true),
    (600, Hears, GET_CHUNK, 6, 7, 0, true),
];
