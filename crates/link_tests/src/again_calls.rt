//! Which PROPOSEs aren't handed up.

use crate::again::Does::{Hears, Sends};
use crate::again::{ACCEPT, ACK, LEASE_ACK, PROBE, PROPOSE, Step, VICTORY};

// In a quorum one PROPOSE of an earlier epoch is handed up, and then none for 10, 20, 40, 60 and 60 seconds.
pub(crate) const EARLIER: &[Step] = &[
    (0u64, Sends, VICTORY, 6u64, 0u64, 1usize, false),
    (1, Hears, ACCEPT, 6, 0, 0, true),
    (1_000, Hears, PROPOSE, 5, 0, 0, true),
    (1_001, Hears, PROPOSE, 5, 0, 0, false),
    (10_999, Hears, PROPOSE, 5, 0, 0, false),
    (11_000, Hears, PROPOSE, 5, 0, 0, true),
    (30_999, Hears, PROPOSE, 5, 0, 0, false),
    (31_000, Hears, PROPOSE, 3, 0, 0, true),
    (70_999, Hears, PROPOSE, 5, 0, 0, false),
    (71_000, Hears, PROPOSE, 5, 0, 0, true),
    (130_999, Hears, PROPOSE, 5, 0, 0, false),
    (131_000, Hears, PROPOSE, 5, 0, 0, true),
    (190_999, Hears, PROPOSE, 5, 0, 0, false),
    (191_000, Hears, PROPOSE, 5, 0, 0, true),
];

// After a minute without one the first rest is short again.
pub(crate) const FORGOTTEN: &[Step] = &[
    (0u64, Sends, LEASE_ACK, 6u64, 0u64, 1usize, false),
    (1_000, Hears, PROPOSE, 5, 0, 0, true),
    (12_000, Hears, PROPOSE, 5, 0, 0, true),
    (31_999, Hears, PROPOSE, 5, 0, 0, false),
    (92_000, Hears, PROPOSE, 5, 0, 0, true),
    (101_999, Hears, PROPOSE, 5, 0, 0, false),
    (102_000, Hears, PROPOSE, 5, 0, 0, true),
];

// A PROPOSE of one's own epoch or a later one is always handed up, and so is each one while one elects or probes.
pub(crate) const OF_OTHERS: &[Step] = &[
    (0u64, Sends, LEASE_ACK, 6u64, 0u64, 1usize, false),
    (1, Hears, PROPOSE, 5, 0, 0, true),
    (2, Hears, PROPOSE, 5, 0, 0, false),
    (3, Hears, PROPOSE, 7, 0, 0, true),
    (4, Sends, ACK, 7, 0, 1, false),
    (5, Hears, PROPOSE, 5, 0, 0, true),
    (6, Sends, LEASE_ACK, 8, 0, 1, false),
    (7, Hears, PROPOSE, 7, 0, 0, false),
    (8, Sends, PROBE, 8, 0, 1, false),
    (9, Hears, PROPOSE, 7, 0, 0, true),
];

// A PROPOSE that was acknowledged comes again each second: from the tenth time on it isn't handed up for 12 seconds.
pub(crate) const UNHEARD: &[Step] = &[
    (0u64, Hears, PROPOSE, 5u64, 0u64, 0usize, true),
    (1, Sends, ACK, 5, 0, 1, false),
    (2, Hears, PROPOSE, 5, 0, 0, true),
    (501, Hears, PROPOSE, 5, 0, 0, true),
    (502, Hears, PROPOSE, 5, 0, 0, true),
    (1_501, Hears, PROPOSE, 5, 0, 0, true),
    (1_502, Sends, ACK, 5, 0, 1, false),
    (2_501, Hears, PROPOSE, 5, 0, 0, true),
    (3_501, Hears, PROPOSE, 5, 0, 0, true),
    (4_501, Hears, PROPOSE, 5, 0, 0, true),
    (7_001, Hears, PROPOSE, 5, 0, 0, true),
    (8_001, Hears, PROPOSE, 5, 0, 0, true),
    (9_001, Hears, PROPOSE, 5, 0, 0, true),
    (9_501, Hears, PROPOSE, 5, 0, 0, true),
    (10_001, Hears, PROPOSE, 5, 0, 0, false),
    (22_000, Hears, PROPOSE, 5, 0, 0, false),
    (22_001, Hears, PROPOSE, 5, 0, 0, true),
];

// An acknowledged PROPOSE that arrives again after its election is always handed up, and so is one of another epoch.
pub(crate) const HEARD: &[Step] = &[
    (0u64, Hears, PROPOSE, 5u64, 0u64, 0usize, true),
    (1, Sends, ACK, 5, 0, 1, false),
    (5_000, Hears, PROPOSE, 5, 0, 0, true),
    (10_000, Hears, PROPOSE, 5, 0, 0, true),
    (15_000, Hears, PROPOSE, 5, 0, 0, true),
    (15_500, Hears, PROPOSE, 5, 0, 0, true),
    (16_000, Hears, PROPOSE, 5, 0, 0, true),
    (16_500, Hears, PROPOSE, 5, 0, 0, true),
    (17_000, Hears, PROPOSE, 5, 0, 0, true),
    (19_501, Hears, PROPOSE, 5, 0, 0, true),
    (20_001, Hears, PROPOSE, 5, 0, 0, true),
    (20_501, Hears, PROPOSE, 5, 0, 0, true),
    (21_001, Hears, PROPOSE, 5, 0, 0, true),
    (21_501, Hears, PROPOSE, 5, 0, 0, true),
    (22_001, Hears, PROPOSE, 5, 0, 0, true),
    (22_501, Hears, PROPOSE, 5, 0, 0, true),
    (23_001, Hears, PROPOSE, 5, 0, 0, true),
    (23_501, Hears, PROPOSE, 5, 0, 0, true),
    (24_001, Hears, PROPOSE, 5, 0, 0, false),
    (24_002, Hears, PROPOSE, 7, 0, 0, true),
    (24_003, Sends, ACK, 7, 0, 1, false),
    (25_000, Hears, PROPOSE, 7, 0, 0, true),
];

// A PROPOSE of a monitor whose PROPOSE wasn't acknowledged is always handed up.
pub(crate) const RIVAL: &[Step] = &[
    (0u64, Sends, PROPOSE, 5u64, 0u64, 1usize, false),
    (1_000, Hears, PROPOSE, 5, 0, 0, true),
    (2_000, Hears, PROPOSE, 5, 0, 0, true),
    (3_000, Hears, PROPOSE, 5, 0, 0, true),
    (4_000, Hears, PROPOSE, 5, 0, 0, true),
    (5_000, Hears, PROPOSE, 5, 0, 0, true),
    (6_000, Hears, PROPOSE, 5, 0, 0, true),
    (7_000, Hears, PROPOSE, 5, 0, 0, true),
    (8_000, Hears, PROPOSE, 5, 0, 0, true),
    (9_000, Hears, PROPOSE, 5, 0, 0, true),
    (10_000, Hears, PROPOSE, 5, 0, 0, true),
    (11_000, Hears, PROPOSE, 5, 0, 0, true),
    (12_000, Hears, PROPOSE, 5, 0, 0, true),
];
