//! Links that name their quorum, and links that close if their monitor stood still. The tag is 0102030405060708, and the life has the
//! number 9.

/// A frame comes off, and nothing else comes from a monitor. From a client all comes as it is.
pub const CAME: &[&str] = &[
    "\
> named
> from 1 monitor 1 -
> from 1 monitor 1 030102030405060708aa
> next
aa, 2 receives, 5 ms
",
    "\
> named
> from 1 monitor 1 03
> from 1 monitor 1 030102030405060708aa
> next
aa, 2 receives, 5 ms
",
    "\
> named
> from 1 monitor 1 0301
> from 1 monitor 1 030102030405060708aa
> next
aa, 2 receives, 5 ms
",
    "\
> named
> from 1 monitor 1 030102
> from 1 monitor 1 030102030405060708aa
> next
aa, 2 receives, 5 ms
",
    "\
> named
> from 1 monitor 1 03010203
> from 1 monitor 1 030102030405060708aa
> next
aa, 2 receives, 5 ms
",
    "\
> named
> from 1 monitor 1 0301020304
> from 1 monitor 1 030102030405060708aa
> next
aa, 2 receives, 5 ms
",
    "\
> named
> from 1 monitor 1 030102030405
> from 1 monitor 1 030102030405060708aa
> next
aa, 2 receives, 5 ms
",
    "\
> named
> from 1 monitor 1 03010203040506
> from 1 monitor 1 030102030405060708aa
> next
aa, 2 receives, 5 ms
",
    "\
> named
> from 1 monitor 1 0301020304050607
> from 1 monitor 1 030102030405060708aa
> next
aa, 2 receives, 5 ms
",
    "\
> named
> from 1 monitor 1 030102030405060708
> from 1 monitor 1 030102030405060708aa
> next
, 1 receives, 5 ms
> next
aa, 1 receives, 5 ms
",
    "\
> named
> from 1 monitor 1 030102030405060708ff
> from 1 monitor 1 030102030405060708aa
> next
ff, 1 receives, 5 ms
> next
aa, 1 receives, 5 ms
",
    "\
> named
> from 1 monitor 1 030102030405060709ff
> from 1 monitor 1 030102030405060708aa
> next
aa, 2 receives, 5 ms
",
    "\
> named
> from 1 monitor 1 030002030405060708ff
> from 1 monitor 1 030102030405060708aa
> next
aa, 2 receives, 5 ms
",
    "\
> named
> from 1 monitor 1 030000000000000000ff
> from 1 monitor 1 030102030405060708aa
> next
aa, 2 receives, 5 ms
",
    "\
> named
> from 1 monitor 1 03ffffffffffffffffff
> from 1 monitor 1 030102030405060708aa
> next
aa, 2 receives, 5 ms
",
    "\
> named
> from 1 monitor 1 020102030405060708ff
> from 1 monitor 1 030102030405060708aa
> next
aa, 2 receives, 5 ms
",
    "\
> named
> from 1 monitor 1 01010102
> from 1 monitor 1 030102030405060708aa
> next
aa, 2 receives, 5 ms
",
    "\
> named
> from 1 monitor 1 030102030405060708030102030405060708ff
> from 1 monitor 1 030102030405060708aa
> next
030102030405060708ff, 1 receives, 5 ms
> next
aa, 1 receives, 5 ms
",
    "\
> named
> from 1 monitor 1 030807060504030201030102030405060708ff
> from 1 monitor 1 030102030405060708aa
> next
aa, 2 receives, 5 ms
",
    "\
> named
> from 1 client 7 030102030405060708ff
> from 1 client 7 030102030405060708aa
> next
030102030405060708ff, 1 receives, 5 ms
> next
030102030405060708aa, 1 receives, 5 ms
",
    "\
> named
> from 1 client 7 030807060504030201ff
> from 1 client 7 030102030405060708aa
> next
030807060504030201ff, 1 receives, 5 ms
> next
030102030405060708aa, 1 receives, 5 ms
",
    "\
> named
> from 1 client 7 ff
> from 1 client 7 030102030405060708aa
> next
ff, 1 receives, 5 ms
> next
030102030405060708aa, 1 receives, 5 ms
",
    "\
> named
> from 1 client 7 -
> from 1 client 7 030102030405060708aa
> next
, 1 receives, 5 ms
> next
030102030405060708aa, 1 receives, 5 ms
",
];

/// Foreign datagrams are passed without waiting, 65 of them in one call at most.
pub const FLOODS: &[&str] = &[
    "\
> named
> from 1 monitor 1 030102030405060708aa
> next
aa, 1 receives, 5 ms
",
    "\
> named
> from 1 monitor 1 030102030405060709ff
> from 1 monitor 1 030102030405060708aa
> next
aa, 2 receives, 5 ms
",
    "\
> named
> from 64 monitor 1 030102030405060709ff
> from 1 monitor 1 030102030405060708aa
> next
aa, 65 receives, 5 ms
",
    "\
> named
> from 65 monitor 1 030102030405060709ff
> from 1 monitor 1 030102030405060708aa
> next
idle, 65 receives, 5 ms
> next
aa, 1 receives, 5 ms
",
    "\
> named
> from 129 monitor 1 030102030405060709ff
> from 1 monitor 1 030102030405060708aa
> next
idle, 65 receives, 5 ms
> next
aa, 65 receives, 5 ms
",
    "\
> named
> from 130 monitor 1 030102030405060709ff
> from 1 monitor 1 030102030405060708aa
> next
idle, 65 receives, 5 ms
> next
idle, 65 receives, 5 ms
> next
aa, 1 receives, 5 ms
",
    "\
> named
> from 1000 monitor 1 030102030405060709ff
> from 1 monitor 1 030102030405060708aa
> next
idle, 65 receives, 5 ms
> next
idle, 65 receives, 5 ms
> next
idle, 65 receives, 5 ms
> next
idle, 65 receives, 5 ms
> next
idle, 65 receives, 5 ms
> next
idle, 65 receives, 5 ms
> next
idle, 65 receives, 5 ms
> next
idle, 65 receives, 5 ms
> next
idle, 65 receives, 5 ms
> next
idle, 65 receives, 5 ms
> next
idle, 65 receives, 5 ms
> next
idle, 65 receives, 5 ms
> next
idle, 65 receives, 5 ms
> next
idle, 65 receives, 5 ms
> next
idle, 65 receives, 5 ms
> next
aa, 26 receives, 5 ms
",
];

/// What follows a foreign datagram is the answer.
pub const FOLLOWS: &[&str] = &[
    "\
> named
> from 1 monitor 1 030102030405060709ff
> failing 1
> next
failed, 1 receives, 5 ms
",
    "\
> named
> from 1 monitor 1 030102030405060709ff
> failing 2
> next
failed, 2 receives, 5 ms
",
    "\
> named
> from 1 monitor 1 030102030405060709ff
> failing 3
> next
closed, 2 receives, 5 ms
",
];

/// A datagram is numbered, and framed for a monitor.
pub const SENT: &[&str] = &[
    "\
> named
> send monitor 1 -
monitor 1 [030102030405060708]
> send client 7 -
client 7 []
> send monitor 1 01010102
monitor 1 [03010203040506070801010102]
> send client 7 01010102
client 7 [01010102]
> send monitor 1 03
monitor 1 [03010203040506070803]
> send client 7 03
client 7 [03]
> send monitor 1 02
monitor 1 [030102030405060708020900000000000000]
> send client 7 02
client 7 [020900000000000000]
> send monitor 1 02000000ff
monitor 1 [030102030405060708020000000900000000000000]
> send client 7 02000000ff
client 7 [020000000900000000000000]
> send monitor 1 02000000ffffffffffffffffee
monitor 1 [030102030405060708020000000900000000000000ee]
> send client 7 02000000ffffffffffffffffee
client 7 [020000000900000000000000ee]
> send monitor 1 020000000100000000000000020000000000000061ea00000000000061
monitor 1 [030102030405060708020000000900000000000000020000000000000061ea00000000000061]
> send client 7 020000000100000000000000020000000000000061ea00000000000061
client 7 [020000000900000000000000020000000000000061ea00000000000061]
> send monitor 1 02000000ffffffffffffffff00000000000000400000100000000000
monitor 1 [03010203040506070802000000090000000000000000000000000000400000100000000000]
> send client 7 02000000ffffffffffffffff00000000000000400000100000000000
client 7 [02000000090000000000000000000000000000400000100000000000]
",
];

/// A link that stood still for more than 10 ms is closed.
pub const LIVED: &[&str] = &[
    "\
> awake
> from 1 monitor 1 aa
> from 1 monitor 1 bb
> next
aa, 1 receives, 5 ms
> send monitor 1 dd
monitor 1 [dd]
> next
bb, 1 receives, 5 ms
",
    "\
> awake
> from 1 monitor 1 aa
> from 1 monitor 1 bb
> clock 1000000
> next
aa, 1 receives, 5 ms
> send monitor 1 dd
monitor 1 [dd]
> next
bb, 1 receives, 5 ms
",
    "\
> awake
> from 1 monitor 1 aa
> from 1 monitor 1 bb
> clock 0 10 20 30 40
> next
aa, 1 receives, 5 ms
> send monitor 1 dd
monitor 1 [dd]
> next
bb, 1 receives, 5 ms
",
    "\
> awake
> from 1 monitor 1 aa
> from 1 monitor 1 bb
> clock 0 10 21 22
> next
aa, 1 receives, 5 ms
> send monitor 1 dd
> next
closed, 0 receives, 0 ms
> next
closed, 0 receives, 0 ms
noted 1
",
    "\
> awake
> from 1 monitor 1 aa
> from 1 monitor 1 bb
> clock 0 11 12
> next
closed, 1 receives, 5 ms
> send monitor 1 dd
> next
closed, 0 receives, 0 ms
noted 1
",
    "\
> awake
> from 1 monitor 1 aa
> from 1 monitor 1 bb
> clock 0 0 11 0 0
> next
aa, 1 receives, 5 ms
> send monitor 1 dd
> next
closed, 0 receives, 0 ms
noted 1
",
    "\
> awake
> from 1 monitor 1 aa
> from 1 monitor 1 bb
> clock 50 40 0 10 20
> next
aa, 1 receives, 5 ms
> send monitor 1 dd
monitor 1 [dd]
> next
bb, 1 receives, 5 ms
",
    "\
> awake
> from 1 monitor 1 aa
> from 1 monitor 1 bb
> clock 50 40 0 10 21
> next
aa, 1 receives, 5 ms
> send monitor 1 dd
monitor 1 [dd]
> next
closed, 1 receives, 5 ms
noted 1
",
    "\
> awake
> from 1 monitor 1 aa
> from 1 monitor 1 bb
> clock 0 4611686018427387904 0
> next
closed, 1 receives, 5 ms
> send monitor 1 dd
> next
closed, 0 receives, 0 ms
noted 1
",
    "\
> awake
> from 1 monitor 1 aa
> from 1 monitor 1 bb
> clock 4611686018427387904 0 0
> next
aa, 1 receives, 5 ms
> send monitor 1 dd
monitor 1 [dd]
> next
bb, 1 receives, 5 ms
",
];
