use crate::digits::number;
use mon_decode::decode;
use mon_wire::*;
use std::alloc::Global;
use std::test::Fail;

/// A message of each kind in hexadecimal digits, in the order of the kinds: of the monitor 1 of 3 in epoch 2, but for the
/// request.
const EXAMPLES: &str = "\
010101030200000000000000
010201030200000000000000050001000000000000000200000000000000
010301030200000000000000010100000000000000020000000000000040420f000000000029420f00010000000000000002\
    0000000000000040420f000000000029420f000100000000000000020000000000000040420f000000000029420f00
010401030200000000000000
0105010302000000000000000700
010601030200000000000000640000000000000000000000000000000000000000000000
0107010302000000000000006500000000000000010000000000000002000000000000000103000000000000000100100000\
    00010100000001026b760161010000007801650000000000000010000000010100000001026b7601610100000078
0108010302000000000000006400000000000000010000000000000010000000010100000001026b7601610100000078
01090103020000000000000064000000000000000100000000000000
010a010302000000000000000100000000000000020010000000010100000001026b76016101000000781000000001010000\
    0001026b7601610100000078
010b010302000000000000000100000000000000
010c010302000000000000000100000000000000
010d0103020000000000000001000000000000000101610100000078
010e010302000000000000000100000000000000094000000000000000
010f01030200000000000000
0110010302000000000000000900000000000000
01110103020000000000000001040000000000000005000000000000000900000000000000
01120103020000000000000004000000000000000500000000000000070000000000000001026b76016b
01130103020000000000000004000000000000000500000000000000070000000000000001026b76016b0100100000000101\
    00000001026b76016101000000780100026b76016b02000000ff0000
01140103020000000000000004000000000000000500000000000000090000000000000002000000000900000000000000
01150103020000000000000004000000000000000500000000000000
01160103020000000000000000
011701030200000000000000010100000000000000020000000000000040420f000000000029420f00010000000000000002\
    0000000000000040420f000000000029420f000100000000000000020000000000000040420f000000000029420f00
011800030000000000000000060000000000000005020300000000000000
01190103020000000000000006000000000000000201010000000000000001000000000000000b0000000100000001610100\
    000078
";

/// For each row: the message and the place of a byte in it, both from 0 on, the new value of that byte, and the fault
/// that decoding then names, by its kind and place.
const FAULTS: &str = "\
0 0 0 Format 0
0 1 0 Kind 1
0 1 2 Cut 12
0 2 3 From 2
0 11 128 Number 4
1 12 8 Value 12
2 12 0 Rest 13
2 12 2 Value 12
2 29 128 Value 29
4 12 8 Value 12
6 36 2 Value 36
6 45 0 Value 47
6 45 2 Cut 71
6 47 0 Value 51
6 67 0 Rest 68
6 67 2 Value 67
6 76 0 Value 80
7 28 0 Value 32
8 0 0 Format 0
8 1 0 Kind 1
8 1 8 Cut 28
8 2 3 From 2
8 11 128 Number 4
8 27 128 Number 20
9 20 0 Value 20
9 20 1 Rest 42
9 22 0 Value 26
9 42 0 Value 46
12 20 0 Value 20
12 20 2 Rest 23
12 21 0 Value 21
12 21 2 Value 22
12 23 0 Rest 27
12 27 128 Value 27
13 20 0 Value 20
16 12 2 Value 12
17 36 0 Rest 37
17 36 3 Value 36
17 37 0 Value 37
17 37 3 Value 38
17 40 0 Value 40
17 41 0 Value 41
18 36 0 Cut 43
18 36 3 Value 36
18 37 0 Value 37
18 37 3 Value 38
18 40 0 Value 40
18 40 2 Value 41
18 42 0 Value 46
18 44 0 Value 48
18 64 0 Value 66
18 64 2 Value 77
18 66 3 Value 67
18 69 0 Value 69
18 69 2 Value 70
18 71 0 Value 75
18 71 1 Rest 77
19 36 1 Value 37
19 36 3 Value 36
21 12 2 Value 12
22 12 0 Rest 13
22 12 2 Value 12
22 29 128 Value 29
23 0 0 Format 0
23 1 0 Kind 1
23 1 8 Cut 28
23 2 3 From 2
23 4 1 Value 4
23 11 128 Number 4
23 20 0 Value 20
23 20 1 Value 22
23 21 0 Value 21
24 1 8 Cut 32
24 20 0 Value 20
24 20 1 Rest 29
24 20 3 Rest 33
24 20 5 Rest 37
24 20 8 Rest 30
24 21 0 Value 21
24 21 2 Value 42
";

/// The fault that decoding names, or nothing if there is none.
fn fault(alloc: Global, bytes: &[u8]) -> Result<Option<(MsgKind, usize)>, Fail> {
    match decode(alloc, bytes) {
        Ok(message) => {
            drop(message);
            Ok(None)
        }
        Err(MsgRefused::At { at, kind }) => Ok(Some((kind, at))),
        Err(MsgRefused::OutOfMemory) => Err(Fail::from("out of memory")),
    }
}

/// The fault that decoding names in the bytes that the digits encode, or nothing if there is none.
fn fault_of(alloc: Global, digits: &str) -> Result<Option<(MsgKind, usize)>, Fail> {
    let bytes = hex::decode(alloc, digits)?;
    let found = fault(alloc, &bytes);
    drop(bytes);
    found
}

/// Whether each prefix of a message is refused as too short.
fn prefixes_are_cut(alloc: Global, message: &[u8]) -> Result<bool, Fail> {
    for n in 0..message.len() {
        let (kind, _) = fault(alloc, &message[..n])?.ok_or("a fault")?;
        if kind != MsgKind::Cut {
            return Ok(false);
        }
    }
    Ok(true)
}

fn all_prefixes_are_cut(alloc: Global, digits: &str) -> Result<bool, Fail> {
    let message = hex::decode(alloc, digits)?;
    let found = prefixes_are_cut(alloc, &message);
    drop(message);
    found
}

/// Whether one byte more than a message is too many.
fn is_whole(alloc: Global, digits: &str) -> Result<bool, Fail> {
    let more = format!(in alloc; "{digits}00")?;
    let found = fault_of(alloc, more.as_str());
    drop(more);
    Ok(found? == Some((MsgKind::Rest, digits.len() / 2)))
}

/// Whether each proper prefix of a message is refused as too short, and one byte more as too many.
fn is_as_long(alloc: Global, digits: &str) -> Result<bool, Fail> {
    Ok(all_prefixes_are_cut(alloc, digits)? && is_whole(alloc, digits)?)
}

/// The digits of the message of that number from 0 on.
fn example(message: usize) -> Result<&'static str, Fail> {
    Ok(EXAMPLES.lines().nth(message).ok_or("a message")?)
}

#[test]
fn a_part_is_cut_and_a_byte_more_is_too_many(rt: HostRuntime) -> Result<(), Fail> {
    for digits in EXAMPLES.lines() {
        assert!(rt; is_as_long(rt.alloc(), digits)?, "{digits}");
    }
    Ok(())
}

#[test]
fn the_place_of_a_cut_is_that_of_its_field(rt: HostRuntime) -> Result<(), Fail> {
    let alloc = rt.alloc();
    // the last byte of an ACCEPT's version is left out
    let accept = example(8)?.get(..54).ok_or("a front")?;
    for (digits, at) in [("", 0usize), ("01", 1), (accept, 20)] {
        assert!(rt;
            fault_of(alloc, digits)? == Some((MsgKind::Cut, at)),
            "{digits}"
        );
    }
    Ok(())
}

/// The fault of a message with this byte at a place.
fn fault_with(
    alloc: Global,
    message: &mut [u8],
    place: usize,
    byte: u8,
) -> Result<Option<(MsgKind, usize)>, Fail> {
    *message.get_mut(place).ok_or("a place")? = byte;
    fault(alloc, message)
}

fn fault_of_changed(
    alloc: Global,
    digits: &str,
    place: usize,
    byte: u8,
) -> Result<Option<(MsgKind, usize)>, Fail> {
    let mut message = hex::decode(alloc, digits)?;
    let found = fault_with(alloc, &mut message, place, byte);
    drop(message);
    found
}

/// Whether the changed byte of a row makes the fault that the row states.
fn is_as_stated(alloc: Global, row: &str) -> Result<bool, Fail> {
    let mut words = row.splitn(4, ' ');
    let (message, place) = (number(words.next())?, number(words.next())?);
    let byte = u8::try_from(number(words.next())?)?;
    let (kind, at) = fault_of_changed(alloc, example(message)?, place, byte)?.ok_or("a fault")?;
    let found = format!(in alloc; "{kind:?} {at}")?;
    Ok(Some(found.as_str()) == words.next())
}

#[test]
fn a_changed_byte_is_refused_at_its_first_fault(rt: HostRuntime) -> Result<(), Fail> {
    for row in FAULTS.lines() {
        assert!(rt; is_as_stated(rt.alloc(), row)?, "{row}");
    }
    Ok(())
}
