use crate::digits::filled;
use mon_bytes::Bytes;
use mon_frag::*;
use mon_link::Peer;
use std::alloc::Global;
use std::test::Fail;

const CLIENT: Peer = Peer::Client(3);

/// A message with two pieces.
fn message(alloc: Global) -> Result<Vec<u8>, Fail> {
    let mut message = filled(alloc, 7, 59_000)?;
    message.resize(60_001, 9)?;
    Ok(message)
}

/// One of the pieces, of which there are `count`.
fn nth(alloc: Global, pieces: &[Bytes], k: usize, count: usize) -> Result<Vec<u8>, Fail> {
    if pieces.len() != count {
        return Err("another count".into());
    }
    let piece = pieces.get(k).ok_or("no such piece")?;
    Ok(Vec::from_slice(alloc, piece.as_slice())?)
}

/// One of the pieces of a message that was sent under a number. There are `count` of them.
fn piece(alloc: Global, message: &[u8], seq: u64, k: usize, count: usize) -> Result<Vec<u8>, Fail> {
    if message.len() > 1_048_576 {
        return Err("too long".into());
    }
    let pieces = pieces(alloc, Bytes::new(Vec::from_slice(alloc, message)?), 1, seq)?;
    let piece = nth(alloc, pieces.as_slice(), k, count);
    drop(pieces);
    piece
}

/// The bytes with two others at a place, cut to a length.
fn altered(
    alloc: Global,
    bytes: &[u8],
    at: usize,
    two: &[u8],
    length: usize,
) -> Result<Vec<u8>, Fail> {
    let (front, rest) = bytes.split_at_checked(at).ok_or("out of the bytes")?;
    let (_, back) = rest.split_at_checked(2).ok_or("out of the bytes")?;
    let mut altered = [front, two, back].concat(alloc)?;
    altered.truncate(length);
    Ok(altered)
}

/// Whether these bytes complete the message. It is an error if they complete another one.
fn whole(assembly: &mut Assembly, bytes: &[u8], message: &[u8]) -> Result<bool, Fail> {
    match assembly.take(CLIENT, bytes)? {
        Some(made) => {
            let alike = made.as_slice() == message;
            drop(made);
            if alike {
                Ok(true)
            } else {
                Err("another message".into())
            }
        }
        None => Ok(false),
    }
}

/// The length of this piece of the message, and whether it completes the message.
fn whole_with(
    alloc: Global,
    assembly: &mut Assembly,
    message: &[u8],
    k: usize,
) -> Result<(usize, bool), Fail> {
    let piece = piece(alloc, message, 5, k, 2)?;
    let whole = whole(assembly, &piece, message);
    let length = piece.len();
    drop(piece);
    Ok((length, whole?))
}

/// `whole_with` of the last piece twice, and then of the first piece three times.
fn put_together(
    alloc: Global,
    assembly: &mut Assembly,
    message: &[u8],
) -> Result<[(usize, bool); 5], Fail> {
    Ok([
        whole_with(alloc, assembly, message, 1)?,
        whole_with(alloc, assembly, message, 1)?,
        whole_with(alloc, assembly, message, 0)?,
        whole_with(alloc, assembly, message, 0)?,
        whole_with(alloc, assembly, message, 0)?,
    ])
}

fn message_put_together(alloc: Global) -> Result<[(usize, bool); 5], Fail> {
    let message = message(alloc)?;
    let mut assembly = Assembly::new(alloc);
    let found = put_together(alloc, &mut assembly, &message);
    drop(assembly);
    drop(message);
    found
}

#[test]
fn pieces_make_the_message_whole(rt: HostRuntime) -> Result<(), Fail> {
    let (first, last) = (59_028, 1_029);
    let found = message_put_together(rt.alloc())?;
    assert!(rt; found[..2] == [(last, false), (last, false)]);
    assert!(rt; found[2..] == [(first, true), (first, false), (first, false)]);
    Ok(())
}

/// How long the one piece of a message of this many bytes is.
fn only_piece(alloc: Global, length: usize) -> Result<usize, Fail> {
    let message = filled(alloc, 7, length)?;
    let piece = piece(alloc, &message, 5, 0, 1);
    drop(message);
    Ok(piece?.len())
}

#[test]
fn a_message_of_60_000_bytes_is_one_datagram(rt: HostRuntime) -> Result<(), Fail> {
    assert_eq!(rt; only_piece(rt.alloc(), 60_000)?, 60_000);
    Ok(())
}

/// Why these bytes are refused, if they are.
fn refused(assembly: &mut Assembly, bytes: &[u8]) -> Option<FragRefused> {
    match assembly.take(CLIENT, bytes) {
        Ok(made) => {
            drop(made);
            None
        }
        Err(why) => Some(why),
    }
}

/// For each fault: the place of two bytes of a piece, what replaces them, the length to which the piece is then cut,
/// and why it is refused.
const FAULTS: [(usize, [u8; 2], usize, FragRefused); 10] = [
    (0, [2, 0], 1, FragRefused::Cut { at: 1 }),
    (0, [2, 0], 27, FragRefused::Cut { at: 24 }),
    (3, [1, 1], 11, FragRefused::Cut { at: 4 }),
    (3, [1, 1], 1_029, FragRefused::Form { at: 3 }),
    (10, [0, 128], 1_029, FragRefused::Form { at: 4 }),
    (18, [0, 128], 1_029, FragRefused::Form { at: 12 }),
    (20, [96, 234], 1_029, FragRefused::Form { at: 20 }),
    (24, [100, 0], 1_029, FragRefused::Form { at: 24 }),
    (0, [2, 0], 1_028, FragRefused::Form { at: 28 }),
    (28, [8, 9], 1_029, FragRefused::Clash),
];

/// Whether a piece that was taken before is refused as a fault states, once it is altered by that fault.
fn is_refused_so(
    alloc: Global,
    assembly: &mut Assembly,
    piece: &[u8],
    fault: &(usize, [u8; 2], usize, FragRefused),
) -> Result<bool, Fail> {
    let (at, two, length, wanted) = fault;
    let wrong = altered(alloc, piece, *at, two, *length)?;
    let found = refused(assembly, &wrong);
    drop(wrong);
    Ok(found == Some(*wanted))
}

/// Whether the piece is refused for each of the faults.
fn are_refused_so(alloc: Global, assembly: &mut Assembly, piece: &[u8]) -> Result<bool, Fail> {
    for fault in &FAULTS {
        if !is_refused_so(alloc, assembly, piece, fault)? {
            return Ok(false);
        }
    }
    Ok(true)
}

/// Whether a datagram of one byte too many is refused.
fn is_too_long(alloc: Global, assembly: &mut Assembly) -> Result<bool, Fail> {
    let long = filled(alloc, 1, 60_001)?;
    let found = refused(assembly, &long);
    drop(long);
    Ok(found == Some(FragRefused::TooLong))
}

/// Whether a datagram that is too long, and the piece with each fault, are refused once the piece was taken.
fn faults_are_refused(alloc: Global, assembly: &mut Assembly, piece: &[u8]) -> Result<bool, Fail> {
    let taken = refused(assembly, piece).is_none();
    Ok(taken && is_too_long(alloc, assembly)? && are_refused_so(alloc, assembly, piece)?)
}

fn last_piece(alloc: Global) -> Result<Vec<u8>, Fail> {
    let message = message(alloc)?;
    let piece = piece(alloc, &message, 5, 1, 2);
    drop(message);
    piece
}

fn faults_of_last_are_refused(alloc: Global) -> Result<bool, Fail> {
    let piece = last_piece(alloc)?;
    let mut assembly = Assembly::new(alloc);
    let found = faults_are_refused(alloc, &mut assembly, &piece);
    drop(assembly);
    drop(piece);
    found
}

#[test]
fn faults_have_their_places(rt: HostRuntime) -> Result<(), Fail> {
    assert!(rt; faults_of_last_are_refused(rt.alloc())?);
    Ok(())
}
