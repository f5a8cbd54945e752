//! Bytes that other programs encoded or corrupted, and how they are decoded.

use map_kv::{KvInc, KvMap};
use map_log::LogMap;
use mon_bytes::Decode;
use std::alloc::Global;
use std::test::Fail;

/// One row per line: a kind, bytes in hexadecimal digits, and why they are refused, or `read` if decoding and encoding
/// gives the same bytes.
const ROWS: &str = "\
transaction 010200000001026b760161010000007803036c6f67 read\n\
transaction 010200 Cut { at: 1 }\n\
transaction 0200000000 Kind { at: 0 }\n\
transaction 010200000001026b760161010000007803036c6f6700 Rest { at: 21 }\n\
transaction 01010000000300 Name { at: 6 }\n\
transaction  Cut { at: 0 }\n\
transaction 020100000004057061786f730100000000000000fb00000000000000 read\n\
transaction 020100000004057061786f7301000000000000000100000000000000 Range { at: 20 }\n\
transaction 010100000004057061786f730100000000000000fb00000000000000 Kind { at: 5 }\n\
transaction 010100000003017e read\n\
transaction 02010000000401780000000000000000fcffffffffffff3f read\n\
transaction 02ffffffff04026b7600000000000000000200000000000000 Cut { at: 25 }\n\
transaction 010000010003026b763a Kind { at: 9 }\n\
transaction 0101000000031f2121212121219a212121212121212121212121212121212121212121212121 Name { at: \
    13 }\n\
transaction 020200000004057069786f730100000000000000ffffffffffffffff02026b760161 Range { at: 20 }\n\
transaction 020000000004026b766300000000000000ffffffffffffff3f Rest { at: 5 }\n\
change 0101610100000078 read\n\
change 02026162 read\n\
change  Form { at: 0 }\n\
change 030161 Form { at: 0 }\n\
change 0200 Form { at: 1 }\n\
change 02036162 Form { at: 2 }\n\
change 02026120 Form { at: 2 }\n\
change 010161010000 Form { at: 3 }\n\
change 0101610200000078 Form { at: 7 }\n\
change 01016101000000ff Form { at: 7 }\n\
change 02016162 Form { at: 3 }\n\
map 0200000002616202000000787801620100000078 read\n\
map 000000 Form { at: 0 }\n\
map 0000000078 Form { at: 4 }\n\
map ffffffff Form { at: 4 }\n\
map 0100000000 Form { at: 4 }\n\
map 02000000016200000000016100000000 Form { at: 11 }\n\
map 02000000016200000000016200000000 Form { at: 11 }\n\
log 020000000e0200000068690000000000 read\n\
log 000000 Form { at: 0 }\n\
log 0000000078 Form { at: 4 }\n\
log ffffffff Form { at: 4 }\n\
log 010000000f Form { at: 4 }\n\
log 010000000e0000 Form { at: 5 }\n\
";

fn of_transaction(alloc: Global, bytes: &[u8]) -> Result<String, Fail> {
    match mon_tx::decode(alloc, bytes) {
        Ok(tx) => {
            let again = tx.encode();
            drop(tx);
            encoded_again(alloc, again?, bytes)
        }
        Err(refused) => Ok(format!(in alloc; "{refused:?}")?),
    }
}

fn of_change(alloc: Global, bytes: &[u8]) -> Result<String, Fail> {
    match KvInc::decode(alloc, bytes) {
        Ok(change) => {
            let again = change.encode(alloc);
            drop(change);
            encoded_again(alloc, again?, bytes)
        }
        Err(refused) => Ok(format!(in alloc; "{refused:?}")?),
    }
}

fn of_map(alloc: Global, bytes: &[u8]) -> Result<String, Fail> {
    match KvMap::decode(alloc, bytes) {
        Ok(map) => {
            let again = map.encode();
            drop(map);
            encoded_again(alloc, again?, bytes)
        }
        Err(refused) => Ok(format!(in alloc; "{refused:?}")?),
    }
}

fn of_log(alloc: Global, bytes: &[u8]) -> Result<String, Fail> {
    match LogMap::decode(alloc, bytes) {
        Ok(map) => {
            let again = map.encode();
            drop(map);
            encoded_again(alloc, again?, bytes)
        }
        Err(refused) => Ok(format!(in alloc; "{refused:?}")?),
    }
}

/// The outcome for decoded bytes: `read` if encoding them gave the same bytes again.
fn encoded_again(alloc: Global, again: Vec<u8>, bytes: &[u8]) -> Result<String, Fail> {
    let alike = again.as_slice() == bytes;
    drop(again);
    Ok(String::from_str(alloc, if alike { "read" } else { "spelled otherwise" })?)
}

/// The outcome of decoding bytes, given in hexadecimal digits, as a kind.
fn outcome(alloc: Global, what: &str, digits: &str) -> Result<String, Fail> {
    let bytes = hex::decode(alloc, digits)?;
    let outcome = match what {
        "transaction" => of_transaction(alloc, &bytes),
        "change" => of_change(alloc, &bytes),
        "map" => of_map(alloc, &bytes),
        "log" => of_log(alloc, &bytes),
        _ => Err("no such kind".into()),
    };
    drop(bytes);
    outcome
}

/// Whether a row's outcome is the one that it names.
fn is_as_stated(alloc: Global, row: &str) -> Result<bool, Fail> {
    let mut words = row.splitn(3, ' ');
    let (what, digits) = (words.next().unwrap_or(""), words.next().unwrap_or(""));
    let outcome = outcome(alloc, what, digits)?;
    Ok(Some(outcome.as_str()) == words.next())
}

#[test]
fn bytes_are_encoded_again_or_refused_at_their_first_fault(rt: HostRuntime) -> Result<(), Fail> {
    for row in ROWS.lines() {
        assert!(rt; is_as_stated(rt.alloc(), row)?, "{row}");
    }
    Ok(())
}
