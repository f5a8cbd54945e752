use map_kv::{KvInc, KvMap};
use mon_bytes::{Name, Text};
use std::alloc::Global;
use std::test::Fail;

/// Puts the longest value under a key, by a copy of the incremental.
fn put(alloc: Global, map: &mut KvMap, key: &[u8]) -> Result<(), Fail> {
    let value = Text::new(vec![in alloc; 120u8; 65_536]?).ok_or("a text")?;
    let key = Name::new(key.to_vec(alloc)?).ok_or("a name")?;
    let inc = KvInc::Set { key, value };
    let copy = inc.copy(alloc);
    drop(inc);
    let copy = copy?;
    let done = map.apply(&copy);
    drop(copy);
    Ok(done?)
}

fn put_all(alloc: Global, map: &mut KvMap, keys: &str) -> Result<(), Fail> {
    for key in keys.as_bytes().chunks(1) {
        put(alloc, map, key)?;
    }
    Ok(())
}

/// Puts the longest value under each one-byte key. Returns the map's size and its second key, or `.` if it has none.
fn filled(alloc: Global, map: &mut KvMap, keys: &str) -> Result<String, Fail> {
    put_all(alloc, map, keys)?;
    let second = str::from_utf8(map.key(1).unwrap_or(b"."))?;
    Ok(format!(in alloc; "{} {second}", map.size())?)
}

/// The same for a new map.
fn of_new_map(alloc: Global, keys: &str) -> Result<String, Fail> {
    let mut map = KvMap::new(alloc);
    let of_new_map = filled(alloc, &mut map, keys);
    drop(map);
    of_new_map
}

#[test]
fn a_map_is_as_long_as_its_entries(rt: HostRuntime) -> Result<(), Fail> {
    for (keys, wanted) in [("", "4 ."), ("ab", "131088 b"), ("ecadb", "327714 b")] {
        assert_eq!(rt; of_new_map(rt.alloc(), keys)?.as_str(), wanted, "{keys}");
    }
    Ok(())
}
