use map_log::*;
use mon_bytes::Text;
use mon_types::Rank;
use std::alloc::Global;
use std::test::Fail;

fn entry(alloc: Global, byte: u8, length: usize) -> Result<LogInc, Fail> {
    let text = Text::new(vec![in alloc; byte; length]?).ok_or("a text")?;
    let rank = Rank::new(1).ok_or("a rank")?;
    Ok(LogInc { rank, text })
}

/// Adds an entry with a text of this length. Returns the number of entries and the map's size.
fn given(alloc: Global, map: &mut LogMap, length: usize) -> Result<(usize, u64), Fail> {
    let entry = entry(alloc, 120, length)?;
    let done = map.apply(&entry);
    drop(entry);
    done?;
    Ok((map.entries().len(), map.size()))
}

/// The same for four entries, one after the other.
fn four_given(alloc: Global, map: &mut LogMap) -> Result<[(usize, u64); 4], Fail> {
    Ok([
        given(alloc, map, 12_279)?,
        given(alloc, map, 0)?,
        given(alloc, map, 12_274)?,
        given(alloc, map, 12_280)?,
    ])
}

#[test]
fn entries_go_until_the_bytes_fit(rt: HostRuntime) -> Result<(), Fail> {
    let mut map = LogMap::new(rt.alloc());
    let found = four_given(rt.alloc(), &mut map);
    drop(map);
    assert_eq!(rt; found?, [(1, 12_288), (1, 9), (2, 12_288), (0, 4)]);
    Ok(())
}
