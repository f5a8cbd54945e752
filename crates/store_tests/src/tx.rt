use mon_tx::{Area, Key};
use std::test::Fail;

#[test]
fn keys_and_areas_have_these_names(rt: HostRuntime) -> Result<(), Fail> {
    let alloc = rt.alloc();
    for (key, text) in [
        (Key::FirstCommitted, "first_committed"),
        (Key::Floor, "last_committed_floor"),
        (Key::Version(0), "0"),
        (Key::Full(700), "full_700"),
    ] {
        assert_eq!(rt; key.name(alloc)?.as_str(), text);
    }
    assert_eq!(rt; Area::Sync.prefix(alloc)?.as_str(), "mon_sync");
    Ok(())
}
