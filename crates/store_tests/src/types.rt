use mon_types::*;
use std::test::Fail;

fn pn(n: u64) -> Result<Pn, Fail> {
    Ok(Pn::new(n).ok_or("a proposal number")?)
}

fn rank(n: u8) -> Result<Rank, Fail> {
    Ok(Rank::new(n).ok_or("a rank")?)
}

#[test]
fn the_next_number_of_a_rank_is_above_both(rt: HostRuntime) -> Result<(), Fail> {
    for (last, gt, r, next) in [
        (0u64, 0u64, 2u8, Some(102u64)),
        (199, 0, 1, Some(201)),
        (102, 301, 0, Some(400)),
        (4611686018427387899, 0, 4, Some(4611686018427387904)),
        (4611686018427387899, 0, 5, None),
    ] {
        let found = next_pn(pn(last)?, pn(gt)?, rank(r)?);
        assert_eq!(rt; found.map(|p| p.get()), next, "after {last} and {gt}");
    }
    Ok(())
}
