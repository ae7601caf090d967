use hpx_ended::round::{OutOfPlace, Verdict, Waves};
use std::alloc::Global;
use std::test::Fail;

// What each of three members has sent and accepted.
type Told = [(u64, u64); 3];

// What two waves of one round show, one after the other.
fn two_waves(alloc: Global, first: Told, second: Told) -> Result<(Verdict, Verdict), Fail> {
    let mut waves = Waves::new(alloc, 3)?;
    let [own, one, two] = first;
    let wave = waves.begin(own.0, own.1);
    waves.counts(2, wave, two.0, two.1)?;
    waves.counts(1, wave, one.0, one.1)?;
    let before = waves.verdict();
    if before == Verdict::Unfinished {
        return Ok((before, before));
    }
    let [own, one, two] = second;
    let wave = waves.begin(own.0, own.1);
    waves.counts(1, wave, one.0, one.1)?;
    waves.counts(2, wave, two.0, two.1)?;
    Ok((before, waves.verdict()))
}

#[test]
fn a_round_ends_where_two_waves_agree(rt: HostRuntime) -> Result<(), Fail> {
    let alloc = rt.alloc();
    let even = [(3, 1), (2, 2), (1, 3)];
    let short = [(3, 1), (2, 2), (1, 2)];
    let late = [(4, 2), (2, 2), (1, 3)];
    let idle = [(0, 0), (0, 0), (0, 0)];
    for (first, second, want) in [
        (even, even, Verdict::Ended),
        (short, even, Verdict::Again),
        (even, late, Verdict::Again),
        (late, late, Verdict::Ended),
        (short, short, Verdict::Again),
        (idle, idle, Verdict::Ended),
        (idle, even, Verdict::Again),
    ] {
        assert_eq!(rt; two_waves(alloc, first, second)?, (Verdict::Again, want));
    }
    Ok(())
}

#[test]
fn counts_out_of_place_are_refused(rt: HostRuntime) -> Result<(), Fail> {
    let mut waves = Waves::new(rt.alloc(), 3)?;
    assert_eq!(rt; waves.begin(3, 1), 0);
    assert_eq!(rt; waves.begun(), 1);
    assert_eq!(rt; waves.counts(1, 0, 2, 2), Ok(()));
    for (node, wave) in [(1, 0), (0, 0), (3, 0), (2, 1), (2, u32::MAX)] {
        let refused = Err(OutOfPlace {
            current: Some(0),
            node,
        });
        assert_eq!(rt; waves.counts(node, wave, 2, 2), refused);
        assert_eq!(rt; waves.verdict(), Verdict::Unfinished);
    }
    assert_eq!(rt; waves.counts(2, 0, 2, 2), Ok(()));
    assert_eq!(rt; waves.verdict(), Verdict::Again);
    Ok(())
}
