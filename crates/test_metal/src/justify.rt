use desk_justify::{fill, positions};
use desk_signals::Position;
use desk_units::Atoms;

fn numbers(pair: Option<(Position, Position)>) -> Option<(u8, u8)> {
    pair.map(|(coarse, fine)| (coarse.get(), fine.get()))
}

/// Whether each rest has these positions on a line of so many spaces.
fn have_positions(spaces: u64, cases: &[(i64, Option<(u8, u8)>)]) -> bool {
    if spaces < 1 || spaces > 100 {
        return false;
    }
    for (rest, want) in cases {
        if numbers(positions(Atoms::new(*rest), spaces)) != *want {
            return false;
        }
    }
    true
}

#[test]
fn positions_loose(rt: HostRuntime) {
    assert!(rt; have_positions(4, &[(120_000, Some((6, 9)))]));
}

#[test]
fn positions_tight(rt: HostRuntime) {
    assert!(rt; have_positions(4, &[(-24_000, Some((2, 13)))]));
}

#[test]
fn positions_at_the_limits(rt: HostRuntime) {
    let cases = [
        (0, Some((3, 8))),
        (121_176, Some((15, 15))),
        (121_824, None),
        (-23_976, Some((1, 1))),
        (-23_977, None),
        (i64::MIN, None),
        (i64::MAX, None),
    ];
    assert!(rt; have_positions(1, &cases));
}

#[test]
fn fills_of_a_rest(rt: HostRuntime) {
    let widths = [Atoms::new(216_000), Atoms::new(108_000)];
    for (rest, want) in [(2_100_000, [9, 1]), (-1, [0, 0]), (0, [0, 0])] {
        assert!(rt;
            fill(Atoms::new(rest), &widths).as_slice() == want.as_slice(),
            "{rest}"
        );
    }
    let units = [Atoms::new(7), Atoms::new(5), Atoms::new(2), Atoms::new(1)];
    for (rest, want) in [
        (2_147_483_648, [306_783_378, 0, 1, 0]),
        (20, [2, 1, 0, 1]),
        (i64::MIN, [0, 0, 0, 0]),
    ] {
        assert!(rt;
            fill(Atoms::new(rest), &units).as_slice() == want.as_slice(),
            "{rest}"
        );
    }
    let one = fill(Atoms::new(2_147_483_648), &[Atoms::new(1)]);
    assert!(rt; one.as_slice() == [2_147_483_648].as_slice());
}
