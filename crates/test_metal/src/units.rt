use desk_signals::Position;
use desk_units::{Atoms, Pica, SetQ, WedgeSum, floor_steps, measure, width};

const WIDTHS: [(u8, u8, Pica, i64); 4] = [
    (18, 48, Pica::Sixth, 216_000),
    (18, 48, Pica::American, 215_136),
    (1, 20, Pica::American, 4_980),
    (24, 96, Pica::Sixth, 576_000),
];

/// Whether so many units at a set of so many quarter points are so wide.
fn is_wide(units: u8, quarters: u8, pica: Pica, want: i64) -> bool {
    let Some(set) = SetQ::new(quarters) else {
        return false;
    };
    units >= 1 && units <= 24 && set.get() == quarters && width(units, set, pica).get() == want
}

const MEASURES: [(u32, Pica, i64); 2] = [
    (12, Pica::Sixth, 216_000),
    (720, Pica::American, 12_908_160),
];

/// Whether a measure of so many points is so wide.
fn is_measure(points: u32, pica: Pica, want: i64) -> bool {
    points >= 12 && points <= 720 && measure(points, pica).get() == want
}

#[test]
fn widths_of_units_and_measures(rt: HostRuntime) {
    for &(units, quarters, pica, want) in &WIDTHS {
        assert!(rt; is_wide(units, quarters, pica, want), "{want}");
    }
    for &quarters in &[0, 19, 97, 255] {
        assert!(rt; SetQ::new(quarters).is_none(), "{quarters}");
    }
    for &(points, pica, want) in &MEASURES {
        assert!(rt; is_measure(points, pica, want), "{want}");
    }
}

/// Atoms, spaces, and the steps for each.
const STEPS: [(i64, u64, i64); 10] = [
    (120_000, 4, 46),
    (-24_000, 4, -10),
    (0, 1, 0),
    (647, 1, 0),
    (648, 1, 1),
    (-1, 1, -1),
    (-648, 1, -1),
    (i64::MIN, 1, -14_233_598_822_306_753),
    (i64::MAX, 4_294_967_296, 3_314_017),
    (i64::MIN, 4_294_967_296, -3_314_018),
];

/// Whether so many atoms over so many spaces are so many steps.
fn are_steps(atoms: i64, spaces: u64, want: i64) -> bool {
    spaces >= 1 && spaces <= 4_294_967_296 && floor_steps(Atoms::new(atoms), spaces) == want
}

#[test]
fn steps_round_down(rt: HostRuntime) {
    for &(atoms, spaces, want) in &STEPS {
        assert!(rt; are_steps(atoms, spaces, want), "{atoms} over {spaces}");
    }
}

/// Whether the positions and the sum are of one another, and the sum is so many steps above neutral and so much wider.
fn is_sum(coarse: u8, fine: u8, sum: u8, steps: i64, wider: i64) -> bool {
    let (Some(coarse), Some(fine)) = (Position::new(coarse), Position::new(fine)) else {
        return false;
    };
    let found = WedgeSum::of_positions(coarse, fine);
    found.get() == sum
        && found.positions() == (coarse, fine)
        && WedgeSum::new(sum as u32) == Some(found)
        && WedgeSum::from_steps(steps) == Some(found)
        && found.widening().get() == wider
}

const SUMS: [(u8, u8, u8, i64, i64); 6] = [
    (3, 8, 53, 0, 0),
    (6, 9, 99, 46, 29_808),
    (2, 13, 43, -10, -6_480),
    (8, 7, 127, 74, 47_952),
    (1, 1, 16, -37, -23_976),
    (15, 15, 240, 187, 121_176),
];

#[test]
fn sums_of_positions(rt: HostRuntime) {
    for &(coarse, fine, sum, steps, wider) in &SUMS {
        assert!(rt; is_sum(coarse, fine, sum, steps, wider), "{sum}");
    }
    assert!(rt; WedgeSum::NEUTRAL.get() == 53);
    assert!(rt; WedgeSum::GREATEST.get() == 240);
    for &number in &[0, 15, 241, u32::MAX] {
        assert!(rt; WedgeSum::new(number).is_none(), "{number}");
    }
    for &steps in &[-38, 188, i64::MIN, i64::MAX] {
        assert!(rt; WedgeSum::from_steps(steps).is_none(), "{steps}");
    }
}
