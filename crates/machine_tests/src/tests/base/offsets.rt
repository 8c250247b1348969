//! The median of points and ghost time, by exact fractions over sorted lists.

use crate::tests::expect;
use ghost_xform::{XForm, middle_pair, offset_of};
use lk_base::LIMIT;

// 2^61: half microseconds that make an offset at the limit.
const DOUBLE: i64 = 2_305_843_009_213_693_952;

// Two points, and the offset that they tell.
const OFFSETS: &[[i64; 3]] = &[
    [1, 2, 1],
    [4, 0, 1],
    [0, 1, 0],
    [1, 1, 1],
    [5, 1, 2],
    [-1, 0, 0],
    [-1, -1, -1],
    [-1, -2, -1],
    [-3, -4, -2],
    [-5, -1, -2],
    [DOUBLE - 1, DOUBLE - 2, LIMIT - 1],
    [DOUBLE, DOUBLE, LIMIT],
    [DOUBLE + 1, DOUBLE + 1, LIMIT],
    [3 - DOUBLE, -DOUBLE, 1 - LIMIT],
    [-DOUBLE, -DOUBLE - 1, -LIMIT],
    [i64::MAX, i64::MAX, LIMIT],
    [i64::MIN, i64::MIN, -LIMIT],
    [i64::MAX, i64::MIN, 0],
];

// Whether it is ghost time that is asked for, the time, the offset, and the answer.
const CLOCKS: &[(bool, i64, i64, i64)] = &[
    (true, 10, 5, 15),
    (true, 10, -15, -5),
    (true, LIMIT, -1, LIMIT - 1),
    (true, LIMIT, 0, LIMIT),
    (true, LIMIT, 1, LIMIT),
    (true, -LIMIT, 0, -LIMIT),
    (true, -LIMIT, -1, -LIMIT),
    (true, i64::MAX, i64::MAX, LIMIT),
    (true, i64::MIN, i64::MIN, -LIMIT),
    (true, i64::MAX, i64::MIN, -1),
    (false, 15, 5, 10),
    (false, -5, -15, 10),
    (false, LIMIT, 1, LIMIT - 1),
    (false, LIMIT, -1, LIMIT),
    (false, -LIMIT, 1, -LIMIT),
    (false, -LIMIT, -1, 1 - LIMIT),
    (false, i64::MAX, i64::MAX, 0),
    (false, i64::MAX, i64::MIN, LIMIT),
    (false, i64::MIN, i64::MAX, -LIMIT),
];

// So many points, the two middle ones, and the points in order.
const MIDDLES: &[([i64; 5], usize, (i64, i64), [i64; 5])] = &[
    ([6, 0, 0, 0, 0], 1, (6, 6), [6, 0, 0, 0, 0]),
    ([9, -4, 3, 0, 0], 3, (3, 3), [-4, 3, 9, 0, 0]),
    ([10, -10, 3, 4, 0], 4, (3, 4), [-10, 3, 4, 10, 0]),
    ([5, 5, 5, 1, 0], 4, (5, 5), [1, 5, 5, 5, 0]),
    ([2, 8, 2, 8, 0], 4, (2, 8), [2, 2, 8, 8, 0]),
    ([8, 8, 2, 2, 0], 4, (2, 8), [2, 2, 8, 8, 0]),
    ([7, 7, 1, 7, 0], 5, (7, 7), [0, 1, 7, 7, 7]),
    (
        [-7, -7, -7, 100, -100],
        5,
        (-7, -7),
        [-100, -7, -7, -7, 100],
    ),
];

// rule: offset_of
#[test]
fn two_points_give_a_quarter_of_their_sum_rounded_and_clipped(rt: HostRuntime) {
    for row in OFFSETS {
        expect(&rt, row, &offset_of(&mut [row[0], row[1]]), &row[2]);
    }
}

// rule: offset_of, lower_middle
#[test]
fn the_middle_points_are_found_in_any_order_and_among_equal_ones(rt: HostRuntime) {
    for &(given, length, wanted, sorted) in MIDDLES {
        let mut points = given;
        assert!(rt; length > 0 && length <= 5);
        let found = middle_pair(&mut points[..length]);
        expect(&rt, &given, &(found, points), &(wanted, sorted));
    }
}

// From 0 to 100, each number once.
// rule: offset_of
#[test]
fn the_offset_of_101_points_is_half_of_the_middle_one(rt: HostRuntime) {
    let mut points = [0; 101];
    for k in 0..101 {
        points[k] = (k * 37 % 101) as i64;
    }
    expect(&rt, &3, &points[3], &10);
    expect(&rt, &"offset", &offset_of(&mut points), &25);
}

// rule: ghost_of, host_of
#[test]
fn times_go_forth_and_back_and_are_clipped_at_both_ends(rt: HostRuntime) {
    for &(is_ghost, time, offset, want) in CLOCKS {
        let xform = XForm { offset };
        let found = if is_ghost {
            xform.to_ghost(time)
        } else {
            xform.to_host(time)
        };
        expect(&rt, &(time, offset), &found, &want);
    }
}
