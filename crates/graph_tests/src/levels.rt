//! The levels that switches go to.

ghost use Rattle.std.specs.Prelude.{◌≡◌, ◌≤◌, length};

use crate::programs::{expect_list, expect_same};
use level_tables::{
    EdgeNumbers, LevelBudgets, entry, exit_rows, shift, tally_from_within, tally_shift, word,
};
use power_model::{Costs, Level, Levels, PairTable, Power};
use std::process::Abort;

/// Three levels of 4, 2 and 1 time units and 1, 3 and 8 energy units per cycle.
fn machine(switch_time: PairTable) -> Power
    ensures { length result.levels ≡ 3 }
{
    let mut levels = Levels::new();
    levels.push(Level {
        period: 4,
        energy: 1,
    });
    levels.push(Level {
        period: 2,
        energy: 3,
    });
    levels.push(Level {
        period: 1,
        energy: 8,
    });
    Power {
        levels,
        costs: Costs {
            alu: 1,
            load: 2,
            store: 1,
            taken: 2,
            untaken: 1,
            jump: 2,
            mul: 3,
            div: 10,
            ecall: 5,
            fence: 1,
        },
        switch_time,
        switch_energy: PairTable::uniform(20),
        deadline: 28,
        min_gain: 20,
        steps: 1_000_000,
    }
}

/// From a level and a slack, with 40 cycles left at most and these at least, to a level.
static ENTRIES: [(u8, u64, Option<u128>, u8); 6] = [
    (2, 130, Some(30), 0),
    (2, 129, Some(30), 1),
    (1, 100, Some(10), 0),
    (1, 100, Some(9), 1),
    (1, 100, None, 1),
    (0, 1000, Some(1000), 0),
];

#[test]
fn goes_to_the_slowest_level_in_time_that_pays(rt: HostRuntime) {
    let power = machine(PairTable::uniform(10));
    for (from, slack, least, to) in &ENTRIES {
        let found = entry(&power, *from, *slack, 40, *least);
        expect_same(&rt, *slack, found, *to);
    }
}

/// Times of switches by their pairs.
const TIMES: PairTable = PairTable {
    rows: [
        [0, 4, 14, 0, 0, 0, 0, 0],
        [4, 0, 10, 0, 0, 0, 0, 0],
        [14, 10, 0, 0, 0, 0, 0, 0],
        [0; 8],
        [0; 8],
        [0; 8],
        [0; 8],
        [0; 8],
    ],
};

/// The time of a switch is that of its pair.
static BY_PAIR: [(u64, u8); 2] = [(134, 0), (133, 1)];

#[test]
fn takes_the_time_of_the_pair(rt: HostRuntime) {
    let power = machine(TIMES);
    for (slack, to) in &BY_PAIR {
        let found = entry(&power, 2, *slack, 40, Some(30));
        expect_same(&rt, *slack, found, *to);
    }
}

/// A slack, the most and the least cycles that are left, and the word.
static WORDS: [(u64, u64, u128, u32); 3] = [
    (100, 40, 30, 0x100),
    (45, 12, 12, 0x100),
    (0, 12, 12, 0x210),
];

#[test]
fn holds_an_entry_for_each_level(rt: HostRuntime) {
    let power = machine(PairTable::uniform(10));
    for (slack, left, least, expected) in &WORDS {
        let found = word(&power, *slack, *left, Some(*least));
        expect_same(&rt, *slack, found, *expected);
    }
}

/// A row of the exit of a loop whose iterations take 3 cycles, where a switch takes 10 time units. With as many cycles left as back edges that are
/// not taken for certain, a slack of 10 is just enough to go from the level of 1 time unit to that of 4.
fn row_of(power: &Power, bound: u32, slack: u64, left: u32, row: u8) -> Option<u32>
    requires { slack ≤ 10 }
{
    let rows = exit_rows(power, bound, 3, slack, u64::from(left), Some(1000));
    if row < rows.count() {
        Some(rows.get(row))
    } else {
        None
    }
}

/// A bound, the shift, how many rows there are, and the back edges that are not taken for certain in the first and in the last row.
struct Shifted {
    bound: u32,
    by: u8,
    count: u8,
    first: (u8, u32),
    last: (u8, u32),
}

static SHIFTED: [Shifted; 5] = [
    Shifted {
        bound: 1000,
        by: 6,
        count: 16,
        first: (0, 937),
        last: (15, 0),
    },
    Shifted {
        bound: 0,
        by: 0,
        count: 1,
        first: (0, 0),
        last: (0, 0),
    },
    Shifted {
        bound: 15,
        by: 0,
        count: 16,
        first: (0, 15),
        last: (15, 0),
    },
    Shifted {
        bound: 16,
        by: 1,
        count: 9,
        first: (0, 15),
        last: (8, 0),
    },
    Shifted {
        bound: 4_294_967_295,
        by: 28,
        count: 16,
        first: (0, 4_026_531_840),
        last: (15, 0),
    },
];

/// What a row of a bound is with a slack that is just enough, and with one less.
fn expect_row(rt: &impl Abort, power: &Power, bound: u32, (row, trips): (u8, u32)) {
    let enough = row_of(power, bound, 10, trips, row);
    expect_same(rt, u64::from(bound), enough, Some(0));
    let less = row_of(power, bound, 9, trips, row);
    let higher = if trips == 0 { 0x200 } else { 0x100 };
    expect_same(rt, u64::from(bound), less, Some(higher));
}

fn expect_shifted(rt: &impl Abort, power: &Power, row: &Shifted) {
    let bound = row.bound;
    expect_same(rt, u64::from(bound), shift(bound), row.by);
    let count = exit_rows(power, bound, 0, 0, 0, None).count();
    expect_same(rt, u64::from(bound), count, row.count);
    expect_row(rt, power, bound, row.first);
    expect_row(rt, power, bound, row.last);
}

#[test]
fn has_a_row_for_each_shifted_count(rt: HostRuntime) {
    let power = machine(PairTable::uniform(10));
    for row in &SHIFTED {
        expect_shifted(&rt, &power, row);
    }
}

static ELEVEN_ROWS: [u32; 16] = [0, 0, 0, 0, 0, 0, 0, 0, 0x100, 0x200, 0x210, 0, 0, 0, 0, 0];

#[test]
fn has_no_word_behind_its_rows(rt: HostRuntime) {
    let power = machine(PairTable::uniform(10));
    let rows = exit_rows(&power, 10, 20, 0, 12, Some(12));
    expect_same(&rt, 0, rows.count(), 11);
    expect_list(&rt, 0, &rows.words, &ELEVEN_ROWS);
}

/// Slacks and what is left at least, with 10 cycles left at most, and whether every level goes to the lowest one. A switch takes 10 time units, so it does where the
/// slack is at least 3 * left + 10, less what the budget of the fastest level is shorter, and where the least that is left is at least 10.
static LOWEST: [(u64, Option<u128>, bool); 4] = [
    (40, Some(10), true),
    (39, Some(10), false),
    (40, Some(9), false),
    (40, None, false),
];

#[test]
fn goes_to_the_lowest_level_from_each(rt: HostRuntime) {
    let power = machine(PairTable::uniform(10));
    let alike = LevelBudgets::alike(28);
    for (slack, least, lowest) in &LOWEST {
        let edge = EdgeNumbers {
            slack: *slack,
            left: 10,
            least: *least,
        };
        let goes = edge.lowest_within(&power, &alike);
        expect_same(&rt, *slack, goes, *lowest);
    }
}

/// The budget of the fastest level is shorter by 5.
const SHORTER: LevelBudgets = LevelBudgets {
    start: 2,
    first: 95,
    lowest: 100,
    between: 100,
    above: 0,
};

/// What is left takes 40 time units at the lowest level and the switch 10, and at the level before it took (10 + slack) * 2 or (10 + slack) * 1; the budgets lend 30
/// and 40.
const LENT: LevelBudgets = LevelBudgets {
    start: 2,
    first: 60,
    lowest: 100,
    between: 70,
    above: 0,
};

/// The same without a share of the level between.
const ALL_LENT: LevelBudgets = LevelBudgets {
    start: 2,
    first: 60,
    lowest: 100,
    between: 100,
    above: 0,
};

static BUDGETS: [(LevelBudgets, u64, bool); 8] = [
    (SHORTER, 35, true),
    (SHORTER, 34, false),
    (LENT, 0, true),
    (LENT, 14, true),
    (LENT, 15, true),
    (ALL_LENT, 0, false),
    (ALL_LENT, 14, false),
    (ALL_LENT, 15, true),
];

#[test]
fn goes_to_the_lowest_level_within_budgets(rt: HostRuntime) {
    let power = machine(PairTable::uniform(10));
    for (budgets, slack, lowest) in &BUDGETS {
        let edge = EdgeNumbers {
            slack: *slack,
            left: 10,
            least: Some(10),
        };
        let goes = edge.lowest_within(&power, budgets);
        expect_same(&rt, *slack, goes, *lowest);
    }
}

/// Bounds, and the shifts of tallies.
static TALLY_SHIFTS: [(u32, u8); 6] = [
    (0, 0),
    (2045, 0),
    (2046, 1),
    (4091, 1),
    (4092, 2),
    (4_294_967_295, 22),
];

#[test]
fn shifts_tallies_into_eleven_bits(rt: HostRuntime) {
    for (bound, by) in &TALLY_SHIFTS {
        expect_same(&rt, u64::from(*bound), tally_shift(*bound), *by);
    }
}

/// By bound and cycles of a turn, with a slack, the most that is left and the least, the least shifted count behind which so much less is left that every level goes to the
/// lowest one; 2047 where none does.
static TALLIES: [(u32, u64, u64, u64, Option<u128>, u16); 9] = [
    (1000, 3, 40, 100, Some(10), 30),
    (1000, 3, 10, 100, Some(10), 34),
    (1000, 3, 9, 100, Some(10), 2047),
    (1000, 3, 40, 100, Some(9), 2047),
    (1000, 3, 40, 10, Some(10), 1),
    (5000, 3, 40, 100, Some(10), 8),
    (4_294_967_295, 1, 10, 8_581_545_984, Some(10), 2046),
    (4_294_967_295, 1, 10, 8_581_545_985, Some(10), 2047),
    (4_294_967_295, u64::MAX, 10, u64::MAX, Some(10), 1),
];

#[test]
fn goes_to_the_lowest_level_from_a_count_on(rt: HostRuntime) {
    let power = machine(PairTable::uniform(10));
    let alike = LevelBudgets::alike(28);
    for (bound, iteration, slack, left, least, from) in &TALLIES {
        let edge = EdgeNumbers {
            slack: *slack,
            left: *left,
            least: *least,
        };
        let found = tally_from_within(&power, &alike, *bound, *iteration, &edge);
        expect_same(&rt, *slack, found, *from);
    }
}
