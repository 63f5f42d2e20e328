// The numbers at the edges of each range, and past them.
use answers::{
    MAX_CYCLE_LINKS, MAX_CYCLES, MAX_DELAY, MAX_DEPTH, MAX_FRAME, MAX_MESSAGES, MAX_TIME,
};
use margins::CARRIED_BITS;

pub type Edges = [usize; 10];

pub const FRAMES: Edges = [0, 1, 2, 3, 5, 8, 60, MAX_FRAME, MAX_FRAME + 1, 4000000000];

pub const PORTS: Edges = [0, 1, 2, 3, 4, 8, 32, 33, 4000000000, 1];

pub const DEADLINES: Edges = [
    0,
    1,
    MAX_FRAME - 1,
    MAX_FRAME,
    2 * MAX_FRAME,
    2 * MAX_FRAME + 1,
    999999,
    1000000,
    1000001,
    4000000000,
];

pub const LINKS: Edges = [0, 1, 2, 254, 255, 256, 300, 3, 10, 100];

pub const DELAYS: Edges = [
    0,
    1,
    2,
    20,
    MAX_DELAY - 1,
    MAX_DELAY,
    MAX_DELAY + 1,
    65535,
    65536,
    4000000000,
];

pub const PERIODS: Edges = [
    0,
    1,
    4,
    5,
    11,
    MAX_FRAME,
    MAX_FRAME - 1,
    999999,
    1000000,
    1000001,
];

pub const CELLS: Edges = [
    0,
    1,
    2,
    3,
    6,
    MAX_FRAME,
    MAX_FRAME + 1,
    65535,
    65536,
    4000000000,
];

pub const BITS: Edges = [
    0,
    1,
    CARRIED_BITS - 1,
    CARRIED_BITS,
    CARRIED_BITS + 1,
    1000,
    9999999,
    10000000,
    10000001,
    4000000000,
];

pub const COUNTS: Edges = [0, 1, 2, 3, 5, 10, 100, 254, 255, 256];

pub const OFFERS: Edges = [0, 1, 2, 5, 100, 3999, 4000, 4001, 40000, 65535];

pub const CYCLE_LINKS: Edges = [
    0,
    1,
    2,
    3,
    4,
    8,
    MAX_CYCLE_LINKS - 1,
    MAX_CYCLE_LINKS,
    MAX_CYCLE_LINKS + 1,
    40,
];

pub const MESSAGES: Edges = [
    0,
    1,
    2,
    3,
    5,
    20,
    MAX_MESSAGES - 1,
    MAX_MESSAGES,
    MAX_MESSAGES + 1,
    70,
];

pub const SIZES: Edges = [0, 1, 9, 10, 11, 40, 41, 65534, 65535, 100];

pub const CYCLES: Edges = [
    0,
    1,
    2,
    5,
    64,
    100,
    MAX_CYCLES - 1,
    MAX_CYCLES,
    MAX_CYCLES + 1,
    4000000000,
];

// The edges of depths are those of nodes too.
pub const DEPTHS: Edges = [
    0,
    1,
    2,
    3,
    5,
    MAX_DEPTH - 1,
    MAX_DEPTH,
    MAX_DEPTH + 1,
    100,
    4000000000,
];

pub const TIMES: Edges = [
    0,
    1,
    2,
    5,
    17,
    100,
    MAX_TIME - 1,
    MAX_TIME,
    MAX_TIME + 1,
    4000000000,
];
