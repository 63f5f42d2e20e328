// The fixed sequence of numbers, and the choices made from it: each takes one number after the other.
ghost use Rattle.std.specs.Prelude.{◌<◌, ◌≤◌};

use crate::edges::{COUNTS, Edges, FRAMES, PORTS};

// The first state.
const FIRST: u32 = 20261115;

// Where the sequence stands. The state has 32 bits, so that no product passes 64.
#[derive(Drop)]
pub struct Sequence {
    state: u32,
}

impl Sequence {
    // The sequence from its start on.
    pub fn new() -> Sequence {
        Sequence { state: FIRST }
    }

    // One of n numbers, from 0 on. That there are some is a clause, here and below: the numbers are literals where they are given.
    pub fn pick(&mut self, n: usize) -> usize
        requires { 0 < n }
        ensures { result < n }
    {
        self.state = (u64::from(self.state) * 48271 % 2147483647) as u32;
        self.state as usize % n
    }

    // One of n numbers, from 1 on.
    pub fn one_to(&mut self, n: usize) -> usize
        requires { 0 < n }
        ensures { (0 < result) × (result ≤ n) }
    {
        self.pick(n) + 1
    }

    // Whether it is this time, one time in so many.
    pub fn one_in(&mut self, times: usize) -> bool
        requires { 0 < times }
    {
        self.pick(times) == 0
    }

    // One of ten numbers at the edges.
    pub fn edge(&mut self, edges: &Edges) -> usize {
        edges[self.pick(10)]
    }

    // One time in so many a number at the edges, else one of n numbers from 1 on.
    pub fn edge_or_one_to(&mut self, times: usize, edges: &Edges, n: usize) -> usize
        requires { (0 < times) × (0 < n) }
    {
        if self.one_in(times) {
            self.edge(edges)
        } else {
            self.one_to(n)
        }
    }

    // A frame, mostly a small one that is in range.
    pub fn frame(&mut self) -> usize {
        self.edge_or_one_to(4, &FRAMES, 8)
    }

    // A number of ports, mostly a small one that is in range.
    pub fn ports(&mut self) -> usize {
        self.edge_or_one_to(4, &PORTS, 4)
    }

    // One time in so many one of n numbers, from 0 on, else a number that is given.
    pub fn pick_or(&mut self, times: usize, n: usize, given: usize) -> usize
        requires { (0 < times) × (0 < n) }
    {
        if self.one_in(times) {
            self.pick(n)
        } else {
            given
        }
    }

    // One time in so many some of a buffer's elements, else all of them.
    pub fn some_or_all(&mut self, times: usize, all: usize) -> usize
        requires { (0 < times) × (all < 10000) }
    {
        self.pick_or(times, all + 1, all)
    }

    // How many waiting counts are lent: one time in so many a number at the edges, else 10.
    pub fn counts_lent(&mut self, times: usize) -> usize
        requires { 0 < times }
    {
        if self.one_in(times) {
            self.edge(&COUNTS)
        } else {
            10
        }
    }

    // How many numbers of the list are lent: one time in four any number of them, else whole flows.
    pub fn numbers_lent(&mut self) -> usize {
        if self.one_in(4) {
            self.pick(30)
        } else {
            3 * self.pick(9)
        }
    }

    // One time in so many puts another value into one of the first places; one that lies past the end stays away.
    pub fn damage<T: Copy, F: FnOnce(&mut Sequence) -> T>(
        &mut self,
        items: &mut [T],
        times: usize,
        places: usize,
        value: F,
    )
        requires some { (0 < times) × (0 < places) }
        requires callable { F.IsAlwaysCallable value }
    {
        if self.one_in(times) {
            let place = self.pick(places);
            let value = value(self);
            if let Some(item) = items.get_mut(place) {
                *item = value;
            }
        }
    }
}
