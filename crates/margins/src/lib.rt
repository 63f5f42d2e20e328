// Delay margins, link room, period fit and the cells of a message. A margin or a room below zero is an answer, not an error.
#![tactic(auto)]

ghost use Rattle.std.specs.Prelude.{◌≡◌, ◌<◌, ◌≤◌, pos, ◌-ℤ◌, length, sum};
ghost use Rattle.answers.specs.Answers.{signed_answer, counted_answer};
ghost use Rattle.answers.specs.Limits.{max_frame, max_links, max_deadline, max_detail};
ghost use Rattle.answers.specs.Lowest.{found};
ghost use Rattle.margins.specs.Margins.{bound, delay_out_of_range, link_out_of_range, floor_div, least_times, margin_answer, room_answer, fit_answer, cells_answer};

use answers::{
    MAX_BITS, MAX_DEADLINE, MAX_DELAY, MAX_FRAME, MAX_LINKS, MAX_PERIOD, Refusal, first_where,
    outside,
};

// The bits of a cell.
const CELL_BITS: usize = 500;

// Of these, the bits of its flow label.
const LABEL_BITS: usize = 20;

// What the label leaves for a message.
pub const CARRIED_BITS: usize = CELL_BITS - LABEL_BITS;

// One number less another, with its sign. The casts are proved to lose nothing; no conversion of the library takes 64 bits without a sign to 32 with one and never fails.
fn less(a: usize, b: usize) -> i32
    requires { (a < max_detail) × (b < max_detail) }
    ensures { result ≡ pos a -ℤ pos b }
{
    a as i32 - b as i32
}

// A signed number divided by a positive one, rounded down: the division truncates, so a remainder below zero takes one more off.
// This form is asked for (docs/DECISIONS.md, "Forms asked for").
fn floor_div(n: i32, d: usize) -> i32
    requires { (0 < d) × (d ≤ max_deadline) }
    ensures { result ≡ floor_div n d }
{
    let quotient = n / (d as i32);
    if n % (d as i32) < 0 {
        return quotient - 1;
    }
    quotient
}

// The least number of times that d goes to at least n.
#[tactic(auto, using(crate::proofs::Times::least_by_division))]
fn least_times(d: usize, n: usize) -> usize
    requires { 0 < d }
    ensures { result ≡ least_times d n }
{
    n.div_ceil(d)
}

// Refusal 25 of one delay.
fn delay_out_of_range(delay: usize) -> bool
    ensures { result ≡ delay_out_of_range delay }
{
    outside(1, MAX_DELAY, delay)
}

// The lowest place that refusal 25 names, from 0.
fn first_out_of_range(delays: &[u16]) -> Option<usize>
    ensures { result ≡ found 0 (length delays.now) (link_out_of_range delays.now) }
{
    first_where(0..delays.len(), |link| {
        delay_out_of_range(usize::from(delays[link]))
    })
}

// The delays of all links together. That they are 16-bit numbers and not too many is enough for the sum not to wrap: it need not be known that they are in range.
fn delay_sum(delays: &[u16]) -> usize
    requires { length delays.now ≤ max_links }
    ensures { result ≡ sum delays.now }
{
    delays.iter().map(|&delay| usize::from(delay)).sum()
}

// The delay bound over links with these delays.
fn delay_bound(frame: usize, delays: &[u16]) -> usize
    requires { (frame ≤ max_frame) × (length delays.now ≤ max_links) }
    ensures value { result ≡ bound frame delays.now }
    ensures small { result < max_detail }
{
    (delays.len() + 1) * frame + delay_sum(delays)
}

// How many slots before the deadline the last cell is in, over links with these delays; below zero where it is late.
#[tactic(auto, unfolding(crate::specs::Margins::margin_answer))]
pub fn margin(frame: usize, delays: &[u16], deadline: usize) -> Result<i32, Refusal>
    ensures { signed_answer result ≡ margin_answer frame delays.now deadline }
{
    if outside(1, MAX_FRAME, frame) {
        return Err(Refusal::FrameOutOfRange);
    }
    if outside(0, MAX_LINKS, delays.len()) {
        return Err(Refusal::LinksOutOfRange);
    }
    if outside(0, MAX_DEADLINE, deadline) {
        return Err(Refusal::DeadlineOutOfRange);
    }
    if let Some(link) = first_out_of_range(delays) {
        return Err(Refusal::DelayOutOfRange(link as u16));
    }
    Ok(less(deadline, delay_bound(frame, delays)))
}

// How many links of one common delay the deadline leaves room for; below zero where it leaves none for the frame itself.
#[tactic(auto, unfolding(crate::specs::Margins::room_answer))]
pub fn room(frame: usize, delay: usize, deadline: usize) -> Result<i32, Refusal>
    ensures { signed_answer result ≡ room_answer frame delay deadline }
{
    if outside(1, MAX_FRAME, frame) {
        return Err(Refusal::FrameOutOfRange);
    }
    if outside(0, MAX_DEADLINE, deadline) {
        return Err(Refusal::DeadlineOutOfRange);
    }
    // The one delay stands for all links, and is told as place 0.
    if delay_out_of_range(delay) {
        return Err(Refusal::DelayOutOfRange(0));
    }
    Ok(floor_div(less(deadline, frame), frame + delay))
}

// The cells per frame that some cells every period need.
#[tactic(auto, unfolding(crate::specs::Margins::fit_answer))]
pub fn fit(frame: usize, period: usize, cells: usize) -> Result<u16, Refusal>
    ensures { counted_answer result ≡ fit_answer frame period cells }
{
    if outside(1, MAX_FRAME, frame) {
        return Err(Refusal::FrameOutOfRange);
    }
    if outside(frame, MAX_PERIOD, period) {
        return Err(Refusal::PeriodOutOfRange);
    }
    let needed = least_times(period / frame, cells);
    if cells == 0 || frame < needed {
        return Err(Refusal::PeriodDoesNotFit);
    }
    Ok(needed as u16)
}

// The cells of a message.
#[tactic(auto, unfolding(crate::specs::Margins::cells_answer), using(crate::proofs::Times::least_by_quotient))]
pub fn cells(bits: usize) -> Result<u16, Refusal>
    ensures { counted_answer result ≡ cells_answer bits }
{
    if outside(1, MAX_BITS, bits) {
        return Err(Refusal::BitsOutOfRange);
    }
    Ok(least_times(CARRIED_BITS, bits) as u16)
}
