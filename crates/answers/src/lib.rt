// The fixed list: what every call answers with, and the limits, each under one name.
#![tactic(auto)]

ghost use Rattle.std.specs.Prelude.{◌≡◌, ◌<◌, ◌≤◌, ◌-◌, ℕ, Bool, ℤ, pos};
ghost use Rattle.answers.specs.Answers.{refused, answer_of};
ghost use Rattle.answers.specs.Limits.{outside};
ghost use Rattle.answers.specs.Lowest.{found};

use std::error::Error;
use std::fmt;
use std::ops::Range;

// Why a call refuses. Where the list names a detail, the variant has it: the lowest such flow, port, place, slot, link or message, or the length of a text.
#[derive(Clone, Copy, Debug, PartialEq, Eq)]
pub enum Refusal {
    FrameOutOfRange,
    PortsOutOfRange,
    ListMisshapen,
    FlowOutOfRange(u16),
    InputOverloaded(u16),
    OutputOverloaded(u16),
    TableTooShort,
    EntryNotOfRow(u16),
    InputTwiceInSlot(u16),
    CountWrong(u16),
    PositionPastFrame,
    CountsOrSentMissized,
    FlowUnknown,
    WaitingFull,
    LinksOutOfRange,
    DeadlineOutOfRange,
    PeriodOutOfRange,
    PeriodDoesNotFit,
    TextTooLong,
    TextNotOfForm(u16),
    BufferTooSmall,
    OutputOutOfRange,
    BitsOutOfRange,
    DelayOutOfRange(u16),
    EntryAboveCounts(u16),
    MessageMisshapen(u16),
    MessageAboveWindow(u16),
    TrdAskedOutOfRange,
    CyclesMissized,
}

impl Refusal {
    // The refusal's number in the list.
    pub fn number(self) -> u32
        ensures { result ≡ (refused self).number }
    {
        match self {
            Refusal::FrameOutOfRange => 1,
            Refusal::PortsOutOfRange => 2,
            Refusal::ListMisshapen => 3,
            Refusal::FlowOutOfRange(_) => 4,
            Refusal::InputOverloaded(_) => 5,
            Refusal::OutputOverloaded(_) => 6,
            Refusal::TableTooShort => 7,
            Refusal::EntryNotOfRow(_) => 8,
            Refusal::InputTwiceInSlot(_) => 9,
            Refusal::CountWrong(_) => 10,
            Refusal::PositionPastFrame => 11,
            Refusal::CountsOrSentMissized => 12,
            Refusal::FlowUnknown => 13,
            Refusal::WaitingFull => 14,
            Refusal::LinksOutOfRange => 15,
            Refusal::DeadlineOutOfRange => 16,
            Refusal::PeriodOutOfRange => 17,
            Refusal::PeriodDoesNotFit => 18,
            Refusal::TextTooLong => 19,
            Refusal::TextNotOfForm(_) => 20,
            Refusal::BufferTooSmall => 21,
            Refusal::OutputOutOfRange => 22,
            Refusal::BitsOutOfRange => 23,
            Refusal::DelayOutOfRange(_) => 25,
            Refusal::EntryAboveCounts(_) => 28,
            Refusal::MessageMisshapen(_) => 30,
            Refusal::MessageAboveWindow(_) => 31,
            Refusal::TrdAskedOutOfRange => 32,
            Refusal::CyclesMissized => 34,
        }
    }

    // The refusal's detail, 0 where the list names none.
    pub fn detail(self) -> u16
        ensures { pos result ≡ (refused self).detail }
    {
        match self {
            Refusal::FlowOutOfRange(told) => told,
            Refusal::InputOverloaded(told) => told,
            Refusal::OutputOverloaded(told) => told,
            Refusal::EntryNotOfRow(told) => told,
            Refusal::InputTwiceInSlot(told) => told,
            Refusal::CountWrong(told) => told,
            Refusal::TextNotOfForm(told) => told,
            Refusal::DelayOutOfRange(told) => told,
            Refusal::EntryAboveCounts(told) => told,
            Refusal::MessageMisshapen(told) => told,
            Refusal::MessageAboveWindow(told) => told,
            _ => 0,
        }
    }
}

impl fmt::Display for Refusal {
    fn fmt<W: fmt::Write>(&self, f: &mut fmt::Formatter<W>) -> fmt::Result {
        Answer::from(*self).fmt(f)
    }
}

impl Error for Refusal {}

// A number of the list and its detail, as a call's answer is stored and printed; the detail is 0 where the list names none.
#[repr(C)]
#[derive(Clone, Copy, Debug, PartialEq, Eq)]
pub struct Answer {
    pub number: u32,
    pub detail: i32,
}

// The number of a call that is done: the one number of the list that no refusal has.
pub const DONE: u32 = 0;

impl From<Refusal> for Answer {
    ghost from_gives = { λ refusal a. a ≡ refused refusal };

    fn from(refusal: Refusal) -> Self {
        Answer {
            number: refusal.number(),
            detail: i32::from(refusal.detail()),
        }
    }
}

// What a call gives where it is done, as a detail. A trait of our own, since `()` becomes no number by `Into`.
pub trait Given {
    ghost detail: { Self → ℤ };

    fn detail(self) -> i32
        ensures { result ≡ detail self };
}

// A call that gives nothing has detail 0.
impl Given for () {
    ghost detail = { λ _. pos 0 };

    fn detail(self) -> i32 {
        0
    }
}

// A signed value.
impl Given for i32 {
    ghost detail = { λ value. value };

    fn detail(self) -> i32 {
        self
    }
}

// A count.
impl Given for u16 {
    ghost detail = { λ count. pos count };

    fn detail(self) -> i32 {
        i32::from(self)
    }
}

impl<T: Given> From<Result<T, Refusal>> for Answer {
    ghost from_gives = { λ outcome a. a ≡ answer_of T.detail outcome };

    fn from(outcome: Result<T, Refusal>) -> Self {
        match outcome {
            Ok(given) => Answer {
                number: DONE,
                detail: given.detail(),
            },
            Err(refusal) => Answer::from(refusal),
        }
    }
}

impl fmt::Display for Answer {
    fn fmt<W: fmt::Write>(&self, f: &mut fmt::Formatter<W>) -> fmt::Result {
        write!(f, "{},{}", self.number, self.detail)
    }
}

pub const MAX_FRAME: usize = 2048;

pub const MAX_PORTS: usize = 32;

pub const MAX_FLOWS: usize = 255;

pub const MAX_WAITING: usize = 4000;

pub const MAX_LINKS: usize = 255;

pub const MAX_DELAY: usize = 40;

pub const MAX_DEADLINE: usize = 1000000;

pub const MAX_PERIOD: usize = 1000000;

pub const MAX_BITS: usize = 10000000;

pub const MAX_TEXT: usize = 8192;

pub const MAX_CYCLE_LINKS: usize = 32;

pub const MAX_MESSAGES: usize = 64;

pub const MAX_CYCLES: usize = 1024;

pub const MAX_DEPTH: usize = 64;

pub const MAX_NODES: usize = 64;

pub const MAX_TIME: usize = 10000;

// Whether x is not one of low, low + 1, .. high.
pub fn outside(low: usize, high: usize, x: usize) -> bool
    ensures { result ≡ outside low high x }
{
    !(low..=high).contains(&x)
}

// The lowest number of a range for which the test holds. Its promise is one equation for any test, where those of `find` and `any` speak of an iterator's runs.
pub fn first_where<F: Fn(usize) -> bool>(range: Range<usize>, test: F) -> Option<usize>
    requires { (i : ℕ) → range.start ≤ i → i < range.end → F.pre test i }
    ensures { (t : ℕ → Bool) → ((i : ℕ) → (b : Bool) → range.start ≤ i → i < range.end → F.post test i b → b ≡ t i) → result ≡ found range.start (range.end - range.start) t }
{
    let Range { start, end } = range;
    for i in start..end {
        if test(i) {
            return Some(i);
        }
    }
    None
}
