// Reading a plan text into a lent buffer. Nothing is written there before the whole text is judged.
ghost use Rattle.std.specs.Prelude.{◌≡◌, ◌≤◌, [], length};
ghost use Rattle.answers.specs.Limits.{max_text};
ghost use Rattle.plan_text.specs.Plans.{scanned, with_numbers, handed, taken_plan, taken_into, read_plan, read_into};

use crate::reader::{Field, Reader};
use answers::{Given, MAX_TEXT, Refusal};
use flows::Plan;
use std::marker::Model;

// The head of a plan that was read: frame and ports, and how many flows the list has.
#[derive(Clone, Copy, Debug, PartialEq, Eq)]
pub struct Heading {
    pub frame: usize,
    pub ports: usize,
    pub flows: u16,
}

// How far a text was read: where the reading stands, at which byte, and how many numbers were kept. `read` tells of this the byte alone, in its refusal.
#[derive(Clone, Copy)]
pub struct HowFar {
    pub reader: Reader,
    pub at: usize,
    pub count: usize,
}

// The detail is the flow count.
impl Given for Heading {
    ghost use Rattle.std.specs.Prelude.{pos};

    ghost detail = { λ heading. pos heading.flows };

    fn detail(self) -> i32 {
        i32::from(self.flows)
    }
}

// The numbers of a text, in the order of their coming. What does not fit 16 bits is kept as the largest number of them, which is out of every range.
// By its `Model` it is one list; a `Vec` would be one too, and can fail.
#[derive(Drop)]
struct Numbers {
    words: [u16; MAX_TEXT],
    count: usize,
}

impl Model for Numbers {
    ghost use Rattle.std.specs.Prelude.{List, ℕ, take, ◌≤◌};
    ghost use Rattle.answers.specs.Limits.{max_text};

    ghost Value = { List ℕ };

    ghost view = { λ n. take n.count n.words };

    ghost invariant = { λ n. n.count ≤ max_text };
}

impl Numbers {
    ghost use Rattle.std.specs.Prelude.{◌≡◌, ◌<◌, [], ◌∷◌, ◌++◌, min, length};
    ghost use Rattle.answers.specs.Limits.{max_text};
    ghost use Rattle.plan_text.specs.Plans.{max_word};

    // Before any has come.
    fn new() -> Numbers
        ensures { result ≡ [] }
    {
        Numbers {
            words: [0; MAX_TEXT],
            count: 0,
        }
    }

    // Keeps one more.
    fn keep(&mut self, n: usize)
        requires { length self.old < max_text }
        ensures { self.new ≡ self.old ++ min n max_word ∷ [] }
    {
        self.words[self.count] = u16::try_from(n).unwrap_or(u16::MAX);
        self.count += 1;
    }

    // All that have come.
    fn as_slice(&self) -> &[u16]
        ensures { result.now ≡ self.now }
    {
        &self.words[..self.count]
    }
}

// Reads the numbers of a text of the form into a list that has none yet; of another text, tells how far its bytes are those of the form.
// The list is lent, since it is large and would be copied on its way back.
#[tactic(auto, using(crate::proofs::Scanning::scanning))]
fn scan(text: &[u8], numbers: &mut Numbers) -> Result<(), Refusal>
    requires short { length text.now ≤ max_text }
    requires none { numbers.old ≡ [] }
    ensures { with_numbers numbers.new result ≡ scanned text.now }
{
    let mut reader = Reader::before(Field::Frame);
    for (at, &b) in text.iter().enumerate() {
        if !reader.takes(b) {
            return Err(Refusal::TextNotOfForm(at as u16));
        }
        if reader.ends_number(b) {
            numbers.keep(reader.value());
        }
        reader = reader.past(b);
    }
    if !reader.may_end() {
        return Err(Refusal::TextNotOfForm(text.len() as u16));
    }
    Ok(())
}

// Judges the numbers of a text of the form, frame and ports first, and takes them over if nothing is to be refused.
#[tactic(auto, unfolding(crate::specs::Plans::take_answer, crate::specs::Plans::taken_plan, crate::specs::Plans::taken_into), using(crate::proofs::TakingOver::judging))]
fn take_over(numbers: &[u16], list: &mut [u16]) -> Result<Heading, Refusal>
    requires { 2 ≤ length numbers.now }
    ensures handed { handed result ≡ taken_plan numbers.now (length list.old) }
    ensures left { list.new ≡ taken_into numbers.now list.old }
{
    let plan = Plan {
        frame: usize::from(numbers[0]),
        ports: usize::from(numbers[1]),
        list: &numbers[2..],
    };
    plan.judge()?;
    let needed = plan.list.len();
    if list.len() < needed {
        return Err(Refusal::BufferTooSmall);
    }
    list[..needed].copy_from_slice(plan.list);
    Ok(Heading {
        frame: plan.frame,
        ports: plan.ports,
        flows: plan.flow_count() as u16,
    })
}

// Reads a plan text: hands back frame, ports and the flow count, and puts the list into the lent buffer.
#[tactic(auto, unfolding(crate::specs::Plans::read_plan, crate::specs::Plans::read_into), using(crate::proofs::ReadText::reading))]
pub fn read(text: &[u8], list: &mut [u16]) -> Result<Heading, Refusal>
    ensures handed { handed result ≡ read_plan text.now (length list.old) }
    ensures left { list.new ≡ read_into text.now list.old }
{
    if MAX_TEXT < text.len() {
        return Err(Refusal::TextTooLong);
    }
    let mut numbers = Numbers::new();
    scan(text, &mut numbers)?;
    take_over(numbers.as_slice(), list)
}
