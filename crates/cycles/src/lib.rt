// Elementary cycles of the shore network: which messages a cycle takes, what responses they have over a run of cycles, and the least
// TRD. Windows, sizes, sets of links, releases and responses are lent as lists; a refusal changes nothing.
#![tactic(auto)]

ghost use Rattle.std.specs.Prelude.{◌≡◌, ◌+◌, ◌<◌, ◌^◌, length};
ghost use Rattle.answers.specs.Answers.{plain_answer, signed_answer};
ghost use Rattle.cycles.specs.Lent.{of_network};
ghost use Rattle.cycles.specs.Trd.{right_side, TrdAsked, trd_out_of_range, trd_answer};
ghost use Rattle.cycles.specs.Promises.{Cycled, RunOver};

use answers::{MAX_CYCLES, MAX_DEPTH, MAX_NODES, MAX_TIME, Refusal, outside};

mod judging;
mod links;
mod responses;
mod taking;

// The mark of a message that still waits when the run ends, and of one whose release lies past the run. No response is that large,
// and a limit that is put on responses holds of neither. Both are stored in lent numbers, so that they are numbers here too.
pub const STILL_WAITING: u16 = 65535;

pub const RELEASED_PAST_RUN: u16 = 65534;

// A network as it is lent: the links' windows, and the messages' sizes and sets of links, the highest priority first.
// Sizes and sets are two lists and not one of messages, since refusal 34 is about their lengths.
#[derive(Clone, Copy)]
pub struct Network<'a> {
    pub windows: &'a [u16],
    pub sizes: &'a [u16],
    pub paths: &'a [u32],
}

impl Network<'_> {
    // How many links there are.
    pub fn links(&self) -> usize
        ensures { result ≡ length self.now.windows.now }
    {
        self.windows.len()
    }

    // How many messages there are.
    pub fn messages(&self) -> usize
        ensures { result ≡ length self.now.sizes.now }
    {
        self.sizes.len()
    }
}

// One cycle: takes the ready messages in order, each if on all its links the sizes taken so far leave room for its own. For each
// message a byte, 1 if it is taken and else 0, since the lists are lent so (inside they are bools), and each link's load.
pub fn cycle(
    network: Network,
    ready: &[u8],
    taken: &mut [u8],
    loads: &mut [u16],
) -> Result<(), Refusal>
    ensures { Cycled (of_network network.entry) ready.now taken.old loads.old (plain_answer result) taken.new loads.new }
{
    let too_short = taken.len() < network.messages() || loads.len() < network.links();
    let judged = network.judge(ready.len() != network.messages(), too_short)?;
    judged.cycle(ready, taken, loads);
    Ok(())
}

// A run of cycles, from cycle 0 on: each message is released in its cycle and is ready from then on until a cycle takes it. For each
// message its response, or a mark.
pub fn run(
    network: Network,
    releases: &[u16],
    cycles: usize,
    responses: &mut [u16],
) -> Result<(), Refusal>
    ensures { RunOver (of_network network.entry) releases.now cycles responses.old (plain_answer result) responses.new }
{
    let missized = outside(1, MAX_CYCLES, cycles) || releases.len() != network.messages();
    let judged = network.judge(missized, responses.len() < network.messages())?;
    let run = responses::Run {
        judged,
        releases,
        cycles,
    };
    run.run_cycles(responses);
    Ok(())
}

// The numbers that equation 1 is asked with: depth and nodes of the network, the transmission times of a signalling message and of the
// trigger message, and a switch's latency.
#[derive(Clone, Copy)]
pub struct TrdTerms {
    pub depth: usize,
    pub nodes: usize,
    pub sig: usize,
    pub tm: usize,
    pub sld: usize,
}

impl TrdTerms {
    // Refusal 32.
    fn out_of_range(self) -> bool
        ensures { result ≡ trd_out_of_range self.depth self.nodes self.sig self.tm self.sld }
    {
        outside(1, MAX_DEPTH, self.depth)
            || outside(1, MAX_NODES, self.nodes)
            || outside(0, MAX_TIME, self.sig)
            || outside(0, MAX_TIME, self.tm)
            || outside(0, MAX_TIME, self.sld)
    }

    // Equation 1's right side.
    fn right_side(self) -> usize
        requires { TrdAsked self.depth self.nodes self.sig self.tm self.sld }
        ensures value { result ≡ right_side self.depth self.nodes self.sig self.tm self.sld }
        ensures fits { result + 1 < 2 ^ 31 }
    {
        (self.depth - 1) * (self.tm + self.sld)
            + self.nodes * self.sig
            + self.depth * (self.sig + self.sld)
    }
}

// The least whole TRD that equation 1 allows: one more than its right side.
#[tactic(auto, unfolding(crate::specs::Trd::trd_answer))]
pub fn least_trd(terms: TrdTerms) -> Result<i32, Refusal>
    ensures { signed_answer result ≡ trd_answer terms.depth terms.nodes terms.sig terms.tm terms.sld }
{
    if terms.out_of_range() {
        return Err(Refusal::TrdAskedOutOfRange);
    }
    Ok((terms.right_side() + 1) as i32)
}
