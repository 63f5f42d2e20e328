// What a table is planned for: frame, ports and the flow list, three 16-bit numbers a flow, input, output and cells per frame. Whoever reads a list reads it
// through these methods.
#![tactic(auto)]

ghost use Rattle.std.specs.Prelude.{◌≡◌, ◌+◌, ◌-◌, ◌*◌, ◌<◌, ◌≤◌, get_or};
ghost use Rattle.answers.specs.Answers.{plain_answer};
ghost use Rattle.answers.specs.Limits.{max_ports};
ghost use Rattle.answers.specs.Lowest.{found};
ghost use Rattle.flows.specs.Flows.{per_flow, flow_count, input_of, output_of, cells_of, comes_from, goes_to, misshapen, flow_out_of_range, outputs_out_of_range, cells_at, list_answer, overloaded};
ghost use Rattle.flows.specs.Sides.{as_input};

use answers::{MAX_FLOWS, MAX_FRAME, MAX_PORTS, Refusal, first_where, outside};

// How many numbers a flow takes in the list.
pub const PER_FLOW: usize = 3;

// The two sides of the switch.
#[derive(Clone, Copy, Debug, PartialEq, Eq)]
pub enum Side {
    Input,
    Output,
}

// A frame of so many slots, the ports, and the list of flows. Any numbers may stand in it: `judge` says whether they are in range.
#[derive(Clone, Copy)]
pub struct Plan<'a> {
    pub frame: usize,
    pub ports: usize,
    pub list: &'a [u16],
}

impl Plan<'_> {
    // One of a flow's numbers, and 0 where the list has no such flow, as the definitions of its numbers say.
    fn number_of(&self, flow: usize, which: usize) -> usize
        requires { which < per_flow }
        ensures { result ≡ get_or self.now.list.now (per_flow * (flow - 1) + which) 0 }
    {
        if self.list.len() < flow {
            return 0;
        }
        let at = PER_FLOW * flow.saturating_sub(1) + which;
        self.list.get(at).map_or(0, |&number| usize::from(number))
    }

    pub fn input_of(&self, flow: usize) -> usize
        ensures { result ≡ input_of self.now.list.now flow }
    {
        self.number_of(flow, 0)
    }

    pub fn output_of(&self, flow: usize) -> usize
        ensures { result ≡ output_of self.now.list.now flow }
    {
        self.number_of(flow, 1)
    }

    pub fn cells_of(&self, flow: usize) -> usize
        ensures { result ≡ cells_of self.now.list.now flow }
    {
        self.number_of(flow, 2)
    }

    pub fn flow_count(&self) -> usize
        ensures { result ≡ flow_count self.now.list.now }
    {
        self.list.len() / PER_FLOW
    }

    // Whether the flow's cells come from that input.
    pub fn comes_from(&self, flow: usize, input: usize) -> bool
        ensures { result ≡ comes_from self.now.list.now flow input }
    {
        self.input_of(flow) == input
    }

    // Whether the flow's cells are for that output.
    pub fn goes_to(&self, flow: usize, output: usize) -> bool
        ensures { result ≡ goes_to self.now.list.now flow output }
    {
        self.output_of(flow) == output
    }

    // Refusal 3.
    pub fn misshapen(&self) -> bool
        ensures { result ≡ misshapen self.now.list.now }
    {
        self.list.len() % PER_FLOW != 0 || PER_FLOW * MAX_FLOWS < self.list.len()
    }

    // Whether the flow has no output, or one that is not there.
    fn outputs_out_of_range(&self, flow: usize) -> bool
        ensures { result ≡ outputs_out_of_range self.now.ports self.now.list.now flow }
    {
        outside(1, self.ports, self.output_of(flow))
    }

    // Refusal 4 of one flow.
    fn flow_out_of_range(&self, flow: usize) -> bool
        ensures { result ≡ flow_out_of_range self.now.frame self.now.ports self.now.list.now flow }
    {
        outside(1, self.ports, self.input_of(flow))
            || self.outputs_out_of_range(flow)
            || outside(1, self.frame, self.cells_of(flow))
    }

    // The lowest flow that refusal 4 names.
    pub fn first_out_of_range(&self) -> Option<usize>
        ensures { result ≡ found 1 (flow_count self.now.list.now) (flow_out_of_range self.now.frame self.now.ports self.now.list.now) }
    {
        first_where(1..self.flow_count() + 1, |flow| {
            self.flow_out_of_range(flow)
        })
    }

    // Refusals 1, 2, 3 and 4, which every call that takes a list gives first.
    #[tactic(auto, unfolding(crate::specs::Flows::list_answer))]
    pub fn judge(&self) -> Result<(), Refusal>
        ensures { plain_answer result ≡ list_answer self.now.frame self.now.ports self.now.list.now }
    {
        if outside(1, MAX_FRAME, self.frame) {
            return Err(Refusal::FrameOutOfRange);
        }
        if outside(1, MAX_PORTS, self.ports) {
            return Err(Refusal::PortsOutOfRange);
        }
        if self.misshapen() {
            return Err(Refusal::ListMisshapen);
        }
        if let Some(flow) = self.first_out_of_range() {
            return Err(Refusal::FlowOutOfRange(flow as u16));
        }
        Ok(())
    }

    // A flow's cells as they count at a port of one side.
    fn cells_at(&self, side: Side, port: usize, flow: usize) -> usize
        ensures { result ≡ cells_at (as_input side) self.now.list.now port flow }
    {
        let counts = match side {
            Side::Input => self.comes_from(flow, port),
            Side::Output => self.goes_to(flow, port),
        };
        if counts { self.cells_of(flow) } else { 0 }
    }

    // Whether a port is asked for more than the frame: the cells still free are counted down, so that no sum can wrap.
    fn port_overloaded(&self, side: Side, port: usize) -> bool
        ensures { result ≡ overloaded (as_input side) self.now.frame self.now.list.now port }
    {
        let mut free = self.frame;
        for passed in 0..self.flow_count() {
            let asked = self.cells_at(side, port, passed + 1);
            if free < asked {
                return true;
            }
            free -= asked;
        }
        false
    }

    // The lowest port of one side that is asked for more than the frame.
    pub fn first_overloaded(&self, side: Side) -> Option<usize>
        requires { self.now.ports ≤ max_ports }
        ensures { result ≡ found 1 self.now.ports (overloaded (as_input side) self.now.frame self.now.list.now) }
    {
        first_where(1..self.ports + 1, |port| self.port_overloaded(side, port))
    }
}
