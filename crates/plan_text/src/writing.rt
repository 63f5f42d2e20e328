// Writing a plan text. The text is composed apart, so that the lent buffer changes only if all of it has room.
ghost use Rattle.std.specs.Prelude.{◌≡◌, ◌*◌, length};
ghost use Rattle.answers.specs.Answers.{counted_answer};
ghost use Rattle.flows.specs.Flows.{per_flow, flow_count};
ghost use Rattle.plan_text.specs.Form.{line, line_of, flow_lines, text_of_plan};
ghost use Rattle.plan_text.specs.Plans.{Puts, HasRoom, write_answer, written_into};

use crate::keys::{FLOW_KEY, FRAME_KEY, LINE_FEED, PORTS_KEY};
use crate::writer::Writer;
use answers::{MAX_TEXT, Refusal};
use flows::Plan;

impl Writer<'_> {
    // Puts a key and one number on a line.
    fn put_line(&mut self, key: &[u8], n: usize)
        requires { HasRoom self.old (line key.now n) }
        ensures { Puts self.old (line key.now n) self.new }
    {
        self.put_bytes(key);
        self.put_number(n as u64);
        self.put_byte(LINE_FEED);
    }

    // Puts a flow's line.
    fn put_flow(&mut self, plan: &Plan, flow: usize)
        requires { HasRoom self.old (line_of plan.now.list.now flow) }
        ensures { Puts self.old (line_of plan.now.list.now flow) self.new }
    {
        self.put_bytes(&FLOW_KEY);
        self.put_number(plan.input_of(flow) as u64);
        self.put_after_comma(plan.output_of(flow) as u64);
        self.put_after_comma(plan.cells_of(flow) as u64);
        self.put_byte(LINE_FEED);
    }

    // Puts the lines of the flows from the first on.
    fn put_flows(&mut self, plan: &Plan)
        requires room { HasRoom self.old (flow_lines plan.now.list.now) }
        requires threes { length plan.now.list.now ≡ per_flow * flow_count plan.now.list.now }
        ensures { Puts self.old (flow_lines plan.now.list.now) self.new }
    {
        for flow in 1..plan.flow_count() + 1 {
            self.put_flow(plan, flow);
        }
    }

    // Puts the text of a plan.
    #[tactic(auto, unfolding(crate::specs::Form::text_of_plan))]
    fn put_plan(&mut self, plan: &Plan)
        requires room { HasRoom self.old (text_of_plan plan.now.frame plan.now.ports plan.now.list.now) }
        requires threes { length plan.now.list.now ≡ per_flow * flow_count plan.now.list.now }
        ensures { Puts self.old (text_of_plan plan.now.frame plan.now.ports plan.now.list.now) self.new }
    {
        self.put_line(&FRAME_KEY, plan.frame);
        self.put_line(&PORTS_KEY, plan.ports);
        self.put_flows(plan);
    }
}

// Writes a plan as its text into the lent buffer, and hands back the bytes written.
#[tactic(auto, unfolding(crate::specs::Plans::write_answer, crate::specs::Plans::written_into), using(crate::proofs::TakingOver::judging))]
pub fn write(plan: &Plan, out: &mut [u8]) -> Result<u16, Refusal>
    ensures answered { counted_answer result ≡ write_answer plan.now.frame plan.now.ports plan.now.list.now (length out.old) }
    ensures left { out.new ≡ written_into plan.now.frame plan.now.ports plan.now.list.now out.old }
{
    plan.judge()?;
    let mut text = [0u8; MAX_TEXT];
    let mut writer = Writer::new(&mut text);
    writer.put_plan(plan);
    let written = writer.written();
    let needed = written.len();
    if out.len() < needed {
        return Err(Refusal::BufferTooSmall);
    }
    out[..needed].copy_from_slice(written);
    Ok(needed as u16)
}
