// The planner's work on slices: a text in, a table out.
ghost use Rattle.std.specs.Prelude.{◌≡◌, IfOk};
ghost use Rattle.flows.specs.Flows.{flow_count};
ghost use Rattle.plan_text.specs.Reading.{list_in};
ghost use Rattle.plan.specs.Responding.{Responded, told};

use answers::{MAX_FLOWS, Refusal};
use flows::{PER_FLOW, Plan};
use plan_text::reading::{Heading, read};

// Reads the text and builds its table into the lent buffer; hands back the text's heading.
pub fn respond(text: &[u8], table: &mut [u8]) -> Result<Heading, Refusal>
    ensures planned { Responded text.now table.old table.new (told result) }
    ensures flows { IfOk result (λ h. h.flows ≡ flow_count (list_in text.now)) }
{
    let mut list = [0u16; PER_FLOW * MAX_FLOWS];
    let heading = read(text, &mut list)?;
    let numbers = PER_FLOW * usize::from(heading.flows);
    let plan = Plan {
        frame: heading.frame,
        ports: heading.ports,
        list: &list[..numbers],
    };
    builder::build(&plan, table).map(|()| heading)
}
