// The builder: one cell placed by the exchange, and the build that repeats it.
#![tactic(auto)]

mod filling;
mod run;

ghost use Rattle.std.specs.Prelude.{◌≡◌, ◌≤◌};
ghost use Rattle.answers.specs.Answers.{plain_answer};
ghost use Rattle.answers.specs.Limits.{max_ports, max_frame};
ghost use Rattle.builder.specs.Build.{load_answer, Built};

use answers::{MAX_FRAME, MAX_PORTS, Refusal};
use filling::Filling;
use flows::{Plan, Side};

// Refusals 5, 6 and 7.
#[tactic(auto, unfolding(crate::specs::Build::load_answer))]
fn judge_load(plan: &Plan, length: usize) -> Result<(), Refusal>
    requires { (plan.now.ports ≤ max_ports) × (plan.now.frame ≤ max_frame) }
    ensures { plain_answer result ≡ load_answer plan.now.frame plan.now.ports plan.now.list.now length }
{
    if let Some(port) = plan.first_overloaded(Side::Input) {
        return Err(Refusal::InputOverloaded(port as u16));
    }
    if let Some(port) = plan.first_overloaded(Side::Output) {
        return Err(Refusal::OutputOverloaded(port as u16));
    }
    if length < plan.ports * plan.frame {
        return Err(Refusal::TableTooShort);
    }
    Ok(())
}

// Builds an accepted table for the list, or refuses and leaves the table as it was: nothing is written before the loads are known to fit.
#[tactic(auto, using(crate::proofs::Outcome::outcomes))]
pub fn build(plan: &Plan, table: &mut [u8]) -> Result<(), Refusal>
    ensures { Built plan.now.frame plan.now.ports plan.now.list.now table.old table.new (plain_answer result) }
{
    plan.judge()?;
    judge_load(plan, table.len())?;
    table[..plan.ports * plan.frame].fill(0);
    let mut used = [false; MAX_PORTS * MAX_FRAME];
    let mut filling = Filling {
        plan,
        table,
        used: &mut used,
    };
    filling.fill();
    Ok(())
}
