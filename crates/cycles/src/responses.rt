// A run of cycles, and what response each message has. As the run goes on it is noted of each message which cycle took it, if one did.
ghost use Rattle.std.specs.Prelude.{◌≡◌, ◌+◌, ◌≤◌, ◌<◌, length};
ghost use Rattle.answers.specs.Limits.{max_cycles};
ghost use Rattle.answers.specs.Lowest.{found};
ghost use Rattle.answers.specs.Buffers.{written};
ghost use Rattle.cycles.specs.Lent.{of_network};
ghost use Rattle.cycles.specs.Run.{ready_in, taken_in, response_of};
ghost use Rattle.cycles.specs.Steps.{TookBefore};

use crate::judging::Judged;
use answers::MAX_MESSAGES;

// A run: the network, the cycle in which each message is released, and how many cycles there are.
#[derive(Clone, Copy)]
pub struct Run<'a> {
    pub judged: Judged<'a>,
    pub releases: &'a [u16],
    pub cycles: usize,
    ghost as_many_releases: { length releases.now ≡ length judged.network.sizes.now },
    ghost few_cycles: { cycles ≤ max_cycles },
}

impl Run<'_> {
    // Whether a message is ready in a cycle: it is released by then, and no earlier cycle took it.
    #[tactic(auto, using(crate::proofs::Turns::before_found))]
    fn is_ready(&self, place: usize, cycle: u16, taken_by: Option<u16>) -> bool
        requires there { place < length self.now.releases.now }
        requires known { taken_by ≡ found 0 cycle (λ t. taken_in (of_network self.now.judged.network) self.now.releases.now t place) }
        ensures { result ≡ ready_in (of_network self.now.judged.network) self.now.releases.now cycle place }
    {
        self.releases[place] <= cycle && taken_by.is_none()
    }

    // One cycle of the run. What it takes was taken by no cycle before, so that nothing noted is lost.
    fn run_cycle(&self, cycle: u16, taken_by: &mut [Option<u16>; MAX_MESSAGES])
        requires { TookBefore (of_network self.now.judged.network) self.now.releases.now cycle taken_by.old }
        ensures { TookBefore (of_network self.now.judged.network) self.now.releases.now (cycle + 1) taken_by.new }
    {
        let taken = self
            .judged
            .take_ready(|place| self.is_ready(place, cycle, taken_by[place]));
        for place in 0..self.releases.len() {
            if taken.messages[place] {
                taken_by[place] = Some(cycle);
            }
        }
    }

    // All cycles of the run: of each message the cycle that took it, if one did. A cycle's number fits into 16 bits, as a release does.
    fn all_cycles(&self) -> [Option<u16>; MAX_MESSAGES]
        ensures { TookBefore (of_network self.now.judged.network) self.now.releases.now self.now.cycles result }
    {
        let mut taken_by = [None; MAX_MESSAGES];
        for cycle in 0..self.cycles as u16 {
            self.run_cycle(cycle, &mut taken_by);
        }
        taken_by
    }

    // A message's response, as it is stored: the cycles from its release through the one that took it, or a mark.
    #[tactic(auto, using(crate::proofs::Turns::before_found))]
    fn response(&self, place: usize, taken_by: Option<u16>) -> u16
        requires there { place < length self.now.releases.now }
        requires known { taken_by ≡ found 0 self.now.cycles (λ t. taken_in (of_network self.now.judged.network) self.now.releases.now t place) }
        ensures { result ≡ response_of (of_network self.now.judged.network) self.now.releases.now self.now.cycles place }
    {
        let release = self.releases[place];
        match taken_by {
            Some(cycle) => cycle - release + 1,
            None if usize::from(release) < self.cycles => crate::STILL_WAITING,
            None => crate::RELEASED_PAST_RUN,
        }
    }

    // Goes through the run, and stores each message's response.
    pub fn run_cycles(&self, responses: &mut [u16])
        requires { length self.now.judged.network.sizes.now ≤ length responses.old }
        ensures { responses.new ≡ written (length self.now.judged.network.sizes.now) (response_of (of_network self.now.judged.network) self.now.releases.now self.now.cycles) responses.old }
    {
        let taken_by = self.all_cycles();
        for (place, response) in responses[..self.releases.len()].iter_mut().enumerate() {
            *response = self.response(place, taken_by[place]);
        }
    }
}
