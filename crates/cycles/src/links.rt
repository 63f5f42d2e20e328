// What messages put on links, and whether there is room.
ghost use Rattle.std.specs.Prelude.{◌≡◌, ◌+◌, ◌≤◌, ◌<◌, ℕ, length};
ghost use Rattle.answers.specs.Limits.{max_cycle_links};
ghost use Rattle.cycles.specs.Cycle.{in_set, too_much, no_room, share};
ghost use Rattle.cycles.specs.Steps.{load_in, AllFit};

use crate::judging::Judged;
use answers::{MAX_CYCLE_LINKS, first_where};

// What is taken on each link.
pub type Loads = [u16; MAX_CYCLE_LINKS];

// A message: its size, in slots, and its set of links, a bit for each.
#[derive(Clone, Copy)]
pub struct Message {
    pub size: u16,
    pub path: u32,
}

impl Message {
    // Whether a link is in the message's set: its bit is 1. A message knows nothing of a network, so that the link's limit stays a clause.
    pub fn crosses(self, link: usize) -> bool
        requires { link < max_cycle_links }
        ensures { result ≡ in_set self.path link }
    {
        (self.path >> link) % 2 == 1
    }

    // Puts the message on those of the first links that are in its set. Others get 0, so that no link waits for a branch.
    pub fn add(self, loads: &mut [u16])
        requires few { length loads.old ≤ max_cycle_links }
        requires fits { AllFit self.size self.path (length loads.old) loads.old }
        ensures { (l : ℕ) → l < length loads.old → load_in loads.new l ≡ load_in loads.old l + share self.size self.path l }
    {
        for (link, load) in loads.iter_mut().enumerate() {
            *load += if self.crosses(link) { self.size } else { 0 };
        }
    }
}

impl Judged<'_> {
    // Whether a message is too much for a link, with these loads. Load and size together can pass 16 bits.
    fn too_much(&self, message: Message, loads: &Loads, link: usize) -> bool
        requires { link < length self.now.network.windows.now }
        ensures { result ≡ too_much self.now.network.windows.now (load_in loads.now) message.size message.path link }
    {
        message.crosses(link)
            && usize::from(self.windows()[link])
                < usize::from(loads[link]) + usize::from(message.size)
    }

    // Whether a message is too much for one of the links, with these loads.
    pub(crate) fn no_room(&self, message: Message, loads: &Loads) -> bool
        ensures { result ≡ no_room self.now.network.windows.now (load_in loads.now) message.size message.path }
    {
        first_where(0..self.network.links(), |link| {
            self.too_much(message, loads, link)
        })
        .is_some()
    }
}
