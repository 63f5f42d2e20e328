// What one cycle takes.
ghost use Rattle.std.specs.Prelude.{◌≡◌, ◌&&◌, ◌+◌, ◌≤◌, ◌<◌, ℕ, Bool, false, cond, not, length, get_or, EachIndex};
ghost use Rattle.answers.specs.Limits.{max_messages};
ghost use Rattle.answers.specs.Sums.{one};
ghost use Rattle.answers.specs.Buffers.{written};
ghost use Rattle.cycles.specs.Cycle.{no_room, share, taken, load_of, marked};
ghost use Rattle.cycles.specs.Lent.{of_network};
ghost use Rattle.cycles.specs.Steps.{load_in, Took};

use crate::judging::Judged;
use crate::links::{Loads, Message};
use answers::{MAX_CYCLE_LINKS, MAX_MESSAGES};

// What a cycle takes: of each message whether it is taken, and what all of them put on the links.
#[derive(Clone, Copy)]
pub struct Taken {
    pub messages: [bool; MAX_MESSAGES],
    pub loads: Loads,
}

impl Taken {
    // Stores a byte for each message, 1 if it is taken and else 0.
    fn store_messages(&self, bytes: &mut [u8])
        requires { length bytes.old ≤ max_messages }
        ensures { EachIndex bytes.new (λ i. get_or bytes.new i 0 ≡ one (get_or self.now.messages i false)) }
    {
        for (place, byte) in bytes.iter_mut().enumerate() {
            *byte = u8::from(self.messages[place]);
        }
    }
}

impl Judged<'_> {
    // Takes a message if it is ready and there is room for it on all its links: then its size is on them.
    #[tactic(auto, using(crate::proofs::Messages::part_fits))]
    fn take(&self, message: Message, ready: bool, loads: &mut Loads) -> bool
        ensures taken { result ≡ (ready && not (no_room self.now.network.windows.now (load_in loads.old) message.size message.path)) }
        ensures loads { (l : ℕ) → l < length self.now.network.windows.now → load_in loads.new l ≡ load_in loads.old l + cond result (share message.size message.path l) 0 }
    {
        let windows = self.windows();
        if !ready || self.no_room(message, loads) {
            return false;
        }
        message.add(&mut loads[..windows.len()]);
        true
    }

    // Looks at the messages in order, and takes each that is ready and has room.
    pub(crate) fn take_ready<F: Fn(usize) -> bool>(&self, is_ready: F) -> Taken
        requires { (i : ℕ) → i < length self.now.network.sizes.now → F.pre is_ready i }
        ensures { (ready : ℕ → Bool) → ((i : ℕ) → (b : Bool) → i < length self.now.network.sizes.now → F.post is_ready i b → b ≡ ready i) → Took (of_network self.now.network) ready result }
    {
        let mut taken = Taken {
            messages: [false; MAX_MESSAGES],
            loads: [0; MAX_CYCLE_LINKS],
        };
        for place in 0..self.network.messages() {
            let message = self.message(place);
            taken.messages[place] = self.take(message, is_ready(place), &mut taken.loads);
        }
        taken
    }

    // A cycle by lent lists: which messages are ready, a byte each; for each message a byte, 1 if it is taken and else 0; and each link's load.
    pub(crate) fn cycle(&self, ready: &[u8], taken_bytes: &mut [u8], loads: &mut [u16])
        requires ready { length self.now.network.sizes.now ≤ length ready.now }
        requires bytes { length self.now.network.sizes.now ≤ length taken_bytes.old }
        requires room { length self.now.network.windows.now ≤ length loads.old }
        ensures marked { taken_bytes.new ≡ written (length self.now.network.sizes.now) (λ i. one (taken (of_network self.now.network) (marked ready.now) i)) taken_bytes.old }
        ensures loads { loads.new ≡ written (length self.now.network.windows.now) (load_of (of_network self.now.network) (marked ready.now)) loads.old }
    {
        let taken = self.take_ready(|place| ready[place] != 0);
        taken.store_messages(&mut taken_bytes[..self.network.messages()]);
        let links = self.network.links();
        loads[..links].copy_from_slice(&taken.loads[..links]);
    }
}
