// What is refused of a network: its lists' lengths first, then its messages, one after the other.
ghost use Rattle.std.specs.Prelude.{◌≡◌, ◌≤◌, ◌<◌, length, pos, get_or, false, IfOk};
ghost use Rattle.answers.specs.Limits.{max_cycle_links, max_messages};
ghost use Rattle.answers.specs.Lowest.{found};
ghost use Rattle.answers.specs.Answers.{answer_of};
ghost use Rattle.cycles.specs.Lent.{of_network};
ghost use Rattle.cycles.specs.Judging.{network_missized, link_missing, misshapen, above_window, message_misshapen, message_above_window, network_answer};

use crate::Network;
use crate::links::Message;
use answers::{MAX_CYCLE_LINKS, MAX_MESSAGES, Refusal, first_where};

// A network that refusal 34 is not due of: not too many links and messages, and a set for each message.
#[derive(Clone, Copy)]
pub struct Judged<'a> {
    pub network: Network<'a>,
    ghost few_links: { length network.windows.now ≤ max_cycle_links },
    ghost few_messages: { length network.sizes.now ≤ max_messages },
    ghost as_many_sets: { length network.paths.now ≡ length network.sizes.now },
}

impl<'a> Network<'a> {
    // Refusal 34 of a network.
    fn missized(&self) -> bool
        ensures { result ≡ network_missized (of_network self.now) }
    {
        MAX_CYCLE_LINKS < self.links()
            || MAX_MESSAGES < self.messages()
            || self.paths.len() != self.messages()
    }

    // What every call about a network refuses, in order: 34, 30, 31, 21. The call says whether its other lists and numbers are missized, and whether
    // a lent buffer is too short.
    #[tactic(auto, unfolding(crate::specs::Judging::network_answer))]
    pub(crate) fn judge(self, other_missized: bool, too_short: bool) -> Result<Judged<'a>, Refusal>
        ensures answered { answer_of (λ _. pos 0) result ≡ network_answer (of_network self.entry) other_missized too_short }
        ensures same { IfOk result (λ judged. judged.network ≡ self.entry) }
        ensures sized { IfOk result (λ _. other_missized ≡ false) }
        ensures room { IfOk result (λ _. too_short ≡ false) }
    {
        if self.missized() || other_missized {
            return Err(Refusal::CyclesMissized);
        }
        let judged = Judged { network: self };
        if let Some(place) = judged.first_misshapen() {
            return Err(Refusal::MessageMisshapen(place as u16));
        }
        if let Some(place) = judged.first_above_window() {
            return Err(Refusal::MessageAboveWindow(place as u16));
        }
        if too_short {
            return Err(Refusal::BufferTooSmall);
        }
        Ok(judged)
    }
}

impl Judged<'_> {
    // The links' windows.
    pub(crate) fn windows(&self) -> &[u16]
        ensures { result.now ≡ self.now.network.windows.now }
    {
        self.network.windows
    }

    // A message, by its place in the order of priorities.
    pub(crate) fn message(&self, place: usize) -> Message
        requires { place < length self.now.network.sizes.now }
        ensures size { result.size ≡ get_or self.now.network.sizes.now place 0 }
        ensures path { result.path ≡ get_or self.now.network.paths.now place 0 }
    {
        Message {
            size: self.network.sizes[place],
            path: self.network.paths[place],
        }
    }

    // Whether a message's set has a link that is not there.
    fn link_missing(&self, message: Message) -> bool
        ensures { result ≡ link_missing (length self.now.network.windows.now) message.path }
    {
        let past_the_last = self.network.links()..MAX_CYCLE_LINKS;
        first_where(past_the_last, |link| message.crosses(link)).is_some()
    }

    // Refusal 30 of one message: an empty set, a link that is not there, or size 0.
    fn misshapen(&self, message: Message) -> bool
        ensures { result ≡ misshapen (length self.now.network.windows.now) message.size message.path }
    {
        message.path == 0 || self.link_missing(message) || message.size == 0
    }

    // The lowest message that refusal 30 names.
    fn first_misshapen(&self) -> Option<usize>
        ensures { result ≡ found 0 (length self.now.network.sizes.now) (message_misshapen (of_network self.now.network)) }
    {
        first_where(0..self.network.messages(), |place| {
            self.misshapen(self.message(place))
        })
    }

    // Refusal 31 of one message: no room for it though nothing was taken.
    fn above_window(&self, message: Message) -> bool
        ensures { result ≡ above_window self.now.network.windows.now message.size message.path }
    {
        self.no_room(message, &[0; MAX_CYCLE_LINKS])
    }

    // The lowest message that refusal 31 names.
    fn first_above_window(&self) -> Option<usize>
        ensures { result ≡ found 0 (length self.now.network.sizes.now) (message_above_window (of_network self.now.network)) }
    {
        first_where(0..self.network.messages(), |place| {
            self.above_window(self.message(place))
        })
    }
}
