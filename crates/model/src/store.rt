// The stored signals: the first `signal_count` of the array, oldest first. Only this file knows where they sit.
ghost use Rattle.std.specs.List.{list_all, position};
ghost use Rattle.std.specs.Prelude.{◌≡◌, Some, None, eqb, map};
ghost use Rattle.laws.specs.Listing.{padded};
ghost use Rattle.model.specs.Code.{store};
ghost use Rattle.model.specs.Store.{stored, first_signal, appended, leaves_over, left_over, emptied, in_sequence, signal_zero, store_fits};
ghost use Rattle.model.specs.StoreLaws.{found_at, left_at};

use crate::answer::{Ended, Ending};
use crate::{BufferedSignal, State, code, is_terminal};

// The last place of the store.
const LAST: usize = code::STORE - 1;

impl State {
    // The signal is stored behind the others; a full store stays as it is.
    pub fn append_signal(mut self, signal: BufferedSignal) -> State
        ensures { result ≡ appended self signal }
    {
        let n = self.signal_count as usize;
        if code::STORE <= n {
            return self;
        }
        self.signals[n] = signal;
        self.signal_count += 1;
        self
    }

    // The oldest stored signal of a name goes from the store, as the later ones move down.
    pub(crate) fn remove_first(&mut self, name: u32) -> Option<BufferedSignal>
        ensures result_value { result ≡ found_at self.old (first_signal self.old name) }
        ensures after { self.new ≡ left_at self.old (first_signal self.old name) }
    {
        let rows = workflow::capped(self.signal_count, code::STORE);
        let place = place_of(&self.signals[..rows], name)?;
        let signal = self.signals[place];
        self.signals.copy_within(place + 1.., place);
        self.signals[LAST] = BufferedSignal::none();
        self.signal_count -= 1;
        Some(signal)
    }

    // The stored signals as left over, oldest first.
    pub fn left_over(&self) -> [Option<Ending>; code::STORE]
        ensures { result ≡ padded store None (map Some (left_over (stored self.now))) }
    {
        let mut endings = [None; code::STORE];
        let rows = workflow::capped(self.signal_count, code::STORE);
        for (i, signal) in self.signals[..rows].iter().enumerate() {
            endings[i] = Some(Ending {
                sequence: signal.sequence,
                ending: Ended::LeftOver,
            });
        }
        endings
    }

    // None is stored any more.
    pub fn emptied(mut self) -> State
        ensures { result ≡ emptied self }
    {
        self.signals = [BufferedSignal::none(); code::STORE];
        self.signal_count = 0;
        self
    }

    // The store's part of the run check: a stored signal has a sequence number in range, and an unused slot is all zero.
    pub fn store_fits(&self) -> bool
        ensures { result ≡ store_fits self.now }
    {
        // Kept: an answer of its own, since the two parts of the array are there only behind it (d).
        if State::STORE < self.signal_count {
            return false;
        }
        let n = self.signal_count as usize;
        are_in_sequence(&self.signals[..n]) && are_zero(&self.signals[n..])
    }
}

// The place of the first signal of a name.
fn place_of(signals: &[BufferedSignal], name: u32) -> Option<usize>
    ensures { result ≡ position (λ x. eqb x.signal name) signals.now }
{
    signals.iter().position(|x| x.signal == name)
}

// Each has a sequence number in range.
fn are_in_sequence(signals: &[BufferedSignal]) -> bool
    ensures { result ≡ list_all in_sequence signals.now }
{
    signals.iter().all(|x| x.sequence <= code::LARGEST)
}

// Each is all zero.
fn are_zero(signals: &[BufferedSignal]) -> bool
    ensures { result ≡ list_all signal_zero signals.now }
{
    signals.iter().all(|x| x.is_none())
}

// The run has ended and signals are still stored.
pub fn leaves_over(status: u32, stored: u32) -> bool
    ensures { result ≡ leaves_over status stored }
{
    is_terminal(status) && 0 < stored
}
