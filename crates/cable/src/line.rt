// One direction of a delaying cable.
ghost use Rattle.std.specs.Prelude.{◌≡◌, ◌<◌, ◌≤◌, length};
ghost use Rattle.cable.specs.Channels.{all_mark, delay_of, handed, stepped};

use std::mem;

/// The pairs that wait, 1 to 64: the first `len` places are a ring, and the pair at `head` is handed out next.
// A line is copied with its cable and allocates nothing, so its pairs stand in an array and not in a queue of the library. A copied
// type could have a model only if the model gave the fields back, and the list that waits does not say where in the ring it begins.
#[derive(Clone, Copy)]
pub struct Line {
    pairs: [(bool, bool); 64],
    head: usize,
    len: usize,
    ghost within: { head < len },
    ghost few: { len ≤ 64 },
    ghost whole: { length pairs ≡ 64 },
}

impl Line {
    ghost use Rattle.cable.specs.Delay.{unflipped, waiting_in, idle};

    /// A line of `len` pairs, all mark and inactive.
    #[tactic(auto, using(crate::proofs::Rotation::idle_waits))]
    pub(crate) fn idle(len: usize) -> Line
        requires some { 0 < len }
        requires few { len ≤ 64 }
        ensures { waiting_in result ≡ idle len }
    {
        Line {
            pairs: [(true, false); 64],
            head: 0,
            len,
        }
    }

    /// Takes a pair in at the back, and hands out the front one.
    // The back of the ring is just before its head: the new pair takes the place of the one that goes.
    #[tactic(auto, using(crate::proofs::Rotation::turns))]
    pub(crate) fn pass(&mut self, pair: (bool, bool)) -> (bool, bool)
        ensures hands { result ≡ handed (unflipped (waiting_in self.old)) pair }
        ensures leaves { unflipped (waiting_in self.new) ≡ stepped (unflipped (waiting_in self.old)) pair }
    {
        let out = mem::replace(&mut self.pairs[self.head], pair);
        self.head = if self.head + 1 < self.len {
            self.head + 1
        } else {
            0
        };
        out
    }

    /// How many pairs wait.
    pub(crate) fn delay(&self) -> u32
        ensures { result ≡ delay_of (unflipped (waiting_in self.now)) }
    {
        self.len as u32
    }

    /// Whether every waiting data level is mark.
    pub(crate) fn clear(&self) -> bool
        ensures { result ≡ all_mark (waiting_in self.now) }
    {
        self.pairs[..self.len].iter().all(|pair| pair.0)
    }
}
