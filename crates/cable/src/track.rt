// One direction of a disturbed cable.
ghost use Rattle.std.specs.Prelude.{◌≡◌, true};
ghost use Rattle.cable.specs.Channels.{handed, stepped};
ghost use Rattle.cable.specs.Rising.{rising};

/// The numbers of the steps that turn a pair over, as far as they are left, and the number of the next step. It counts
/// no further than to the last flip, so it cannot run over.
// It is copied with its cable, so it has no model: the flips that are left do not say how many steps are past.
#[derive(Clone, Copy)]
pub struct Track<'a> {
    left: &'a [u32],
    elapsed: u64,
    ghost ahead: { rising elapsed left.now ≡ true },
}

impl<'a> Track<'a> {
    ghost use Rattle.cable.specs.Disturb.{flipped, flipped_in};

    /// Flips for the steps of these numbers, counted from now.
    pub(crate) fn new(list: &'a [u32]) -> Track<'a>
        requires { rising 0 list.now ≡ true }
        ensures { flipped_in result ≡ flipped 0 list.now }
    {
        Track {
            left: list,
            elapsed: 0,
        }
    }

    /// Hands a pair through, turned over where a flip is due, which is then struck off. The control line is never touched.
    #[tactic(auto, using(crate::proofs::Striking::strikes))]
    pub(crate) fn pass(&mut self, pair: (bool, bool)) -> (bool, bool)
        ensures hands { result ≡ handed (flipped_in self.old) pair }
        ensures leaves { flipped_in self.new ≡ stepped (flipped_in self.old) pair }
    {
        let [next, rest @ ..] = self.left else {
            return pair;
        };
        let due = u64::from(*next) == self.elapsed;
        if due {
            self.left = rest;
        }
        self.elapsed += 1;
        (pair.0 != due, pair.1)
    }
}
