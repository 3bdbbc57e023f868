// What is kept of a run.
ghost use Rattle.std.specs.Prelude.{◌≡◌, ◌+◌, true, is_some, nat_lt};
ghost use Rattle.totes.specs.Outcome.{loss_told, labels_damaged, labels_lost, first_loss};

use crate::outcome::{Fate, Loss, Tally};

/// What came of each label so far, and the first loss, which there is exactly if a label is lost.
#[derive(Clone, Copy)]
pub(crate) struct Log {
    labels: [Fate; 20],
    first_loss: Option<Loss>,
    ghost told: { loss_told first_loss labels ≡ true },
}

impl Log {
    pub(crate) fn new() -> Log {
        Log {
            labels: [Fate::Whole; 20],
            first_loss: None,
        }
    }

    /// A character of a label was read, and is damaged. Noise may start characters that nobody sent: those behind the last label belong
    /// to none.
    #[tactic(auto, using(crate::proofs::Counting::told_when_damaged))]
    pub(crate) fn damage(&mut self, label: u32)
        ensures labels { self.new.labels ≡ labels_damaged label self.old.labels }
        ensures loss { self.new.first_loss ≡ self.old.first_loss }
    {
        if label < 20 {
            let fate = self.labels[label as usize];
            self.labels[label as usize] = fate.damaged();
        }
    }

    /// A character was lost, and with it its label.
    #[tactic(auto, using(crate::proofs::Counting::told_when_lost))]
    pub(crate) fn lose(&mut self, loss: Loss)
        ensures labels { self.new.labels ≡ labels_lost loss.position.label self.old.labels }
        ensures loss { self.new.first_loss ≡ first_loss loss self.old.first_loss }
    {
        let label = loss.position.label;
        if label < 20 {
            self.labels[label as usize] = Fate::Lost;
            self.first_loss = self.first_loss.or(Some(loss));
        }
    }

    /// What came of all labels in a run of so many moments: each label is counted once, and the first loss is there exactly if a label is lost.
    #[tactic(auto, using(crate::proofs::Counting::each_once, crate::proofs::Counting::first_loss_if_lost))]
    pub(crate) fn tally(&self, moments: u32) -> Tally
        ensures moments { result.moments ≡ moments }
        ensures labels { result.whole + result.lost + result.damaged ≡ 20 }
        ensures told { is_some result.first_loss ≡ nat_lt 0 result.lost }
    {
        Tally {
            whole: Fate::Whole.count(&self.labels),
            lost: Fate::Lost.count(&self.labels),
            damaged: Fate::Damaged.count(&self.labels),
            moments,
            first_loss: self.first_loss,
        }
    }
}
