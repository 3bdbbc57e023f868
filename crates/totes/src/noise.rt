// The steps that a noisy cable inverts.
ghost use Rattle.std.specs.Prelude.{◌≡◌, ◌<◌, ◌≤◌, length};
ghost use Rattle.totes.specs.Noise.{inverted_step, inverted_steps};

/// How many steps are inverted: as many as the list of a cable may have.
pub const INVERTED_STEPS: usize = 4096;

// The step that is inverted next after i others, where every n-th is. Steps are counted from 0.
fn inverted_step(i: usize, n: u32) -> u32
    requires few { i < 4096 }
    requires some { 0 < n }
    requires bound { n ≤ 1000000 }
    ensures { result ≡ inverted_step n i }
{
    (i as u32 + 1) * n - 1
}

/// Fills a list with the steps that are inverted where every n-th is.
pub fn fill_inverted_steps(steps: &mut [u32], n: u32)
    requires few { length steps.old ≤ 4096 }
    requires some { 0 < n }
    requires bound { n ≤ 1000000 }
    ensures { steps.new ≡ inverted_steps n (length steps.old) }
{
    for (i, step) in steps.iter_mut().enumerate() {
        *step = inverted_step(i, n);
    }
}
