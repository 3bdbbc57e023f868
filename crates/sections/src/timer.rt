// The interval timer.
ghost use Rattle.std.specs.Prelude.{◌≡◌, true};
ghost use Rattle.sections.specs.Time.{counted, tick_of, timer_loaded, timer_at, acknowledged, sound_timer};

use timing::counts::InternalCount;

/// The prescaler, the count in force, TIMELP (it has elapsed) and TIMERR (it elapsed again before that was seen).
#[derive(Clone, Copy)]
pub struct Timer {
    pub prescaler: InternalCount,
    pub count: u8,
    pub timelp: bool,
    pub timerr: bool,
}

impl Timer {
    /// As open leaves it: at the interval, with nothing elapsed.
    pub fn at(interval: u8) -> Timer
        ensures step { result ≡ timer_at interval }
        ensures sound { sound_timer result ≡ true }
    {
        Timer {
            prescaler: InternalCount(0),
            count: interval,
            timelp: false,
            timerr: false,
        }
    }

    /// LDIR has fallen: the count is loaded, and the prescaler begins anew.
    pub fn load(&mut self, interval: u8)
        ensures step { self.new ≡ timer_loaded interval self.old }
        ensures sound { sound_timer self.new ≡ true }
    {
        *self = Timer {
            timelp: self.timelp,
            timerr: self.timerr,
            ..Timer::at(interval)
        };
    }

    /// TIMELP and TIMERR have been seen: both become 0.
    pub fn acknowledge(&mut self)
        ensures step { self.new ≡ acknowledged self.old }
        ensures sound { sound_timer self.old ≡ true → sound_timer self.new ≡ true }
    {
        self.timelp = false;
        self.timerr = false;
    }

    /// One internal clock.
    #[tactic(auto, unfolding(crate::specs::Time::tick_of))]
    pub fn tick(&mut self, interval: u8, tstmd: bool)
        requires sound { sound_timer self.old ≡ true }
        ensures step { self.new ≡ tick_of interval tstmd self.old }
        ensures sound { sound_timer self.new ≡ true }
    {
        let limit = if tstmd { 2 } else { 64 };
        self.prescaler.0 += 1;
        if self.prescaler.0 >= limit {
            self.prescaler = InternalCount(0);
            self.count_down(interval);
        }
    }

    // A timer above 0 falls by one; on reaching 0 it has elapsed and reloads.
    fn count_down(&mut self, interval: u8)
        ensures { self.new ≡ counted interval self.old }
    {
        match self.count {
            0 => {}
            1 => {
                self.count = interval;
                self.timerr |= self.timelp;
                self.timelp = true;
            }
            _ => self.count -= 1,
        }
    }
}
