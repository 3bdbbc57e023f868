// Input bits and pins: what the processor and the line see of a chip.
ghost use Rattle.std.specs.Prelude.{◌≡◌};
ghost use Rattle.acc.specs.Inputs.{dscint, timint, xbint, rbint, interrupt, flag, rcverr, receiver_bit, buffer_bit, line_bit, read_of};

use super::Acc;

impl Acc {
    fn dscint(&self) -> bool
        ensures { result ≡ dscint self.now }
    {
        self.lines.dsch && self.enables.dscenb
    }

    fn timint(&self) -> bool
        ensures { result ≡ timint self.now }
    {
        self.timer.timelp && self.enables.timenb
    }

    fn xbint(&self) -> bool
        ensures { result ≡ xbint self.now }
    {
        self.transmitter.xbre && self.enables.xbienb
    }

    fn rbint(&self) -> bool
        ensures { result ≡ rbint self.now }
    {
        self.receiver.rbrl && self.enables.rienb
    }

    /// INT, true where it is active.
    pub fn interrupt(&self) -> bool
        ensures { result ≡ interrupt self.now }
    {
        self.dscint() || self.timint() || self.xbint() || self.rbint()
    }

    /// FLAG: a load flag or BRKON is set.
    pub fn flag(&self) -> bool
        ensures { result ≡ flag self.now }
    {
        self.load.ldctrl || self.load.ldir || self.load.lrdr || self.load.lxdr || self.modes.brkon
    }

    fn rcverr(&self) -> bool
        ensures { result ≡ rcverr self.now }
    {
        self.receiver.rfer || self.receiver.rover || self.receiver.rper
    }

    /// One input bit; there is nothing to read beyond 31.
    #[tactic(auto, unfolding(crate::specs::Inputs::read_of))]
    pub fn read(&self, address: u16) -> bool
        ensures { result ≡ read_of address self.now }
    {
        match address {
            0..=7 => (self.receiver.buffer >> address) % 2 == 1,
            9 => self.rcverr(),
            10 => self.receiver.rper,
            11 => self.receiver.rover,
            12 => self.receiver.rfer,
            13 => self.receiver.rfbd(),
            14 => self.receiver.rsbd(),
            15 => self.lines.rin,
            16 => self.rbint(),
            17 => self.xbint(),
            19 => self.timint(),
            20 => self.dscint(),
            21 => self.receiver.rbrl,
            22 => self.transmitter.xbre,
            23 => self.transmitter.xsre(),
            24 => self.timer.timerr,
            25 => self.timer.timelp,
            26 => self.lines.rts,
            27 => self.lines.dsr,
            28 => self.lines.cts,
            29 => self.lines.dsch,
            30 => self.flag(),
            31 => self.interrupt(),
            _ => false,
        }
    }
}
