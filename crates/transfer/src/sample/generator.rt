//! The generator of the sample's octets.
ghost use Rattle.std.specs.Prelude.{◌≡◌, ◌/◌, ◌%◌, length};
ghost use Rattle.transfer.specs.Sample.{next_state, octets_behind, state_behind};

/// A linear congruential generator: the same octets from the same number, on every machine. They are no random numbers.
#[derive(Drop)]
pub(crate) struct Generator {
    state: u32,
}

impl Generator {
    /// The generator whose first state is this number.
    pub(crate) fn new(seed: u32) -> Generator
        ensures { result.state ≡ seed }
    {
        Generator { state: seed }
    }

    /// The next octet.
    fn octet(&mut self) -> u8
        ensures state { self.new.state ≡ next_state self.old.state }
        ensures octet { result ≡ (self.new.state / 65536) % 256 }
    {
        let next = (1_103_515_245 * u64::from(self.state) + 12_345) % 0x8000_0000;
        self.state = next as u32;
        (self.state / 65_536 % 256) as u8
    }

    /// Fills the octets with the next ones.
    pub(crate) fn fill(&mut self, out: &mut [u8])
        ensures octets { out.new ≡ octets_behind self.old.state (length out.old) }
        ensures state { self.new.state ≡ state_behind self.old.state (length out.old) }
    {
        let mut filled = 0;
        while filled < out.len() {
            out[filled] = self.octet();
            filled += 1;
        }
    }
}
