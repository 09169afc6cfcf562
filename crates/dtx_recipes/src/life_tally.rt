// The numbers of one life of an exciter.
ghost use Rattle.std.specs.Prelude.{◌≡◌, ℕ};
ghost use Rattle.dtx_exciter.specs.Log.{line_of};
ghost use Rattle.dtx_recipes.specs.Life.{life_numbers, tally_with, HasRoom};

use dtx_exciter::Told;

/// How many packets an exciter was given, how many segments it gave, and how many presets and mutes its log has.
#[derive(Clone, Copy)]
pub struct LifeTally {
    pub packets: u64,
    pub segments: u64,
    pub presets: u64,
    pub mutes: u64,
}

impl LifeTally {
    /// All zeros: no packet was given.
    pub fn new() -> LifeTally
        ensures { result ≡ record { packets = 0; segments = 0; presets = 0; mutes = 0 } }
    {
        LifeTally {
            packets: 0,
            segments: 0,
            presets: 0,
            mutes: 0,
        }
    }

    /// Counts one packet more: the exciter answered it with `told` and gave `segments` segments.
    pub fn add(&mut self, told: Told, segments: u8)
        requires { HasRoom self.old segments }
        ensures { (n m : ℕ) → self.new ≡ tally_with self.old segments (line_of n m told) }
    {
        self.packets += 1;
        self.segments += segments as u64;
        match told {
            Told::Quiet | Told::Sent { preset: None } => {}
            Told::Sent { preset: Some(_) } => self.presets += 1,
            Told::Muted(_) => self.mutes += 1,
        }
    }

    /// The numbers of the command's line, in their order. `loose` bytes are behind the last whole packet.
    pub fn numbers(&self, loose: usize) -> [u64; 5]
        ensures { result ≡ life_numbers self.now loose }
    {
        [
            self.packets,
            self.segments,
            self.presets,
            self.mutes,
            loose as u64,
        ]
    }
}
