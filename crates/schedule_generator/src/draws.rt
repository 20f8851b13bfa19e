//! Numbers that a seed gives, one after another.
ghost use Rattle.std.specs.Prelude.{◌≡◌, ◌<◌};
ghost use Rattle.schedule_generator.specs.Generated.{next_state, drawn};

/// The factor of the generator in Knuth's MMIX.
const FACTOR: u64 = 6_364_136_223_846_793_005;

/// Its addend.
const ADDEND: u64 = 1_442_695_040_888_963_407;

/// The draws from a seed.
#[derive(Drop)]
pub struct Draws {
    /// The state: at first the seed.
    pub state: u64,
}

impl Draws {
    /// A number below `count`.
    #[tactic(auto, unfolding(crate::specs::Generated::next_state, crate::specs::Generated::drawn))]
    pub fn draw(&mut self, count: u64) -> u64
        requires { 0 < count }
        ensures below { result < count }
        ensures value { result ≡ drawn count self.old.state }
        ensures state { self.new.state ≡ next_state self.old.state }
    {
        self.state = self.state.wrapping_mul(FACTOR).wrapping_add(ADDEND);
        (self.state >> 33) % count
    }
}
