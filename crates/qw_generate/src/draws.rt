//! The numbers that a seed gives, one after another.

ghost use Rattle.std.specs.Prelude.{◌≡◌};
ghost use Rattle.qw_generate.specs.Generated.{draw_of, next};

/// What a step multiplies the state by.
const FACTOR: u64 = 6_364_136_223_846_793_005;

/// What it adds.
const SUMMAND: u64 = 1_442_695_040_888_963_407;

/// The bits of a state below those that are drawn, which repeat too soon.
const LOW_BITS: u32 = 33;

/// Knuth's generator MMIX.
#[derive(Drop)]
pub(crate) struct Draws {
    state: u64,
}

impl Draws {
    /// The draws of a seed, none of them taken.
    pub(crate) fn new(seed: u64) -> Self
        ensures { result.state ≡ seed }
    {
        Draws { state: seed }
    }

    /// The next draw, below 2^31.
    pub(crate) fn draw(&mut self) -> u32
        ensures state { self.new.state ≡ next self.old.state }
        ensures drawn { result ≡ draw_of self.new.state }
    {
        self.state = self.state.wrapping_mul(FACTOR).wrapping_add(SUMMAND);
        (self.state >> LOW_BITS) as u32
    }
}
