//! Numbers that look random and follow from a seed alone.
ghost use Rattle.std.specs.Prelude.{◌≡◌, ◌<◌};
ghost use Rattle.kc_report.specs.TextDraws.{drawn, next_state};

/// The factor of a step.
const MULTIPLIER: u64 = 6_364_136_223_846_793_005;

/// The summand of a step.
const INCREMENT: u64 = 1_442_695_040_888_963_407;

/// The lowest bits of a state, which repeat soon, so that no number is drawn from them.
const DROPPED_BITS: u32 = 33;

/// A linear congruential generator (Lehmer 1951), modulo 2^64. The factor and the summand are those of MMIX (Knuth 1997).
#[derive(Drop)]
pub(crate) struct TextDraws {
    state: u64,
}

impl TextDraws {
    /// The numbers that follow from a seed.
    pub(crate) fn new(seed: u32) -> TextDraws
        ensures { result.state ≡ seed }
    {
        TextDraws {
            state: u64::from(seed),
        }
    }

    /// The next number below a bound.
    pub(crate) fn below(&mut self, bound: u32) -> u32
        requires { 0 < bound }
        ensures drawn { result ≡ drawn bound self.old.state }
        ensures below { result < bound }
        ensures state { self.new.state ≡ next_state self.old.state }
    {
        self.state = self.state.wrapping_mul(MULTIPLIER).wrapping_add(INCREMENT);
        ((self.state >> DROPPED_BITS) % u64::from(bound)) as u32
    }
}
