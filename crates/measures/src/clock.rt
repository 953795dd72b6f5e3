// The clock of a site.
ghost use Rattle.std.specs.Prelude.{◌≡◌};
ghost use Rattle.measures.specs.Clock.{on_clock};

// The end of the clock, 2^62. A later tick counts as this one.
pub const LAST_TICK: u64 = 1 << 62;

pub fn on_clock(tick: u64) -> u64
    ensures tick_or_the_end_of_the_clock { result ≡ on_clock tick }
{
    tick.min(LAST_TICK)
}
