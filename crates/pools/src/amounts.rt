// Amounts of the four supplies, and arithmetic on them.
ghost use Rattle.std.specs.Prelude.{◌≡◌};
ghost use Rattle.std.specs.Option.{SomeIff, option_map};
ghost use Rattle.pools.specs.Totals.{total, nothing, max_amounts, plus, minus, is_within, Within};
ghost use Rattle.pools.specs.Rows.{AskedInEach};

// How many supplies there are. They are numbered from 0.
pub const SUPPLIES: usize = 4;

// One amount for each supply: a demand, a capacity, a reserve or what is in use.
#[derive(Clone, Copy, PartialEq, Eq, Debug)]
pub struct Amounts {
    pub each: [u32; SUPPLIES],
}

impl Amounts {
    // Nothing of any supply.
    pub const ZERO: Amounts = Amounts {
        each: [0; SUPPLIES],
    };

    pub fn is_zero(self) -> bool
        ensures zero_in_each_supply { result ≡ is_within (total self) nothing }
    {
        self.each.iter().all(|amount| *amount == 0)
    }

    // Whether no amount is larger than that of `bound`.
    pub fn is_within(self, bound: Amounts) -> bool
        ensures larger_in_no_supply { result ≡ is_within (total self) (total bound) }
    {
        self.each
            .iter()
            .zip(&bound.each)
            .all(|(amount, most)| amount <= most)
    }

    // The sum, or none where some amount would pass 32 bits.
    pub fn checked_add(self, other: Amounts) -> Option<Amounts>
        ensures sum_if_32_bits { SomeIff (option_map total result) (Within (plus (total self) (total other)) max_amounts) (plus (total self) (total other)) }
    {
        let each = zip_each(self.each, other.each, |a, b| a.checked_add(b))?;
        Some(Amounts { each })
    }

    // The difference, or none where some amount is smaller than that of `other`.
    pub fn checked_sub(self, other: Amounts) -> Option<Amounts>
        ensures difference_if_enough { SomeIff (option_map total result) (Within (total other) (total self)) (minus (total self) (total other)) }
    {
        let each = zip_each(self.each, other.each, |a, b| a.checked_sub(b))?;
        Some(Amounts { each })
    }
}

// Puts the amounts of each supply together; none where that gives none in some supply.
// (Tried as `array::try_from_fn`, with an error for each none: the proof did not close.)
fn zip_each<F: Fn(u32, u32) -> Option<u32>>(
    a: [u32; SUPPLIES],
    b: [u32; SUPPLIES],
    of: F,
) -> Option<[u32; SUPPLIES]>
    requires asked_of_any_two { F.IsAlwaysCallable of }
    ensures asked_in_each_supply { AskedInEach (F.post of) a b result }
{
    Some([
        of(a[0], b[0])?,
        of(a[1], b[1])?,
        of(a[2], b[2])?,
        of(a[3], b[3])?,
    ])
}
