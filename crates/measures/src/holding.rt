// What the running tasks of a house take together.
ghost use Rattle.std.specs.Prelude.{◌≡◌, length};

use pools::amounts::SUPPLIES;

mod sums;

// (The array's type says `one_for_each_supply` too; it stays, since a definition makes values of this type.)
// Amounts of 64 bits: 256 tasks of the largest capacity, 16,777,216, take one more than 32 bits hold.
#[derive(Clone, Copy, PartialEq, Eq, Debug)]
pub struct Holding {
    pub each: [u64; SUPPLIES],
    ghost one_for_each_supply: { length each ≡ 4 },
}
