// Measures: what a house holds and has held of a site, in whole numbers, and the level at which it stands.
#![tactic(auto)]

ghost use Rattle.std.specs.Prelude.{◌≡◌, ℕ};
ghost use Rattle.measures.specs.Greatest.{greatest};

pub mod account;
pub mod clock;
pub mod commitment;
pub mod dated_measure;
pub mod decay;
pub mod holding;
pub mod measure;
pub mod past_record;
pub mod plain;
pub mod share;
pub mod site;
pub mod stateful;

use crate::site::Site;

// The greatest of what is given of the supplies that a site uses. Every level is one of these. (Tried as `map` and
// `max` of the range: the proof did not close.)
fn greatest<F: Fn(usize) -> u32>(site: &Site, of: F) -> u32
    requires asked_of_any_supply { F.IsAlwaysCallable of }
    ensures greatest_of_the_supplies_in_use { (g : ℕ → ℕ) → ((s y : ℕ) → F.post of s y → y ≡ g s) → result ≡ greatest site.now.supplies g }
{
    let mut greatest = 0;
    for supply in 0..site.supplies() {
        greatest = of(supply).max(greatest);
    }
    greatest
}
