// What every pool means and promises.
ghost use Rattle.std.specs.Prelude.{◌≡◌, true, false, is_ok, if◌then◌else◌};
ghost use Rattle.pools.specs.declared.fault.PoolFault.TheVariants.{MoreThanUsed, InUse, DoesNotFit};
ghost use Rattle.pools.specs.Totals.{Total, total, nothing, max_amounts, plus, minus, is_within, Within};
ghost use Rattle.pools.specs.Terms.{Terms, admits, judged};

use crate::amounts::Amounts;
use crate::fault::PoolFault;

// A pool has terms, which never change: a capacity for each supply and the permitted totals. And it has a used total.
pub trait Pool {
    ghost terms: { Self → Terms };

    ghost used: { Self → Total };

    fn capacity(&self) -> Amounts
        ensures capacity_of_terms { total result ≡ (terms self.now).capacity };

    fn used(&self) -> Amounts
        ensures used_total { total result ≡ used self.now };

    // Whether the used total plus the demand is permitted.
    fn fits(&self, demand: Amounts) -> bool
        ensures used_plus_demand_is_permitted { result ≡ admits (terms self.now) (used self.now) (total demand) };

    // Adds the demand to what is in use, where it fits.
    fn take(&mut self, demand: Amounts) -> Result<(), PoolFault>
        ensures taken_exactly_when_it_fits { result ≡ judged (admits (terms self.old) (used self.old) (total demand)) DoesNotFit }
        ensures adds_the_demand { used self.new ≡ (if is_ok result then plus (used self.old) (total demand) else used self.old) }
        ensures keeps_its_terms { terms self.new ≡ terms self.old }
        ensures use_stays_permitted { (terms self.old).permitted (used self.old) ≡ true → (terms self.new).permitted (used self.new) ≡ true }
        ensures refusal_changes_nothing { is_ok result ≡ false → self.new ≡ self.old };

    // Subtracts the demand from what is in use, where that much is.
    fn give_back(&mut self, demand: Amounts) -> Result<(), PoolFault>
        ensures given_exactly_when_used { result ≡ judged (is_within (total demand) (used self.old)) MoreThanUsed }
        ensures subtracts_the_demand { used self.new ≡ (if is_ok result then minus (used self.old) (total demand) else used self.old) }
        ensures never_adds { Within (used self.new) (used self.old) }
        ensures keeps_its_terms { terms self.new ≡ terms self.old }
        ensures refusal_changes_nothing { is_ok result ≡ false → self.new ≡ self.old };

    // Refuses a pool with amounts in use. Whatever is laid over a new pool, a layer or the books, asks this.
    fn check_unused(&self) -> Result<(), PoolFault>
        ensures refused_exactly_when_in_use { result ≡ judged (is_within (used self.now) nothing) InUse }
    {
        if self.used().is_zero() {
            Ok(())
        } else {
            Err(PoolFault::InUse)
        }
    }

    ghost zero_is_permitted: { (p : Self) → (terms p).permitted nothing ≡ true };

    ghost smaller_is_permitted: { (p : Self) (t u : Total) → Within t u → (terms p).permitted u ≡ true → (terms p).permitted t ≡ true };

    ghost permitted_is_within_capacity: { (p : Self) (t : Total) → (terms p).permitted t ≡ true → Within t (terms p).capacity };

    ghost permitted_has_32_bits: { (p : Self) (t : Total) → (terms p).permitted t ≡ true → Within t max_amounts };
}
