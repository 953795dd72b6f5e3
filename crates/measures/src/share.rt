// Shares, parts and excess, in parts of `WHOLE`. Nothing here passes 53 bits.
ghost use Rattle.std.specs.Prelude.{◌≡◌, ◌≤◌};
ghost use Rattle.std.specs.NonZero.{non_zero_u32_get};
ghost use Rattle.measures.specs.Shares.{share_of, equal_part, excess_of};

use std::num::NonZeroU32;

// The whole of a supply. (That no share or commitment is above it is said of four functions: as a type of its own such a
// number would be taken apart again wherever it is added, mixed or shown.)
pub const WHOLE: u32 = 1_048_576;

// The share of an amount in a capacity. More than the capacity counts as all of it, and no capacity has no shares.
pub fn share(amount: u64, capacity: u32) -> u32
    ensures amount_in_the_capacity_rounded_down { result ≡ share_of amount capacity }
    ensures at_most_the_whole { result ≤ 1048576 }
    ensures nothing_in_no_capacity { capacity ≡ 0 → result ≡ 0 }
{
    if capacity == 0 {
        return 0;
    }
    let held = amount.min(capacity as u64);
    (held * WHOLE as u64 / capacity as u64) as u32
}

// The part that is due to each seat, empty ones counted.
pub fn equal_part(seats: NonZeroU32) -> u32
    ensures whole_over_the_seats_rounded_down { result ≡ equal_part (non_zero_u32_get seats) }
{
    WHOLE / seats.get()
}

// What a share has beyond the part that is due.
pub fn excess(share: u32, part: u32) -> u32
    ensures share_less_part { result ≡ excess_of share part }
{
    share.saturating_sub(part)
}
