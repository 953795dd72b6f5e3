// Commands about a house. (Each function promises of its own result that its words say it: no type holds that.)
ghost use Rattle.std.specs.Prelude.{◌≡◌, ℕ, ◌≤◌, List, IfOk, codes};
ghost use Rattle.std.specs.Borrow.{Bor};
ghost use Rattle.site_scripts.specs.Numbers.{decimal_value};
ghost use Rattle.houses.specs.Kinds.{kind_word};
ghost use Rattle.scripts.specs.Words.{SaysHouse, name_of_house};

use crate::mistake::Mistake;
use houses::command::{HouseCommand, Ticks};
use houses::kind::Kind;
use site_scripts::numbers::{amounts, number, small_number};
use timelines::span::Span;

// The most ticks that are shown at once.
pub const MOST_ROWS: u64 = 1_000;

// The measure and the number of seats.
pub fn follow<'a>(words: &[&'a str]) -> Result<HouseCommand, Mistake<'a>>
    ensures command_is_what_the_words_say { IfOk result (λ c. (name_of_house c ≡ codes "house") × ((d : Bor (List ℕ)) → SaysHouse d words.now c)) }
{
    match words {
        [measure, seats] => Ok(HouseCommand::Follow(kind(measure)?, small_number(seats)?)),
        _ => Err(Mistake::NoMeasureAndSeats),
    }
}

fn kind<'a>(word: &'a str) -> Result<Kind, Mistake<'a>>
    ensures measure_that_the_word_names { IfOk result (λ k. word.now ≡ kind_word k) }
{
    word.parse().map_err(|_| Mistake::UnknownMeasure(word))
}

// The tick, the word `hold` and what is held from then on.
pub fn change<'a>(words: &[&'a str]) -> Result<HouseCommand, Mistake<'a>>
    ensures command_is_what_the_words_say { IfOk result (λ c. (name_of_house c ≡ codes "at") × ((d : Bor (List ℕ)) → SaysHouse d words.now c)) }
{
    match words {
        [tick, "hold", held @ ..] => Ok(HouseCommand::Hold(number(tick)?, amounts(held)?)),
        _ => Err(Mistake::NoTickAndHold),
    }
}

// One tick, or the first and the last with a step between.
pub fn show<'a>(words: &[&'a str]) -> Result<HouseCommand, Mistake<'a>>
    ensures command_is_what_the_words_say { IfOk result (λ c. (name_of_house c ≡ codes "show") × ((d : Bor (List ℕ)) → SaysHouse d words.now c)) }
{
    match words {
        [word] => {
            let tick = number(word)?;
            Ok(HouseCommand::Show(Ticks {
                span: Span {
                    first: tick,
                    last: tick,
                },
                step: 1,
            }))
        }
        [first, "to", last, "by", step] => {
            let span = span(first, last)?;
            let step = number(step)?;
            if step == 0 {
                return Err(Mistake::NoStep);
            }
            if (span.last - span.first) / step >= MOST_ROWS {
                return Err(Mistake::TooManyRows);
            }
            Ok(HouseCommand::Show(Ticks { span, step }))
        }
        _ => Err(Mistake::NoTicks),
    }
}

// The first tick and the last.
pub fn curve<'a>(words: &[&'a str]) -> Result<HouseCommand, Mistake<'a>>
    ensures command_is_what_the_words_say { IfOk result (λ c. (name_of_house c ≡ codes "curve") × ((d : Bor (List ℕ)) → SaysHouse d words.now c)) }
{
    match words {
        [first, "to", last] => Ok(HouseCommand::Curve(span(first, last)?)),
        _ => Err(Mistake::NoSpan),
    }
}

fn span<'a>(first: &'a str, last: &'a str) -> Result<Span, Mistake<'a>>
    ensures has_the_values_of_their_digits { IfOk result (λ s. (s.first ≡ decimal_value first.now) × (s.last ≡ decimal_value last.now)) }
    ensures not_backward { IfOk result (λ s. s.first ≤ s.last) }
{
    let first = number(first)?;
    let last = number(last)?;
    if last < first {
        return Err(Mistake::Backward);
    }
    Ok(Span { first, last })
}
