// The house that is followed, if any, and what each command does to it.
ghost use Rattle.std.specs.Prelude.{◌≡◌, true, None};
ghost use Rattle.std.specs.Option.{option_map};
ghost use Rattle.houses.specs.Watches.{watched, Replies, After, leaves_house};

use crate::command::{HouseAnswer, HouseCommand, HouseRefusal, HouseReply};
use crate::house::House;
use measures::holding::Holding;
use pools::amounts::Amounts;
use std::alloc::Global;
use std::num::NonZeroU32;

#[derive(Drop)]
pub struct Watch {
    house: Option<House>,
}

impl Watch {
    pub fn new() -> Watch
        ensures starts_without_a_house { watched result ≡ None }
    {
        Watch { house: None }
    }

    // The house that is followed.
    pub fn house(&self) -> Option<&House>
        ensures lends_the_house { option_map (λ x. x.now) result ≡ self.now.house }
    {
        self.house.as_ref()
    }

    // Lets the house go, as when its site is let go.
    pub fn let_go(&mut self)
        ensures follows_no_house { watched self.new ≡ None }
    {
        self.house = None;
    }

    // Obeys a command, at a site with these capacities, if there is one.
    pub fn obey(
        &mut self,
        heap: Global,
        capacity: Option<Amounts>,
        command: HouseCommand,
    ) -> HouseReply
        ensures replies_by_the_rules { Replies capacity (watched self.old) command result }
        ensures moves_by_the_rules { After capacity (watched self.old) command result (watched self.new) }
        ensures question_or_refusal_changes_nothing { leaves_house result ≡ true → watched self.new ≡ watched self.old }
    {
        match command {
            HouseCommand::Follow(kind, seats) => {
                let capacity = capacity.ok_or(HouseRefusal::NoSite)?;
                let seats = NonZeroU32::new(seats).ok_or(HouseRefusal::NoSeats)?;
                self.house = Some(House::new(heap, kind, capacity, seats));
                Ok(HouseAnswer::Followed)
            }
            HouseCommand::Hold(tick, amounts) => {
                let house = self.house.as_mut().ok_or(HouseRefusal::NoHouse)?;
                house.hold(tick, Holding::from(amounts))?;
                Ok(HouseAnswer::Held)
            }
            HouseCommand::Show(_) | HouseCommand::Curve(_) => {
                self.house().ok_or(HouseRefusal::NoHouse)?;
                Ok(HouseAnswer::Shown)
            }
        }
    }
}
