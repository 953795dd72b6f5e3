// What the desk prints of a house.
use crate::curve_page::add_curve;
use crate::outcome::HouseTold;
use crate::page::Page;
use crate::table_page::add_table;
use houses::command::{HouseCommand, HouseRefusal};
use houses::house::House;
use measures::share::{WHOLE, equal_part};
use site_scripts::told::Four;
use std::alloc::{AllocError, Global};
use std::num::NonZeroU32;

pub fn house_text(
    heap: Global,
    number: u64,
    told: HouseTold,
    house: Option<&House>,
) -> Result<String, AllocError> {
    let mut page = Page::new(heap, number);
    match (told.reply, house) {
        (Ok(_), Some(house)) => add_answer(&mut page, told.command, house)?,
        (Ok(_), None) => page.line(HouseRefusal::NoHouse)?,
        (Err(refusal), _) => page.line(refusal)?,
    }
    Ok(page.into_text())
}

fn add_answer(page: &mut Page, command: HouseCommand, house: &House) -> Result<(), AllocError> {
    match command {
        HouseCommand::Follow(measure, seats) => {
            // There is a house only of one or more.
            let part = NonZeroU32::new(seats).map_or(0, equal_part);
            page.line(format_args!(
                "{measure} house, one of {seats}; its part is {part} of {WHOLE}"
            ))
        }
        HouseCommand::Hold(tick, amounts) => {
            let held = Four(amounts.each);
            page.line(format_args!("from tick {tick} on it holds {held}"))
        }
        HouseCommand::Show(ticks) => add_table(page, ticks, house),
        HouseCommand::Curve(span) => add_curve(page, span, house),
    }
}
