// A house in figures: a line for each tick and supply.
use crate::page::Page;
use houses::command::Ticks;
use houses::house::House;
use std::alloc::AllocError;
use timelines::span::Span;
use timelines::stretch::SupplyView;

pub fn add_table(page: &mut Page, ticks: Ticks, house: &House) -> Result<(), AllocError> {
    page.line("      tick      level supply      share     excess commitment")?;
    let Span { first, last } = ticks.span;
    for tick in (first..=last).step_by(ticks.step.max(1) as usize) {
        add_tick(page, tick, house)?;
    }
    Ok(())
}

// Tick and level stand in the line of the first supply alone.
fn add_tick(page: &mut Page, tick: u64, house: &House) -> Result<(), AllocError> {
    let supplies = house.site().supplies();
    let snapshot = house.snapshot(tick);
    let level = snapshot.level;
    for (supply, view) in snapshot.supplies.iter().enumerate().take(supplies) {
        let SupplyView {
            share,
            excess,
            commitment,
        } = *view;
        let figures = format_args!("{supply:>6} {share:>10} {excess:>10} {commitment:>10}");
        if supply == 0 {
            page.line(format_args!("{tick:>10} {level:>10} {figures}"))?;
        } else {
            page.line(format_args!("{:>21} {figures}", ""))?;
        }
    }
    Ok(())
}
