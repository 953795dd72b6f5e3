// The level of a house, drawn: time goes to the right, and the level up.
use crate::page::Page;
use houses::house::House;
use std::alloc::AllocError;
use timelines::span::Span;
use timelines::stretch::{Column, LevelRange};

// How many lines high a curve is.
const HEIGHT: u32 = 16;

// The lowest line is line 0.
const TOP_LINE: u32 = HEIGHT - 1;

// What is drawn, and the highest level of it, which has the top line.
#[derive(Drop)]
struct Drawing<'a> {
    columns: &'a [Column],
    top: u32,
}

// Each column has a mark in every line between the lowest and the highest level at its ticks.
pub fn add_curve(page: &mut Page, span: Span, house: &House) -> Result<(), AllocError> {
    let columns = house.curve(page.heap, span)?;
    let measure = house.kind();
    let Span { first, last } = span;
    page.line(format_args!("level of the {measure} house from tick {first} to {last}"))?;
    let highest = columns.iter().map(|column| column.range.highest).max();
    let drawing = Drawing {
        columns: columns.as_slice(),
        top: highest.unwrap_or(0),
    };
    for line in (0..HEIGHT).rev() {
        drawing.add_line(page, line)?;
    }
    drawing.add_axis(page)
}

impl Drawing<'_> {
    // The line in which a level is drawn.
    fn line_of(&self, level: u32) -> u32 {
        (level as u64 * HEIGHT as u64 / (self.top as u64 + 1)).min(TOP_LINE as u64) as u32
    }

    fn mark(&self, range: LevelRange, line: u32) -> char {
        if (self.line_of(range.lowest)..=self.line_of(range.highest)).contains(&line) {
            '#'
        } else {
            ' '
        }
    }

    // No spaces stand at the end of a line.
    fn add_line(&self, page: &mut Page, line: u32) -> Result<(), AllocError> {
        let marks: String = self
            .columns
            .iter()
            .map(|column| self.mark(column.range, line))
            .collect(page.heap)?;
        let marks = marks.trim_end();
        match line {
            TOP_LINE => page.line(format_args!("{:>10} |{marks}", self.top)),
            0 => page.line(format_args!("{:>10} |{marks}", 0)),
            _ => page.line(format_args!("{:>10} |{marks}", "")),
        }
    }

    // The axis, and below it the first and the last tick.
    fn add_axis(&self, page: &mut Page) -> Result<(), AllocError> {
        let width = self.columns.len();
        page.line(format_args!("{:>10} +{:-<width$}", "", ""))?;
        let [first, .., last] = self.columns else {
            return Ok(());
        };
        let from = first.span.first;
        let to = last.span.last;
        let from = format!(in page.heap; "{from}")?;
        let to = format!(in page.heap; "{to}")?;
        let gap = width
            .saturating_sub(from.len())
            .saturating_sub(to.len())
            .max(1);
        page.line(format_args!("{:>12}{from}{:gap$}{to}", "", ""))
    }
}
