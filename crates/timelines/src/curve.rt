// The level over a span of ticks, in columns.
ghost use Rattle.std.specs.Prelude.{ℕ, ◌≤◌, IfOk};
ghost use Rattle.std.specs.List.{All};
ghost use Rattle.measures.specs.Clock.{on_clock};
ghost use Rattle.timelines.specs.Courses.{account_at};
ghost use Rattle.timelines.specs.Views.{Covered, IsTight};

use crate::span::Span;
use crate::stretch::Column;
use crate::timeline::Timeline;
use measures::clock::on_clock;
use measures::dated_measure::DatedMeasure;
use std::alloc::{AllocError, Global};

// The most columns of a curve.
pub const COLUMNS: usize = 64;

impl Span {
    // How many ticks a column has, so that the span takes no more than `COLUMNS`.
    fn column_width(self) -> u64
        ensures has_a_tick_at_least { 1 ≤ result }
    {
        self.last.saturating_sub(self.first) / COLUMNS as u64 + 1
    }
}

impl<M: DatedMeasure> Timeline<M> {
    // At most `COLUMNS` columns, which together have every tick of the clock from the first to the last.
    pub fn curve(&self, heap: Global, span: Span) -> Result<Vec<Column>, AllocError>
        ensures columns_hide_no_level { IfOk result (λ v. ((k : ℕ) → span.first ≤ k → k ≤ on_clock span.last → Covered (λ t. M.Measure.level self.now.measure (account_at self.now.stretches.items t) t) v.items k)) }
        ensures columns_are_no_wider_than_the_measure_tells { IfOk result (λ v. All (IsTight (M.DatedMeasure.lowest self.now.measure) (M.DatedMeasure.highest self.now.measure) (account_at self.now.stretches.items) span.first (on_clock span.last)) v.items) }
    {
        let span = Span {
            first: span.first,
            last: on_clock(span.last),
        };
        let width = span.column_width();
        // (A `for` that pushes: the promise is an invariant over the columns so far, which no chain has a place for.)
        let mut columns = Vec::new(heap);
        for begin in (span.first..=span.last).step_by(width as usize) {
            let ticks = Span {
                first: begin,
                last: begin.saturating_add(width - 1).min(span.last),
            };
            let range = self.level_range(ticks);
            columns.push(Column { span: ticks, range })?;
        }
        Ok(columns)
    }
}
