// A program that reads a script from standard input, and prints what is said of each line.
ghost use Rattle.std.specs.Prelude.{◌≡◌, None, Ok, IfOk, IfErr};

use commands::slot::Slot;
use pools::bench::Bench;
use std::alloc::{AllocError, Global};
use std::io::{BufRead, BufReader};

// What both desks lay out: a bench with up to four layers.
pub type Site = Slot<Slot<Slot<Slot<Bench>>>>;

// What is printed of a line, nothing for a blank one; an error for a line that is not understood.
pub type Said = Result<Option<String>, String>;

// Who hears a script.
pub trait Desk {
    // Carries out the line with this number, and tells of it. (The allocator and the number go on to what prints; only a
    // desk of pages makes them one.)
    fn hear(&mut self, heap: Global, number: u64, line: &[u8]) -> Result<Said, AllocError>
        ensures line_not_understood_changes_nothing { IfOk result (λ said. IfErr said (λ text. self.new ≡ self.old)) }
        ensures blank_line_changes_nothing { IfOk result (λ said. said ≡ Ok None → self.new ≡ self.old) };
}

pub fn run<D: Desk + Drop>(rt: &HostRuntime, mut desk: D) -> anyhow::Result<()> {
    // Counted as lines are heard, since each is printed at once.
    let mut mistakes = 0u64;
    let lines = BufReader::new(rt.alloc(), rt.stdin())?.split(rt.alloc(), b'\n');
    for (i, line) in lines.enumerate() {
        let said = desk
            .hear(rt.alloc(), i as u64 + 1, line?.as_slice())?
            .unwrap_or_else(|mistake| {
                mistakes = mistakes.saturating_add(1);
                Some(mistake)
            });
        if let Some(text) = said {
            rt.println(text)?;
        }
    }
    if mistakes > 0 {
        eprintln!(rt; "desk: lines not understood: {mistakes}")?;
    }
    Ok(())
}
