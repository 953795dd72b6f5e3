// The desk: reads a script of commands from standard input and prints what each did.
#![tactic(auto)]

pub mod carry_out;
mod curve_page;
mod house_page;
pub mod outcome;
mod page;
pub mod print;
mod table_page;

use crate::carry_out::HouseDesk;
use crate::print::text_of;
use commands::session::Session;
use houses::watch::Watch;
use scripts::script::read;
use site_scripts::program::{Desk, Said, Site, run};
use std::alloc::{AllocError, Global};

impl Desk for HouseDesk<Site> {
    fn hear(&mut self, heap: Global, number: u64, line: &[u8]) -> Result<Said, AllocError> {
        let outcome = self.carry(heap, read(heap, line)?);
        text_of(heap, number, outcome, self.watch.house())
    }
}

fn main(rt: HostRuntime) -> anyhow::Result<()> {
    run(
        &rt,
        HouseDesk {
            session: Session::new(),
            watch: Watch::new(),
        },
    )
}
