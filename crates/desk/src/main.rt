// The desk: reads a script of commands from standard input and prints what each did.
#![tactic(auto)]

pub mod carry_out;
pub mod print;
pub mod script;
#[cfg(test)]
mod tests;

use crate::carry_out::carry;
use crate::print::text_of;
use crate::script::read;
use commands::session::Session;
use site_scripts::program::{Desk, Said, Site, run};
use std::alloc::{AllocError, Global};

#[derive(Drop)]
struct SiteDesk {
    session: Session<Site>,
}

impl Desk for SiteDesk {
    fn hear(&mut self, heap: Global, number: u64, line: &[u8]) -> Result<Said, AllocError> {
        text_of(heap, number, carry(&mut self.session, read(heap, line)?))
    }
}

fn main(rt: HostRuntime) -> anyhow::Result<()> {
    run(
        &rt,
        SiteDesk {
            session: Session::new(),
        },
    )
}
