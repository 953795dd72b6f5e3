// A page of the desk: lines, each with the number of the script's line before it.
ghost use Rattle.std.specs.Prelude.{◌≡◌, [], OnOk, IfSome};
ghost use Rattle.std.specs.String.{string_bytes};
ghost use Rattle.house_desk.specs.Pages.{with_line};

use std::alloc::{AllocError, Global};
use std::fmt;
use std::fmt::Write;

#[derive(Drop)]
pub struct Page {
    pub heap: Global,
    number: u64,
    text: String,
}

impl Page {
    pub fn new(heap: Global, number: u64) -> Page
        ensures starts_without_a_line { string_bytes result.text ≡ [] }
        ensures puts_this_number_before_each_line { result.number ≡ number }
    {
        Page {
            heap,
            number,
            text: String::new(heap),
        }
    }

    // One line more.
    pub fn line<D: fmt::Display + Drop>(&mut self, line: D) -> Result<(), AllocError>
        ensures keeps_its_number { self.new.number ≡ self.old.number }
        ensures adds_the_line_after_its_number { OnOk result (IfSome (D.output line) (λ words. string_bytes self.new.text ≡ with_line self.old.number words (string_bytes self.old.text))) }
    {
        let number = self.number;
        let between = if self.text.is_empty() { "" } else { "\n" };
        write!(self.text, "{between}{number}: {line}")
    }

    pub fn into_text(self) -> String
        ensures hands_over_its_text { result ≡ self.text }
    {
        self.text
    }
}
