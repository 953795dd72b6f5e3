// What a line asks for.
use commands::command::Command;
use houses::command::HouseCommand;

#[derive(Clone, Copy, PartialEq, Eq, Debug)]
pub enum Request {
    Site(Command),
    House(HouseCommand),
}
