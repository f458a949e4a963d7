ghost use Rattle.std.specs.Prelude.{◌≡◌};
ghost use Rattle.pim_debug.specs.Commands.{command_alone, command_of, command_with};

use pim_io::{Words, number};

/// What a line asks for.
#[derive(Clone, Copy, Debug, PartialEq, Eq)]
pub enum Command {
    /// Nothing: the line has no word.
    Nothing,

    /// So many instructions forward.
    Step(u32),

    /// So many instructions back, or to the start where there are fewer.
    Back(u32),

    /// To this position.
    Goto(u32),

    /// To the next position that has a breakpoint, or to the end.
    Run,

    /// A breakpoint is set at this position.
    Break(u32),

    /// The breakpoint of this number is taken away.
    Delete(u32),

    /// The bit of this cell is told.
    Cell(u32),

    /// The bits of the outputs are told.
    Show,

    /// The session ends.
    Quit,
}

impl Command {
    /// The command of a line, if it is one. Linear in the line.
    pub(crate) fn of(line: &[u8]) -> Option<Command>
        ensures { result ≡ command_of line.now }
    {
        let mut words = Words::new(line);
        let Some(name) = words.word() else {
            return Some(Command::Nothing);
        };
        let Some(value) = words.word() else {
            return Command::alone(name);
        };
        if words.word().is_some() {
            return None;
        }
        Command::with(name, number(value)?)
    }

    /// The command of a word that stands alone.
    #[tactic(auto, unfolding(crate::specs::Commands::command_alone))]
    fn alone(name: &[u8]) -> Option<Command>
        ensures { result ≡ command_alone name.now }
    {
        if name == b"step".as_slice() {
            Some(Command::Step(1))
        } else if name == b"back".as_slice() {
            Some(Command::Back(1))
        } else if name == b"run".as_slice() {
            Some(Command::Run)
        } else if name == b"show".as_slice() {
            Some(Command::Show)
        } else if name == b"quit".as_slice() {
            Some(Command::Quit)
        } else {
            None
        }
    }

    /// The command of a word with a number behind it.
    #[tactic(auto, unfolding(crate::specs::Commands::command_with))]
    fn with(name: &[u8], n: u32) -> Option<Command>
        ensures { result ≡ command_with name.now n }
    {
        if name == b"step".as_slice() {
            Some(Command::Step(n))
        } else if name == b"back".as_slice() {
            Some(Command::Back(n))
        } else if name == b"goto".as_slice() {
            Some(Command::Goto(n))
        } else if name == b"break".as_slice() {
            Some(Command::Break(n))
        } else if name == b"delete".as_slice() {
            Some(Command::Delete(n))
        } else if name == b"cell".as_slice() {
            Some(Command::Cell(n))
        } else {
            None
        }
    }
}
