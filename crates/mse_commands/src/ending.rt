//! How a run ends.

ghost use Rattle.std.specs.Prelude.{◌≡◌};
ghost use Rattle.mse_commands.specs.Endings.{end_of_halt, end_of_stop, status_of, status_number};

use call_script::ScriptFault;
use mse_base::Text;
use script_run::{Halt, Stop};

/// How a run ended.
#[derive(Clone, Copy, Debug, PartialEq, Eq)]
pub enum Status {
    /// All was worked through and put.
    Ok,
    /// The words are no command.
    Words,
    /// The script has a fault.
    Script,
    /// The library failed to read a file.
    Read,
    /// The sink failed to take bytes.
    Write,
    /// There was no memory.
    Memory,
    /// A listener made too many calls for one event.
    CallBudget,
    /// Listeners made too many calls in one line.
    TaskBudget,
    /// A file is not there.
    NoFile,
    /// The file breaks the byte stream format. All was put, and the fault is told in its last line.
    Media,
}

impl Status {
    /// The exit code of the program.
    pub fn number(self) -> u8
        ensures { result ≡ status_number self }
    {
        match self {
            Status::Ok => 0,
            Status::Words => 1,
            Status::Script => 2,
            Status::Read => 3,
            Status::Write => 4,
            Status::Memory => 5,
            Status::CallBudget => 6,
            Status::TaskBudget => 7,
            Status::NoFile => 8,
            Status::Media => 9,
        }
    }
}

/// Why a run ends early, with what is shown of that.
#[derive(Debug, Drop)]
pub enum End {
    /// There was no memory.
    Memory,
    /// The sink failed to take bytes.
    Write,
    /// The words are no command.
    Words,
    /// The file of this name is not there.
    NoFile(Text),
    /// The library failed to read the file of this name.
    Read(Text),
    /// The script has this fault.
    Script(ScriptFault),
    /// The listener of this number answered an event with more than 1000 calls.
    CallBudget(u32),
    /// Listeners answered more than so many calls in one line.
    TaskBudget(u64),
}

impl End {
    /// The end that the want of memory or of the sink is.
    pub fn of_halt(halt: Halt) -> End
        ensures { result ≡ end_of_halt halt }
    {
        match halt {
            Halt::Memory => End::Memory,
            Halt::Write => End::Write,
        }
    }

    /// The end that a stop is, where listeners may make `limit` calls in one line.
    pub fn of_stop(stop: Stop, limit: u64) -> End
        ensures { result ≡ end_of_stop limit stop }
    {
        match stop {
            Stop::Memory => End::Memory,
            Stop::Write => End::Write,
            Stop::CallBudget(number) => End::CallBudget(number),
            Stop::TaskBudget => End::TaskBudget(limit),
        }
    }

    /// The status of this end.
    pub fn status(&self) -> Status
        ensures { result ≡ status_of self.now }
    {
        match self {
            End::Memory => Status::Memory,
            End::Write => Status::Write,
            End::Words => Status::Words,
            End::NoFile(_) => Status::NoFile,
            End::Read(_) => Status::Read,
            End::Script(_) => Status::Script,
            End::CallBudget(_) => Status::CallBudget,
            End::TaskBudget(_) => Status::TaskBudget,
        }
    }
}
