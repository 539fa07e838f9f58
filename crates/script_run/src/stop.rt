//! Why a run stops.

ghost use Rattle.std.specs.Prelude.{◌≡◌, ◌↔◌, Err, true};
ghost use Rattle.script_run.specs.PlayedParts.{stop_of, stop_of_halt};

use listeners::DispatchFault;

/// What may be wanting where a call is made or a line is put.
#[derive(Clone, Copy, Debug, PartialEq, Eq)]
pub enum Halt {
    /// There was no memory.
    Memory,
    /// The sink failed to take bytes.
    Write,
}

/// Why a run stops before the end of its script.
#[derive(Clone, Copy, Debug, PartialEq, Eq)]
pub enum Stop {
    /// There was no memory.
    Memory,
    /// The sink failed to take bytes.
    Write,
    /// The listener of this number answered an event with more than 1000 calls.
    CallBudget(u32),
    /// Listeners answered more calls than they may make in one line.
    TaskBudget,
}

impl Stop {
    /// The stop that the want of memory or of the sink is.
    pub(crate) fn of_halt(halt: Halt) -> Stop
        ensures { result ≡ stop_of_halt halt }
    {
        match halt {
            Halt::Memory => Stop::Memory,
            Halt::Write => Stop::Write,
        }
    }

    /// The stop that a fault of a dispatch is.
    pub(crate) fn of(fault: DispatchFault) -> Stop
        ensures { result ≡ stop_of fault }
    {
        match fault {
            DispatchFault::OutOfMemory => Stop::Memory,
            DispatchFault::CallBudget(number) => Stop::CallBudget(number),
            DispatchFault::TaskBudget => Stop::TaskBudget,
        }
    }
}

/// Whether memory was wanting in a dispatch.
pub(crate) fn is_out_of_memory(outcome: Result<(), DispatchFault>) -> bool
    ensures { (result ≡ true) ↔ (outcome ≡ Err DispatchFault.OutOfMemory) }
{
    match outcome {
        Err(DispatchFault::OutOfMemory) => true,
        Ok(()) | Err(DispatchFault::CallBudget(_)) | Err(DispatchFault::TaskBudget) => false,
    }
}
