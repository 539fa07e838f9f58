//! The line of the fault of a classic file.

ghost use Rattle.std.specs.Prelude.{◌≡◌, IfOk, string_bytes};
ghost use Rattle.mse_commands.specs.Remuxing.{moov_text, remux_fault_line, remux_name, remux_number};

use buffer_state::{init_missing, init_number};
use event_text::init_fault;
use mse_base::OutOfMemory;
use remux::RemuxFault;
use std::alloc::Global;

/// What is wrong with a classic file, by number.
fn remux_number(fault: RemuxFault) -> u8
    ensures { result ≡ remux_number fault }
{
    match fault {
        RemuxFault::Box => 21,
        RemuxFault::NoMoov => 22,
        RemuxFault::Fragmented => 23,
        RemuxFault::Moov(_) => 24,
        RemuxFault::Tables => 25,
        RemuxFault::Place => 26,
        RemuxFault::Range => 27,
        RemuxFault::TooMany => 28,
        RemuxFault::NoTracks => 29,
    }
}

/// Its name.
fn remux_name(fault: RemuxFault) -> &'static str
    ensures { result.now ≡ remux_name fault }
{
    match fault {
        RemuxFault::Box => "Box",
        RemuxFault::NoMoov => "NoMoov",
        RemuxFault::Fragmented => "Fragmented",
        RemuxFault::Moov(_) => "Moov",
        RemuxFault::Tables => "Tables",
        RemuxFault::Place => "Place",
        RemuxFault::Range => "Range",
        RemuxFault::TooMany => "TooMany",
        RemuxFault::NoTracks => "NoTracks",
    }
}

/// After a space, what is wrong in the movie box; nothing for another fault.
fn moov_text(alloc: Global, fault: RemuxFault) -> Result<String, OutOfMemory>
    ensures { IfOk result (λ text. string_bytes text ≡ moov_text fault) }
{
    let RemuxFault::Moov(inner) = fault else {
        return Ok(String::new(alloc));
    };
    let inner = init_fault(alloc, init_number(inner), &init_missing(inner))?;
    let inner = inner.as_str();
    let text = format!(in alloc; " {inner}")?;
    Ok(text)
}

/// The line of a fault at an offset of the file, in bytes, with its line feed.
pub fn remux_fault_line(
    alloc: Global,
    fault: RemuxFault,
    offset: u64,
) -> Result<String, OutOfMemory>
    ensures { IfOk result (λ line. string_bytes line ≡ remux_fault_line fault offset) }
{
    let number = remux_number(fault);
    let name = remux_name(fault);
    let inner = moov_text(alloc, fault)?;
    let line = format!(in alloc; "fault {number} {name}{inner} at {offset}\n")?;
    Ok(line)
}
