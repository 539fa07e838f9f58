//! Lines for the sink.

ghost use Rattle.std.specs.Prelude.{◌≡◌, ◌≤◌, ◌<◌, [], ◌∷◌, length, drop, option_to_list, IfOk, OnOk, OnErr, IsErrOf};
ghost use Rattle.event_text.specs.Lines.{line_text};
ghost use Rattle.run_journal.specs.EntryRef.{entry_of};
ghost use Rattle.script_run.specs.Keeps.{AreFailuresTold};
ghost use Rattle.script_run.specs.Text.{lines_in, lines_of, lines_of_entry};
ghost use Rattle.script_run.specs.Writes.{IsWritten, IsFrontWritten, IsShortOf, halt_of};

use crate::stop::Halt;
use event_text::{event_line, listener_line, script_line};
use mse_base::{OutOfMemory, Text};
use mse_calls::{Answer, Call};
use mse_outside::{Put, Sink};
use run_journal::{EntryRef, Journal};
use std::alloc::Global;

/// What a run makes of the answer to a put.
fn halt_of(answer: Put) -> Result<(), Halt>
    ensures { result ≡ halt_of answer }
{
    match answer {
        Put::Done => Ok(()),
        Put::Failed => Err(Halt::Write),
        Put::OutOfMemory => Err(Halt::Memory),
    }
}

/// Puts bytes, with one put. After an `Err` a front part of them was written: `Write` where the sink
/// counted a failure, and `Memory` where it found no memory: then not all bytes were written, unless
/// there were none.
pub fn put_bytes<K: Sink>(sink: &mut K, bytes: &[u8]) -> Result<(), Halt>
    ensures ok { OnOk result (IsWritten (bytes.now ∷ []) (K.written sink.old)
        (K.written sink.new)) }
    ensures err { OnErr result (IsFrontWritten (bytes.now ∷ []) (K.written sink.old)
        (K.written sink.new)) }
    ensures short { IsErrOf result Halt.Memory → 0 < length bytes.now
        → IsShortOf (bytes.now ∷ []) (K.written sink.old) (K.written sink.new) }
    ensures puts { AreFailuresTold Halt.Write (K.faults sink.old) (K.faults sink.new) result }
{
    halt_of(sink.put(bytes))
}

/// Puts a text line by line: each put is one whole line with its line feed. An `Err` is as of
/// [`put_bytes`].
pub fn put_lines<K: Sink>(sink: &mut K, text: &str) -> Result<(), Halt>
    ensures ok { OnOk result (IsWritten (lines_in text.now) (K.written sink.old)
        (K.written sink.new)) }
    ensures err { OnErr result (IsFrontWritten (lines_in text.now) (K.written sink.old)
        (K.written sink.new)) }
    ensures puts { AreFailuresTold Halt.Write (K.faults sink.old) (K.faults sink.new) result }
{
    for line in text.split_inclusive('\n') {
        put_bytes(sink, line.as_bytes())?;
    }
    Ok(())
}

/// The line of an entry; `None` for an entry that prints nothing.
fn entry_line(alloc: Global, entry: &EntryRef<'_>) -> Result<Option<Text>, OutOfMemory>
    ensures ok { IfOk result (λ line. lines_of_entry (entry_of entry.now) ≡ option_to_list line) }
    ensures err { OnErr result (0 < length (line_text (entry_of entry.now))) }
{
    let line = match *entry {
        EntryRef::Script(call, answer) => script_line(alloc, call, answer)?,
        EntryRef::Append(k, piece) => {
            script_line(alloc, &Call::AppendBuffer(k, piece), &Answer::Done)?
        }
        EntryRef::Listener(number, call, answer) => listener_line(alloc, number, call, answer)?,
        EntryRef::Fired(event) => event_line(alloc, &event)?,
        EntryRef::Step(_) | EntryRef::Work(_) | EntryRef::Element => return Ok(None),
    };
    Ok(Some(line))
}

/// Puts the line of an entry.
fn put_entry<K: Sink>(alloc: Global, sink: &mut K, entry: &EntryRef<'_>) -> Result<(), Halt>
    ensures ok { OnOk result (IsWritten (lines_of_entry (entry_of entry.now)) (K.written sink.old)
        (K.written sink.new)) }
    ensures err { OnErr result (IsFrontWritten (lines_of_entry (entry_of entry.now))
        (K.written sink.old) (K.written sink.new)) }
    ensures short { IsErrOf result Halt.Memory → IsShortOf (lines_of_entry (entry_of entry.now))
        (K.written sink.old) (K.written sink.new) }
    ensures puts { AreFailuresTold Halt.Write (K.faults sink.old) (K.faults sink.new) result }
{
    match entry_line(alloc, entry) {
        Ok(Some(line)) => put_bytes(sink, line.as_str().as_bytes()),
        Ok(None) => Ok(()),
        Err(_) => Err(Halt::Memory),
    }
}

/// Puts the lines of the entries from a place on. After `Memory` not all of them were written.
pub(crate) fn put_entries<K: Sink>(
    alloc: Global,
    sink: &mut K,
    journal: &Journal,
    from: usize,
) -> Result<(), Halt>
    requires { from ≤ length journal.now.entries }
    ensures ok { OnOk result (IsWritten (lines_of (drop from journal.now.entries))
        (K.written sink.old) (K.written sink.new)) }
    ensures err { OnErr result (IsFrontWritten (lines_of (drop from journal.now.entries))
        (K.written sink.old) (K.written sink.new)) }
    ensures short { IsErrOf result Halt.Memory
        → IsShortOf (lines_of (drop from journal.now.entries))
        (K.written sink.old) (K.written sink.new) }
    ensures puts { AreFailuresTold Halt.Write (K.faults sink.old) (K.faults sink.new) result }
{
    for i in from..journal.len() {
        let Some(entry) = journal.get(i) else {
            unreachable!()
        };
        put_entry(alloc, sink, &entry)?;
    }
    Ok(())
}
