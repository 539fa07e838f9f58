use mse_base::{Bytes, OwnedList, Text};
use mse_calls::{Call, Rule};

/// Where the bytes of a blob come from.
#[derive(Debug, Drop)]
pub enum BlobText {
    /// The file of this name, which is not empty.
    File(Text),
    /// These bytes.
    Hex(Bytes),
}

/// What a line of a script asks for.
#[derive(Debug, Drop)]
pub enum StepLine {
    /// A call.
    Call(Call),
    /// Takes one event off the queue and fires it; nothing where the queue is empty.
    Fire,
    /// One item of the work that runs on the buffer of this number; nothing where none runs.
    Work(u32),
    /// One turn of the element; nothing where none is due.
    Element,
    /// Fires, works and turns until there is nothing left to do.
    Drain,
}

/// A list of blobs.
pub type BlobTexts = OwnedList<BlobText>;

/// A list of steps.
pub type StepLines = OwnedList<StepLine>;

/// A list of rules of listeners.
pub type Rules = OwnedList<Rule>;

/// A script: the settings of an engine, the blobs that its appends take their bytes from, its steps,
/// and the rules of its listeners.
#[derive(Debug, Drop)]
pub struct Script {
    /// How many bytes a source buffer may hold: 1 to `2^40`.
    pub quota: u64,
    /// How many calls the listeners may make in one drain: 1 to 1,000,000.
    pub drain: u64,
    /// The longest gap that counts as buffered, in ticks: 0 to `2^40`.
    pub gap: u64,
    /// At most 1,000 blobs.
    pub blobs: BlobTexts,
    /// At most 100,000 steps.
    pub steps: StepLines,
    /// At most 1,000 rules.
    pub rules: Rules,
}
