ghost use Rattle.std.specs.Prelude.{◌≡◌};
ghost use Rattle.call_script.specs.CallWords.{call_name, call_word_of};

/// The word that begins a call line.
#[derive(Clone, Copy, Debug, PartialEq, Eq)]
pub enum CallWord {
    Attach,
    Add,
    RemoveBuffer,
    Duration,
    EndOfStream,
    Live,
    ClearLive,
    Mode,
    Offset,
    WindowStart,
    WindowEnd,
    Append,
    Abort,
    Remove,
    ChangeType,
    Buffered,
    State,
    Seek,
    Play,
    Pause,
    Advance,
    ElementBuffered,
    Seekable,
}

impl CallWord {
    const ALL: [CallWord; 23] = [
        CallWord::Attach,
        CallWord::Add,
        CallWord::RemoveBuffer,
        CallWord::Duration,
        CallWord::EndOfStream,
        CallWord::Live,
        CallWord::ClearLive,
        CallWord::Mode,
        CallWord::Offset,
        CallWord::WindowStart,
        CallWord::WindowEnd,
        CallWord::Append,
        CallWord::Abort,
        CallWord::Remove,
        CallWord::ChangeType,
        CallWord::Buffered,
        CallWord::State,
        CallWord::Seek,
        CallWord::Play,
        CallWord::Pause,
        CallWord::Advance,
        CallWord::ElementBuffered,
        CallWord::Seekable,
    ];

    /// The word as it is written.
    fn name(self) -> &'static str
        ensures { result.now ≡ call_name self }
    {
        match self {
            CallWord::Attach => "attach",
            CallWord::Add => "add",
            CallWord::RemoveBuffer => "removebuffer",
            CallWord::Duration => "duration",
            CallWord::EndOfStream => "endofstream",
            CallWord::Live => "live",
            CallWord::ClearLive => "clearlive",
            CallWord::Mode => "mode",
            CallWord::Offset => "offset",
            CallWord::WindowStart => "windowstart",
            CallWord::WindowEnd => "windowend",
            CallWord::Append => "append",
            CallWord::Abort => "abort",
            CallWord::Remove => "remove",
            CallWord::ChangeType => "changetype",
            CallWord::Buffered => "buffered",
            CallWord::State => "state",
            CallWord::Seek => "seek",
            CallWord::Play => "play",
            CallWord::Pause => "pause",
            CallWord::Advance => "advance",
            CallWord::ElementBuffered => "elementbuffered",
            CallWord::Seekable => "seekable",
        }
    }

    /// The word that the text is; `None` exactly where it is none.
    #[tactic(auto, unfolding(crate::specs::CallWords::call_word_of))]
    pub fn of_text(text: &str) -> Option<CallWord>
        ensures { result ≡ call_word_of text.now }
    {
        CallWord::ALL
            .iter()
            .copied()
            .find(|word| text == word.name())
    }
}
