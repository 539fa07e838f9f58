ghost use Rattle.std.specs.Prelude.{◌≡◌, IfOk};

use crate::TimeRanges;
use mse_base::{Moment, OutOfMemory, Span, Ticks};

/// Why a call is refused, by the name of the exception that it would throw (Web IDL,
/// `DOMException` names), and two of the engine's own.
#[derive(Clone, Copy, Debug, PartialEq, Eq)]
pub enum Name {
    /// `InvalidStateError`.
    InvalidState,
    /// `NotSupportedError`.
    NotSupported,
    /// `QuotaExceededError`.
    QuotaExceeded,
    /// `TypeError`.
    TypeError,
    /// `NotFoundError`.
    NotFound,
    /// No buffer was made with the number.
    NoSuchBuffer,
    /// There is no such blob, or the part is not inside it.
    NoSuchBytes,
}

/// The state of a source (Media Source Extensions, `ReadyState`).
#[derive(Clone, Copy, Debug, PartialEq, Eq)]
pub enum Ready {
    /// Not attached to a media element (`closed`).
    Closed,
    /// Open for data (`open`).
    Opened,
    /// All data was appended (`ended`).
    Ended,
}

impl Ready {
    ghost use Rattle.mse_calls.specs.Ready.{is_closed, is_open, is_ended};

    /// Whether the source is closed: not attached to an element.
    pub fn is_closed(self) -> bool
        ensures { result ≡ is_closed self }
    {
        match self {
            Ready::Closed => true,
            Ready::Opened | Ready::Ended => false,
        }
    }

    /// Whether the source is open.
    pub fn is_open(self) -> bool
        ensures { result ≡ is_open self }
    {
        match self {
            Ready::Opened => true,
            Ready::Closed | Ready::Ended => false,
        }
    }

    /// Whether the source is ended.
    pub fn is_ended(self) -> bool
        ensures { result ≡ is_ended self }
    {
        match self {
            Ready::Ended => true,
            Ready::Closed | Ready::Opened => false,
        }
    }
}

/// How much data an element has at its position (HTML, `HTMLMediaElement.readyState`).
#[derive(Clone, Copy, Debug, PartialEq, Eq)]
pub enum Level {
    /// `HAVE_NOTHING`.
    Nothing,
    /// `HAVE_METADATA`.
    Metadata,
    /// `HAVE_CURRENT_DATA`.
    Current,
    /// `HAVE_FUTURE_DATA`.
    Future,
    /// `HAVE_ENOUGH_DATA`.
    Enough,
}

impl Level {
    ghost use Rattle.mse_calls.specs.Level.{level_number, has_metadata, has_current_data, has_future_data};

    /// The value of the element's `readyState`, 0 to 4.
    pub fn number(self) -> u8
        ensures { result ≡ level_number self }
    {
        match self {
            Level::Nothing => 0,
            Level::Metadata => 1,
            Level::Current => 2,
            Level::Future => 3,
            Level::Enough => 4,
        }
    }

    /// Whether it is `HAVE_METADATA` or more.
    pub fn has_metadata(self) -> bool
        ensures { result ≡ has_metadata self }
    {
        match self {
            Level::Nothing => false,
            Level::Metadata | Level::Current | Level::Future | Level::Enough => true,
        }
    }

    /// Whether it is `HAVE_CURRENT_DATA` or more.
    pub fn has_current_data(self) -> bool
        ensures { result ≡ has_current_data self }
    {
        match self {
            Level::Nothing | Level::Metadata => false,
            Level::Current | Level::Future | Level::Enough => true,
        }
    }

    /// Whether it is `HAVE_FUTURE_DATA` or more.
    pub fn has_future_data(self) -> bool
        ensures { result ≡ has_future_data self }
    {
        match self {
            Level::Nothing | Level::Metadata | Level::Current => false,
            Level::Future | Level::Enough => true,
        }
    }
}

/// The state of the source and of the element.
#[derive(Clone, Copy, Debug, PartialEq, Eq)]
pub struct StateView {
    /// The source's `readyState`.
    pub source: Ready,
    /// `MediaSource.duration`.
    pub duration: Moment,
    /// The element's `readyState`.
    pub level: Level,
    /// The current playback position.
    pub position: Ticks,
    /// Whether the element is paused.
    pub paused: bool,
    /// Whether the element seeks.
    pub seeking: bool,
    /// The element's error code (HTML, `MediaError.code`), 0 where there is no error.
    pub error: u8,
}

/// What a call answers.
#[derive(Debug, Drop)]
pub enum Answer {
    /// It was done, and tells nothing.
    Done,
    /// The buffered ranges of a buffer or of the element.
    Ranges(TimeRanges),
    /// The seekable range, if there is one.
    Range(Option<Span>),
    /// The state of the source and of the element.
    State(StateView),
    /// It was refused, with this name.
    Refused(Name),
}

impl Answer {
    /// The same answer again.
    pub fn copy(&self) -> Result<Answer, OutOfMemory>
        ensures { IfOk result (λ answer. answer ≡ self.now) }
    {
        match self {
            Answer::Done => Ok(Answer::Done),
            Answer::Ranges(ranges) => Ok(Answer::Ranges(ranges.copy()?)),
            Answer::Range(span) => Ok(Answer::Range(*span)),
            Answer::State(state) => Ok(Answer::State(*state)),
            Answer::Refused(name) => Ok(Answer::Refused(*name)),
        }
    }
}
