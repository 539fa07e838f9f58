ghost use Rattle.std.specs.Prelude.{◌≡◌, ◌||◌, ◌&&◌, ◌-ℤ◌, ◌*ℤ◌, pos, Some, None, is_some, IfSome};
ghost use Rattle.frame_rules.specs.Plain.{timing_by};
ghost use Rattle.frame_rules.specs.Timing.{raw_time, settings_at_group_start, has_group_start, timing_in_pass, is_discontinuous, settings_after_discontinuity, timing_of};

use mse_base::{CodedFrame, Ticks};
use track_store::{Marks, Settings};

/// The times of a frame in its track buffer.
#[derive(Clone, Copy)]
pub struct Times {
    /// The presentation timestamp.
    pub pts: Ticks,
    /// The decode timestamp.
    pub dts: Ticks,
    /// The frame end timestamp.
    pub end: Ticks,
}

/// The times at which a frame is to be placed, and what finding them changes.
#[derive(Clone, Copy)]
pub struct Timing {
    /// The presentation timestamp.
    pub pts: Ticks,
    /// The decode timestamp.
    pub dts: Ticks,
    /// The frame end timestamp.
    pub end: Ticks,
    /// The settings, with what steps 1.3 and 1.6 change.
    pub settings: Settings,
    /// Whether the frame begins at a group start timestamp that was set (step 1.3).
    pub starts_group: bool,
    /// Whether it follows a discontinuity (step 1.6).
    pub discontinuity: bool,
}

/// Step 1.1: a time of a frame, which is 0 where timestamps are generated.
fn raw_time(settings: &Settings, t: Ticks) -> Ticks
    ensures { result ≡ raw_time settings.now t }
{
    if settings.generate { Ticks::zero() } else { t }
}

/// Whether step 1.3 has something to do.
fn has_group_start(settings: &Settings) -> bool
    ensures { result ≡ has_group_start settings.now }
{
    settings.sequence && settings.group_start.is_some()
}

/// Step 1.3: the settings where the offset moves so that the frame begins at the group start.
fn settings_at_group_start(settings: &Settings, pts: Ticks) -> Option<Settings>
    ensures { result ≡ settings_at_group_start settings.now pts }
{
    let mut new_settings = *settings;
    if settings.sequence {
        if let Some(start) = settings.group_start {
            new_settings.offset = start.checked_sub(pts)?;
            new_settings.group_end = start;
            new_settings.group_start = None;
        }
    }
    Some(new_settings)
}

/// Steps 1.1 to 1.4, and 1.7.
fn timing_in_pass(settings: &Settings, frame: &CodedFrame) -> Option<Timing>
    ensures { result ≡ timing_in_pass settings.now frame.now }
{
    let starts_group = has_group_start(settings);
    let raw_pts = raw_time(settings, frame.pts);
    let raw_dts = raw_time(settings, frame.dts);
    let settings = settings_at_group_start(settings, raw_pts)?;
    let pts = raw_pts.checked_add(settings.offset)?;
    let dts = raw_dts.checked_add(settings.offset)?;
    let end = pts.checked_add(frame.dur)?;
    Some(Timing {
        pts,
        dts,
        end,
        settings,
        starts_group,
        discontinuity: false,
    })
}

fn twice(a: Ticks) -> i128
    ensures { result ≡ pos 2 *ℤ a }
{
    2 * a.get()
}

fn difference(a: Ticks, b: Ticks) -> i128
    ensures { result ≡ a -ℤ b }
{
    a.get() - b.get()
}

/// Step 1.6: whether the decode timestamp goes back, or leaps by more than twice the last frame
/// duration.
fn is_discontinuous(marks: &Marks, dts: Ticks) -> bool
    ensures { result ≡ is_discontinuous marks.now dts }
{
    match (marks.last_decode, marks.last_duration) {
        (Some(last), Some(dur)) => dts < last || twice(dur) < difference(dts, last),
        _ => false,
    }
}

/// Step 1.6.1: the settings after a discontinuity at a presentation timestamp.
fn settings_after_discontinuity(settings: &Settings, pts: Ticks) -> Settings
    ensures { result ≡ settings_after_discontinuity settings.now pts }
{
    let mut after = *settings;
    if settings.sequence {
        after.group_start = Some(settings.group_end);
    } else {
        after.group_end = pts;
    }
    after
}

/// The times of a frame, by steps 1.1 to 1.7. After a discontinuity they start over, once: then no
/// last decode timestamp is set.
pub fn timing_of(settings: &Settings, marks: &Marks, frame: &CodedFrame) -> Option<Timing>
    ensures { result ≡ timing_of settings.now marks.now frame.now }
{
    let first = timing_in_pass(settings, frame)?;
    if !is_discontinuous(marks, first.dts) {
        return Some(first);
    }
    let settings = settings_after_discontinuity(&first.settings, first.pts);
    let mut second = timing_in_pass(&settings, frame)?;
    second.discontinuity = true;
    Some(second)
}

/// The times of a plain frame, which changes no settings before it is placed: in mode "segments",
/// its timestamps are not generated, and it follows no discontinuity. `None` for other frames, and
/// where a time is out of range.
pub fn plain_times(settings: &Settings, marks: &Marks, frame: &CodedFrame) -> Option<Times>
    ensures { IfSome result (λ times. Some (timing_by settings.now times)
        ≡ timing_of settings.now marks.now frame.now) }
{
    if settings.sequence || settings.generate {
        return None;
    }
    let pts = frame.pts.checked_add(settings.offset)?;
    let dts = frame.dts.checked_add(settings.offset)?;
    let end = pts.checked_add(frame.dur)?;
    if is_discontinuous(marks, dts) {
        return None;
    }
    Some(Times { pts, dts, end })
}
