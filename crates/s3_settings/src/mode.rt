//! What a replay's own options ask for.

ghost use Rattle.std.specs.Prelude.{◌≡◌, None, IfOk, IfErr, Some};
ghost use Rattle.s3_settings.specs.Settings.{replay_mode};
ghost use Rattle.s3_settings.specs.declared.fault.Fault.TheVariants.{BadSetting};

use crate::fault::Fault;
use crate::folder::are_together;
use crate::options::ReplayOptions;
use crate::settings::option_moment;
use s3_calendar::Moment;

/// How a replay reads its input, and when everything happens.
#[derive(Clone, Copy)]
pub enum ReplayMode {
    /// The input is the bytes of one connection, and everything happens at this moment.
    AtMoment(Moment),
    /// The input is event lines; and the first faults of connections are told, where `faults` says so.
    Events { faults: bool },
}

impl ReplayMode {
    /// What the options ask for; `BadSetting` where they ask for both a moment and events or for neither, for faults without
    /// events, for a moment out of its form, or for a folder beside maps.
    pub fn read<'a>(options: &ReplayOptions<'a>) -> Result<ReplayMode, Fault<'a>>
        ensures value { IfOk result (λ mode. replay_mode options.now ≡ Some mode) }
        ensures refused { IfErr result (λ fault. (fault ≡ BadSetting) × (replay_mode options.now ≡ None)) }
    {
        if !are_together(options.folder, options.common.records) {
            return Err(Fault::BadSetting);
        }
        if options.moment.is_none() && options.events {
            return Ok(ReplayMode::Events {
                faults: options.faults,
            });
        }
        match option_moment(options.moment) {
            Some(moment) if !options.events && !options.faults => Ok(ReplayMode::AtMoment(moment)),
            _ => Err(Fault::BadSetting),
        }
    }
}
