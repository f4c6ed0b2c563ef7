//! The settings of a server with the access key of AWS's examples and two buckets, and the moment of its first message.
use s3_calendar::Moment;
use s3_config::Config;
use s3_machine::{Answer, Rules, Turn};
use s3_records::MapRecords;
use s3_simulation::replay_one;
use s3_store::Store;
use s3_terms::NoMemory;
use std::alloc::Global;

/// 2013-05-24T00:00:00Z.
pub(crate) fn moment() -> Option<Moment> {
    Moment::new(1_369_353_600)
}

/// The settings of the server, with a bucket of ours and that of AWS's example of signed chunks; `None` says that
/// there was no memory.
pub(crate) fn config(alloc: Global) -> Option<Config> {
    let buckets = [b"pail".as_slice(), b"examplebucket"];
    s3_test_servers::config(alloc, b"us-east-1", 5_242_880, 67_108_864, &buckets)
}

/// The answer of a store to a turn, in a server of these settings.
pub(crate) fn applied(
    alloc: Global,
    config: &Config,
    store: &mut Store<MapRecords>,
    turn: Turn,
) -> Result<Answer, NoMemory> {
    let rules = Rules::of(config);
    store.apply(alloc, &rules, turn.command, turn.moment)
}

/// Whether a connection of these bytes, all at that moment, is answered by those and by nothing else.
pub(crate) fn is_answered(alloc: Global, config: &Config, bytes: &[u8], wanted: &[u8]) -> bool {
    let Some(moment) = moment() else {
        return false;
    };
    match replay_one(alloc, config, bytes, moment) {
        Ok(out) => out.as_slice() == wanted,
        Err(_) => false,
    }
}
