//! What a server gets the records from that it begins with. `Keeper` is what records in memory promise there, of which those of
//! `MapKeeper` are maps, and `FolderKeeper` what records in a folder do: that what was found there is sound, and what it held where its disk gave that back.
#![tactic(auto)]

mod folder_keeper;
mod keeper;
mod laws;
mod map_keeper;
mod missing;

pub use folder_keeper::{FolderKeeper, FoundAmounts, Opened};
pub use keeper::Keeper;
pub use laws::new_buckets_stay_sound;
pub use map_keeper::MapKeeper;
pub use missing::add_missing;
