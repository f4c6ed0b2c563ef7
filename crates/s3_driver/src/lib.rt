//! One connection over a device. A `Driver` moves bytes between the two until the connection waits for bytes, room or its
//! turn, and says which. It knows no store and no log: its turns are taken from it, and it tells an observer what becomes
//! of messages. `serve` serves one to its end. `specs/Ended.antt` says what the connection wrote then.
#![tactic(auto)]

mod account;
mod driver;
mod handle;
mod laws;
mod limits;
mod observer;
mod served_connection;
mod serving;
mod state;
mod told;
mod turned_away;
mod waits;

pub use account::Account;
pub use driver::Driver;
pub use handle::{RecordedStoreHandle, StoreHandle};
pub use laws::{connections_are_served, connections_end, connections_have_written};
pub use observer::{MessageObserver, Nobody};
pub use served_connection::{AnsweredConnection, ServedConnection, new_driver};
pub use serving::serve;
pub use state::{Departure, Ending, Moved, State};
pub use told::{Told, told_of};
pub use turned_away::turn_away;
