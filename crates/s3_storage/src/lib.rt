//! Why a folder that keeps a store can't be used, or a call on it failed.
#![tactic(auto)]

mod storage_fault;

pub use storage_fault::StorageFault;
