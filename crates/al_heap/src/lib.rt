//! What keeps a memory: the trait `Store`, and a store over an ordered map.
#![tactic(auto)]

mod map_store;
mod pages;
mod slots;
mod store;

pub use map_store::MapStore;
pub use pages::page_of;
pub use slots::Slots;
pub use store::Store;
