use crate::setting::Setting;
use std::alloc::Global;

/// What walks a tree, on what a run is given.
#[derive(Drop)]
pub struct Walker<'a, C> {
    pub alloc: Global,
    pub on: &'a Setting<'a>,
    pub calls: C,
}
