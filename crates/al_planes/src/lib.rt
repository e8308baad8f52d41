//! Planes of bits, eight numbers at a time, and masks of 512 places with their lines.
#![tactic(auto)]

mod lines;
mod masks;
mod planes;

pub use lines::Line;
pub use masks::{has_bit, masks_join, masks_meet, masks_meet_by_lines, set_bit};
pub use planes::{planes_join, planes_meet};
