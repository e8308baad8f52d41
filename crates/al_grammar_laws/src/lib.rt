//! Laws of the grammar and its parser: the parser stops at the first bad token. A law stands on a function that does
//! nothing.
#![tactic(auto)]

mod first_bad;

pub use first_bad::{
    bad_places_are_within, one_first_bad_token, reads_no_further, stops_at_first_bad_token,
};
