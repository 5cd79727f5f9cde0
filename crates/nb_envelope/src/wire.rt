//! The parts of which cells are made: each is written at the end of a cell, and read at its front.

pub use crate::put::{
    put_count, put_due, put_envelope, put_flag, put_int, put_text, put_u32, put_u64, put_value,
};
pub use crate::take::{
    take_due, take_envelope, take_flag, take_int, take_moment, take_str, take_text, take_u32,
    take_u64, take_value,
};
