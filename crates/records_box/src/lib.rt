// The entries for C and Rust: numbers and lent bytes in, one struct out. No rule stands here.
#![tactic(auto)]

mod results;
pub mod texts;
pub mod times;

// refusal: -1, or the number in the table of refusals; value: the refusal's; in_range_error: 1 if a text's date was refused.
#[repr(C)]
#[derive(Clone, Copy)]
pub struct TimeResult {
    pub refusal: i32,
    pub in_range_error: i32,
    pub value: u32,
    pub nanos: u32,
    pub secs: i64,
}

#[repr(C)]
#[derive(Clone, Copy)]
pub struct UnixResult {
    pub refusal: i32,
    pub secs: i64,
}

#[repr(C)]
#[derive(Clone, Copy)]
pub struct DurationResult {
    pub refusal: i32,
    pub nanos: u32,
    pub secs: u64,
}

#[repr(C)]
#[derive(Clone, Copy)]
pub struct OrderingResult {
    pub refusal: i32,
    pub ordering: i32,
}

// wanted: the length of a text that had no room, else 0.
#[repr(C)]
#[derive(Clone, Copy)]
pub struct LengthResult {
    pub refusal: i32,
    pub wanted: u32,
    pub length: usize,
}

#[repr(C)]
#[derive(Clone, Copy)]
pub struct MomentResult {
    pub year: i64,
    pub month: u8,
    pub day: u8,
    pub hour: u8,
    pub minute: u8,
    pub second: u8,
}
