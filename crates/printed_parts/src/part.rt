// What is written of a year or of a fraction.
ghost use Rattle.printed_parts.specs.Bounded.{Bounded};

// The last `width` digits of `value`, behind a mark or none: `-` of a year, `.` of a fraction.
#[derive(Clone, Copy)]
pub struct Part {
    pub mark: Option<u8>,
    pub width: usize,
    pub value: u64,
    pub ghost bounded: { Bounded width value },
}
