// The lines of an input that comes in pieces, and its bytes that wait for their answers.
#![tactic(auto)]

ghost use Rattle.std.specs.Prelude.{◌≡◌};
ghost use Rattle.lines.specs.FirstLine.{first_of, moved_to_front};

use words::scan::find;

// The most bytes that a request has.
const LONGEST: usize = 65535;

// The first line of some bytes: how many of them decide its answer, if it can be answered, how many are done with then, and
// whether no LF ends it.
#[derive(Clone, Copy)]
pub struct First {
    pub length: Option<usize>,
    pub used: usize,
    pub continues: bool,
}

// How many bytes of the input are done with, how many bytes of answers were written, and whether the line that goes on
// behind the bytes used is answered already.
#[derive(Clone, Copy)]
pub struct Answered {
    pub used: usize,
    pub written: usize,
    pub within: bool,
}

#[tactic(auto, unfolding(crate::specs::Lines::ready))]
pub fn first_line(s: &[u8], ended: bool) -> First
    ensures { result ≡ first_of ended s.now }
{
    let end = find(s, b'\n');
    let continues = end == s.len();
    let ready = !continues || LONGEST < s.len() || (ended && !s.is_empty());
    First {
        length: ready.then_some(end.min(LONGEST + 1)),
        used: end + usize::from(!continues),
        continues,
    }
}

// The bytes from a place on, moved to the front, and how many they are. Those behind them are as they were.
pub fn move_to_front(s: &mut [u8], from: usize) -> usize
    ensures { (result, s.new) ≡ moved_to_front s.old from }
{
    let from = from.min(s.len());
    s.copy_within(from.., 0);
    s.len() - from
}
