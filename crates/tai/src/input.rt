// Standard input, one read after the other.
ghost use Rattle.std.specs.Prelude.{◌≤◌, length};

use crate::turns::answer_lines;
use lines::move_to_front;
use std::io::Input;
use streams::{Failure, read_behind, write};

// The first `end` bytes of the input are there and not answered yet, and stay so where a read fails. A proved loop has to
// end, and nothing says that the input does: no run uses up the count of turns.
pub(crate) fn answer_input(
    rt: &(impl Input + Print),
    input: &mut [u8],
    out: &mut [u8],
) -> Result<(), Failure>
    requires { (65536 ≤ length input.old) × (65664 ≤ length out.old) }
{
    let mut end = 0;
    let mut within = false;
    let mut ended = false;
    for _ in 0..u64::MAX {
        let done = answer_lines(&input[..end], within, ended, out);
        write(rt, &out[..done.written])?;
        within = done.within;
        end = move_to_front(&mut input[..end], done.used);
        if done.used == 0 {
            if ended {
                break;
            }
            let came = read_behind(rt, input, end)?;
            end += came;
            ended = came == 0;
        }
    }
    Ok(())
}
