// The lines of the input, answered as far as they are there and their answers have room.
ghost use Rattle.desk.specs.Answers.{answer_text};
ghost use Rattle.lines.specs.Lines.{Turn};

use desk::answer;
use lines::{Answered, first_line};

fn answer_line(s: &[u8], within: bool, ended: bool, out: &mut [u8]) -> Answered
    ensures { Turn answer_text s.now within ended out.old out.new result }
{
    let line = first_line(s, ended);
    if within {
        return Answered {
            used: line.used,
            written: 0,
            within: line.continues,
        };
    }
    if let Some(length) = line.length {
        let written = answer(&s[..length], out);
        if 0 < written {
            return Answered {
                used: line.used,
                written,
                within: line.continues,
            };
        }
    }
    Answered {
        used: 0,
        written: 0,
        within,
    }
}

// Where the input has ended, so has its last line.
pub(crate) fn answer_lines(s: &[u8], within: bool, ended: bool, out: &mut [u8]) -> Answered
    ensures { Turn answer_text s.now within ended out.old out.new result }
{
    let mut used = 0;
    let mut written = 0;
    let mut within = within;
    while used < s.len() {
        let line = answer_line(&s[used..], within, ended, &mut out[written..]);
        used += line.used;
        written += line.written;
        within = line.within;
        if line.used == 0 {
            break;
        }
    }
    Answered {
        used,
        written,
        within,
    }
}
