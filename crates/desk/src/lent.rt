// The verbs that print, and that write into lent bytes.
ghost use Rattle.std.specs.Prelude.{◌≡◌, ◌+◌, ◌*◌, ◌≤◌, ◌<◌, length};
ghost use Rattle.printer.specs.Display.{displayed};
ghost use Rattle.texts.specs.Wrote.{Wrote};
ghost use Rattle.desk.specs.Verbs.{lent_line, answer_of};
ghost use Rattle.desk.specs.declared.verbs.Verb.TheVariants.{Print, Line};

use answers::{answered, put_refusal, put_said};
use counts::{Epoch, TaiTime};
use entries::given::{epoch_word, precision_at, time_at};
use printer::display;
use texts::Writer;
use texts::hex::unhex;
use words::values::value_at;
use words::words::word_at;

// The text is printed into the answer itself, behind the three bytes that say so.
pub(crate) fn print(s: &[u8], out: &mut Writer<'_>)
    requires { out.old.at + 128 ≤ length out.old.line.now }
    ensures wrote { Wrote out.old (answer_of Print s.now) out.new }
    ensures within { out.new.at < out.old.at + 128 }
{
    let text = out.at + 3;
    match display(
        time_at(s, 1),
        epoch_word(s, 0),
        precision_at(s, 3),
        out.line,
        text,
    ) {
        Ok(n) => {
            out.put(b"ok ");
            out.at += n;
        }
        Err(e) => put_refusal(out, e.into()),
    }
}

// The lent bytes stand behind what was answered, as they are then.
fn print_in(
    t: TaiTime,
    epoch: Epoch,
    precision: Option<usize>,
    at: usize,
    lent: &mut [u8],
    out: &mut Writer<'_>,
)
    requires { out.old.at + 2 * length lent.old + 128 ≤ length out.old.line.now }
    ensures wrote { Wrote out.old (lent_line (displayed t.secs t.nanos epoch.0 precision lent.old at)) out.new }
    ensures within { out.new.at < out.old.at + 2 * length lent.old + 128 }
{
    let printed = display(t, epoch, precision, lent, at);
    put_said(out, answered(printed));
    out.put(b" ");
    out.put_hex(lent);
}

pub(crate) fn line(s: &[u8], out: &mut Writer<'_>)
    requires { (length s.now ≤ 65535) × (out.old.at + length s.now + 128 ≤ length out.old.line.now) }
    ensures wrote { Wrote out.old (answer_of Line s.now) out.new }
    ensures within { out.new.at < out.old.at + length s.now + 128 }
{
    let mut bytes = [0u8; 32768];
    let n = unhex(word_at(s, 5), &mut bytes);
    let t = time_at(s, 1);
    let at = value_at::<u64>(s, 4) as usize;
    print_in(
        t,
        epoch_word(s, 0),
        precision_at(s, 3),
        at,
        &mut bytes[..n],
        out,
    )
}
