// A request to its answer.
ghost use Rattle.std.specs.Prelude.{◌≡◌, ◌+◌, ◌≤◌, ◌<◌, length};
ghost use Rattle.texts.specs.Wrote.{Wrote};
ghost use Rattle.desk.specs.Verbs.{answer_of};
ghost use Rattle.desk.specs.Answers.{answer_text, answered};

use crate::lent;
use crate::verbs::{Verb, kinds, said_of, tail, verb_of};
use answers::put_said;
use decimals::skip;
use texts::Writer;
use words::rows::row_fits;
use words::words::word_length;

// The answer to words of the verb's kinds.
fn put_verb(verb: Verb, s: &[u8], out: &mut Writer<'_>)
    requires { (length s.now ≤ 65535) × (out.old.at + length s.now + 128 ≤ length out.old.line.now) }
    ensures wrote { Wrote out.old (answer_of verb s.now) out.new }
    ensures within { out.new.at < out.old.at + length s.now + 128 }
{
    match verb {
        Verb::Print => lent::print(s, out),
        Verb::Line => lent::line(s, out),
        _ => put_said(out, said_of(verb, s)),
    }
}

fn put_answer(request: &[u8], out: &mut Writer<'_>)
    requires { out.old.at + length request.now + 128 ≤ length out.old.line.now }
    ensures wrote { Wrote out.old (answer_text request.now) out.new }
    ensures within { out.new.at < out.old.at + length request.now + 128 }
{
    if 65535 < request.len() {
        return out.put(b"malformed");
    }
    let n = word_length(request);
    let s = skip(request, n);
    let Some(verb) = verb_of(&request[..n]) else {
        return out.put(b"malformed");
    };
    if !row_fits(s, kinds(verb), tail(verb)) {
        return out.put(b"malformed");
    }
    put_verb(verb, s, out);
}

// The answer line of a request, its LF included, at the front of out, and its length. It has at most 128 bytes more than
// the request: where out has less room, nothing is written.
pub fn answer(request: &[u8], out: &mut [u8]) -> usize
    ensures { (result, out.new) ≡ answered request.now out.old }
{
    if out.len() < request.len().saturating_add(128) {
        return 0;
    }
    let mut line = Writer::new(out);
    put_answer(request, &mut line);
    line.put(b"\n");
    line.at
}
