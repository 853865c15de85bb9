// The arguments, standard input and standard output of the program `tai`.
#![tactic(auto)]

ghost use Rattle.std.specs.Prelude.{◌+◌, ◌≤◌, ◌<◌, length, MatchResult};

use std::env::{Env, FillError};
use std::fmt::InlineText;
use std::io;
use std::io::{Input, Read};

// Whether the program was started with an argument.
pub fn has_arguments(rt: &impl Env) -> bool {
    !matches!(rt.arg(1, &mut []), Err(FillError::NotPresent))
}

// The arguments joined by blanks, and their length. Where they have no room it is all of request, which is too long.
pub fn join_arguments(rt: &impl Env, request: &mut [u8]) -> usize
    ensures { result ≤ length request.new }
{
    let mut at = 0;
    for i in 1..usize::MAX {
        match rt.arg(i, &mut request[at..]) {
            Ok(n) => at += n,
            Err(FillError::NotPresent) => break,
            Err(FillError::TooLong) => return request.len(),
        }
        if at == request.len() {
            return at;
        }
        request[at] = b' ';
        at += 1;
    }
    at.saturating_sub(1)
}

// What failed, and why.
#[derive(Clone, Copy)]
pub enum Failure {
    Output(io::Error),
    Input(io::Error),
}

pub fn write(rt: &impl Print, bytes: &[u8]) -> Result<(), Failure> {
    rt.write_all(bytes).map_err(Failure::Output)
}

// One read, behind the bytes kept, where there is room for one: how many bytes it brought, none at the input's end.
pub fn read_behind(rt: &impl Input, input: &mut [u8], kept: usize) -> Result<usize, Failure>
    requires { kept < length input.old }
    ensures { MatchResult result (λ bytes. kept + bytes ≤ length input.new) (λ _. kept ≤ length input.new) }
{
    let mut reader = rt.reader();
    reader.read(&mut input[kept..]).map_err(Failure::Input)
}

// A line on standard error: what failed, and why in the system's words.
pub fn tell(rt: &impl Eprint, failure: Failure) {
    let (what, e) = match failure {
        Failure::Output(e) => ("output", e),
        Failure::Input(e) => ("input", e),
    };
    let text = InlineText::<120>::of(e);
    let why = without_number(text.as_str());
    let _ = eprintln!(rt; "tai: standard {what}: {why}");
}

// The words of an error of the system, behind which its number stands.
fn without_number(text: &str) -> &str {
    text.split_once(" (os error ")
        .map_or(text, |(words, _)| words)
}
