// The program for the desk: requests from standard input, or one from the arguments, and a line for each.
#![tactic(auto)]

mod input;
mod turns;

use desk::answer;
use std::env::Env;
use streams::{Failure, has_arguments, join_arguments, tell, write};

fn answer_arguments(
    rt: &(impl Env + Print),
    request: &mut [u8],
    out: &mut [u8],
) -> Result<(), Failure> {
    let n = join_arguments(rt, request);
    let m = answer(&request[..n], out);
    write(rt, &out[..m])
}

fn main(rt: HostRuntime) {
    let mut input = [0u8; 131072];
    let mut out = [0u8; 131072];
    let answered = if has_arguments(&rt) {
        answer_arguments(&rt, &mut input[..65536], &mut out)
    } else {
        input::answer_input(&rt, &mut input, &mut out)
    };
    if let Err(failure) = answered {
        tell(&rt, failure);
    }
}
