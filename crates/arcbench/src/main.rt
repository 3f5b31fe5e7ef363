//! `arcbench script` runs the script in its input, a script of steps on counted blocks;
//! `arcbench threads N` starts callers of one text in threads of their own; `arcbench tokens N`
//! prints the words of each line of its input.
#![tactic(auto)]

use arcbench_core::port::Port;
use arcbench_core::program;
use std::env::Env;
use std::process::ExitCode;
use std::{env, io};

fn main(rt: HostRuntime) -> ExitCode {
    let mut errors = rt.stderr();
    let status = match arguments(&rt) {
        Err(error) => program::serve_without_words(&mut errors, &error),
        Ok(arguments) => {
            let mut input = Port::new(rt.stdin());
            let mut output = Port::new(rt.stdout());
            program::serve(
                &rt,
                rt.alloc(),
                &arguments,
                &mut input,
                &mut output,
                &mut errors,
            )
        }
    };
    ExitCode::from(status)
}

/// The arguments after the program's name.
fn arguments<R: Env + AllocGlobal>(rt: &R) -> io::Result<Vec<String>> {
    Ok(env::args(rt)?.skip(1).collect(rt.alloc())?)
}
