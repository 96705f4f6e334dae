//! `engrave [FILE]` answers a file of calls, or standard input: four lines open a score, each line that follows is a call, and each answer is a line.
#![tactic(auto)]

use input::read_input;
use script::answer_script;
use std::process::ExitCode;

fn main(rt: HostRuntime) -> anyhow::Result<ExitCode> {
    let Ok(text) = read_input(&rt, "engrave") else {
        // standard error has been told what could not be read, and why
        return Ok(ExitCode::FAILURE);
    };
    let answers = answer_script(rt.alloc(), &text)?;
    rt.print(answers.as_str())?;
    Ok(ExitCode::SUCCESS)
}
