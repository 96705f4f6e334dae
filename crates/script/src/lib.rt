//! A script: a text of lines, of which the first four open a score and each that follows is a call. Here the whole text that answers it is made.
#![tactic(auto)]

ghost use Rattle.std.specs.Prelude.{◌≡◌, ◌≤◌, ◌++◌, IfOk, string_bytes};
ghost use Rattle.script.specs.Script.{script_answers};
ghost use Rattle.script.specs.Promised.{CallsAnswered};

mod desk;
pub mod lines;

use crate::desk::answer_all;
use std::alloc::Global;

/// How many voices and events the programs serve at most.
pub const SERVED_VOICES: u32 = 8;

pub const SERVED_EVENTS: u32 = 1024;

/// The text that answers a script, whole. Only memory can be wanting.
pub fn answer_script(heap: Global, text: &[u8]) -> anyhow::Result<String>
    ensures { IfOk result (λ s. string_bytes s ≡ script_answers text.now) }
{
    let mut out = String::new(heap);
    answer_all(heap, text, &mut out)?;
    Ok(out)
}

/// If all lines behind an opening are calls, what is printed are the answers to these calls.
#[tactic(auto, using(crate::proofs::Promised::calls_answered))]
pub fn calls_answered()
    ensures { CallsAnswered }
{}
