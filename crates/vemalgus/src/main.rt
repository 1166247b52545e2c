//! Reads a rule text from standard input, settles it by whole states, and prints the verdict or the refusal.
#![tactic(auto)]

mod input;
mod output;

use anyhow::anyhow;
use checking::settle::settle;
use input::read_text;
use output::NamedState;
use rules::refusal::Refusal;
use rules::source::RuleSource;
use ruletext::text::RuleText;
use sheets::whole::WholeSheet;
use std::process::ExitCode;
use trace::area::Areas;

/// Settles the rules of a text, and prints the verdict and the run.
fn settle_text(rt: &HostRuntime, text: &RuleText) -> anyhow::Result<()> {
    let heap = rt.alloc();
    let n = text.size() as usize;
    let mut path = vec![in heap; 0; n]?;
    let mut marks = vec![in heap; 0; n]?;
    let mut scratch = vec![in heap; 0; 2 * n]?;
    let mut areas = Areas {
        path: &mut path,
        marks: &mut marks,
        scratch: &mut scratch,
    };
    let said = settle(text, &mut WholeSheet::new(text), &mut areas).map_err(|_| anyhow!(
        "the check was refused"
    ))?;
    println!(rt; "{said}")?;
    for state in path.iter().take(said.length as usize).copied() {
        println!(rt; "{}", NamedState { text, state })?;
    }
    Ok(())
}

/// Status 0 with a verdict, and 1 with a refusal.
fn main(rt: HostRuntime) -> anyhow::Result<ExitCode> {
    let bytes = read_text(&rt)?;
    match RuleText::read(rt.alloc(), &bytes) {
        Ok(text) => {
            settle_text(&rt, &text)?;
            Ok(ExitCode::SUCCESS)
        }
        Err(fault) => {
            println!(rt; "{}", Refusal::from(fault))?;
            Ok(ExitCode::FAILURE)
        }
    }
}
