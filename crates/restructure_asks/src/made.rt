//! The due answer of each ask for a text, or out of memory.

ghost use Rattle.std.specs.Prelude.{ℕ, List, Some};
ghost use Rattle.cob_base.specs.Answers.{Makes};
ghost use Rattle.restructure_asks.specs.declared.ask.Ask.TheVariants.{Restructure, Report, Check, Generate, Trial};
ghost use Rattle.restructure_asks.specs.Ask.{IsProgramNumber};
ghost use Rattle.restructure_asks.specs.Answer as answers;
ghost use Rattle.restructure_asks.specs.Answer.{IsMadeFor};

use crate::refusal::Refusal;
use crate::texts::Texts;
use cob_base::{NoMemory, Text};
use cobol_print::print;
use end_to_end_laws::generated::readable_generated::generated_programs_read_back;
use procedure_split::report::report_text;
use program_gen::generate;
use program_gen::laws::generated_programs_are_faultless;
use restructure_core::{Done, check, restructure};
use std::alloc::Global;

/// The text that a source is restructured to.
pub fn restructured(alloc: Global, bytes: &[u8]) -> Result<Texts, Refusal>
    ensures { IsMadeFor (Some Restructure) bytes.now result }
{
    match restructure(alloc, bytes) {
        Ok(done) => {
            let Done { text, report } = done;
            drop(report);
            Ok(Texts { text, report: None })
        }
        Err(refused) => Err(Refusal::from(refused)),
    }
}

/// The same, and the lines of its report.
pub fn reported(alloc: Global, bytes: &[u8]) -> Result<Texts, Refusal>
    ensures { IsMadeFor (Some Report) bytes.now result }
{
    match restructure(alloc, bytes) {
        Ok(done) => {
            let lines = report_text(alloc, &done.report)?;
            Ok(Texts {
                text: done.text,
                report: Some(lines),
            })
        }
        Err(refused) => Err(Refusal::from(refused)),
    }
}

/// The lines of a source's report.
pub fn checked(alloc: Global, bytes: &[u8]) -> Result<Texts, Refusal>
    ensures { IsMadeFor (Some Check) bytes.now result }
{
    match check(alloc, bytes) {
        Ok(report) => {
            let text = report_text(alloc, &report)?;
            Ok(Texts { text, report: None })
        }
        Err(refused) => Err(Refusal::from(refused)),
    }
}

/// What is written of the generated program of a number.
pub fn generated(alloc: Global, n: u32) -> Result<Texts, Refusal>
    requires { IsProgramNumber n }
    ensures { (bytes : List ℕ) → IsMadeFor (Some (Generate n)) bytes result }
{
    generated_programs_read_back();
    let text = program_text(alloc, n)?;
    Ok(Texts { text, report: None })
}

/// The lines of its report.
pub fn tried(alloc: Global, n: u32) -> Result<Texts, Refusal>
    requires { IsProgramNumber n }
    ensures { (bytes : List ℕ) → IsMadeFor (Some (Trial n)) bytes result }
{
    generated_programs_read_back();
    generated_programs_are_faultless();
    let text = program_text(alloc, n)?;
    checked(alloc, text.as_slice())
}

fn program_text(alloc: Global, n: u32) -> Result<Text, NoMemory>
    requires { IsProgramNumber n }
    ensures { Makes (answers.program_text n) result }
{
    let program = generate(alloc, n)?;
    print(alloc, &program)
}
