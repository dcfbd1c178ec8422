//! Why an ask isn't done.

ghost use Rattle.std.specs.Prelude.{◌≡◌, ◌++◌};
ghost use Rattle.std.specs.Fmt.{decimal};
ghost use Rattle.cob_base.specs.Answers.{Makes};
ghost use Rattle.cob_base.specs.Limit as limits;
ghost use Rattle.restructure_asks.specs.Refusal as refusals;
ghost use Rattle.restructure_asks.specs.Refusal.{status_of, line_of, refusal_text};

use crate::kind::kind_at;
use crate::status::Status;
use cob_base::{Limit, NoMemory, Text};
use cob_tree::{Abend, FlowFault, Program};
use cobol_read::ReadFault;
use overlap_trail::notes::{fault_text, trail_text};
use restructure_core::Refused;
use std::alloc::Global;

/// Why an ask isn't done.
#[derive(Debug, Drop)]
pub enum Refusal {
    /// The words aren't an ask.
    Usage,
    /// The source is refused; never since memory ran out, which is `NoMemory`.
    Refused(Refused),
    /// The run of this program came to a fault of PERFORM.
    Fault(Program, FlowFault),
    Abend(Abend),
    /// The program still ran after so many steps, the number that was asked for.
    Budget(u64),
    /// The device of that name failed.
    Device(Text),
    /// The source holds one program alone, where two are asked for.
    NoSecond,
    /// The second program of the source is refused; never since memory ran out.
    Second(Refused),
    /// The device of that name failed, on the bench of the second program.
    SecondDevice(Text),
    /// The two programs differ at the event of that number.
    Differ(u128),
    ReadFault,
    WriteFault,
    NoMemory,
}

impl From<NoMemory> for Refusal {
    ghost use Rattle.std.specs.Prelude.{◌≡◌};
    ghost use Rattle.restructure_asks.specs.declared.refusal.Refusal.TheVariants as refusal;

    ghost from_gives = { λ _ e. e ≡ refusal.NoMemory };

    fn from(_: NoMemory) -> Refusal {
        Refusal::NoMemory
    }
}

impl From<Refused> for Refusal {
    ghost use Rattle.std.specs.Prelude.{◌≡◌};
    ghost use Rattle.restructure_asks.specs.Refusal.{of_refused};

    ghost from_gives = { λ refused e. e ≡ of_refused refused };

    fn from(refused: Refused) -> Refusal
        ensures { result ≡ of_refused refused }
    {
        match refused {
            Refused::NoMemory => Refusal::NoMemory,
            other => Refusal::Refused(other),
        }
    }
}

impl Refusal {
    /// The status with which an ask that is refused for this reason ends.
    pub fn status(&self) -> Status
        ensures { result ≡ status_of self.now }
    {
        match self {
            Refusal::Usage => Status::Usage,
            Refusal::Refused(refused) => refused_status(refused),
            Refusal::Fault(_, _) => Status::Flow,
            Refusal::Abend(_) => Status::Abend,
            Refusal::Budget(_) => Status::Budget,
            Refusal::Device(_) => Status::DeviceFault,
            Refusal::NoSecond => Status::NotSubset,
            Refusal::Second(refused) => refused_status(refused),
            Refusal::SecondDevice(_) => Status::DeviceFault,
            Refusal::Differ(_) => Status::Differ,
            Refusal::ReadFault => Status::ReadFault,
            Refusal::WriteFault => Status::WriteFault,
            Refusal::NoMemory => Status::NoMemory,
        }
    }

    /// The line that says why, or the lines of a trail, with the line feed at the end.
    pub fn line(&self, alloc: Global) -> Result<Text, NoMemory>
        ensures { Makes (line_of self.now) result }
    {
        let mut line = self.text(alloc)?;
        line.add(b"\n")?;
        Ok(line)
    }

    fn text(&self, alloc: Global) -> Result<Text, NoMemory>
        ensures { Makes (refusal_text self.now) result }
    {
        match self {
            Refusal::Usage => told(alloc, b"USAGE"),
            Refusal::Refused(refused) => refused_text(alloc, refused),
            Refusal::Fault(program, fault) => {
                fault_text(alloc, program.paragraphs.as_slice(), *fault)
            }
            Refusal::Abend(abend) => abend_text(alloc, *abend),
            Refusal::Budget(steps) => numbered(alloc, b"BUDGET ", u128::from(*steps)),
            Refusal::Device(name) => device_text(alloc, name.as_slice()),
            Refusal::NoSecond => told(alloc, b"NOT SUBSET NO-SECOND LINE 1"),
            Refusal::Second(refused) => second_text(alloc, refused),
            Refusal::SecondDevice(name) => second_device_text(alloc, name.as_slice()),
            Refusal::Differ(number) => numbered(alloc, b"DIFFER AT ", *number),
            Refusal::ReadFault => told(alloc, b"READ FAULT"),
            Refusal::WriteFault => told(alloc, b"WRITE FAULT"),
            Refusal::NoMemory => told(alloc, b"NO MEMORY"),
        }
    }
}

fn refused_status(refused: &Refused) -> Status
    ensures { result ≡ refusals.refused_status refused.now }
{
    match refused {
        Refused::NotSubset(_) => Status::NotSubset,
        Refused::Flow(_, _) => Status::Flow,
        Refused::Limit(_) => Status::Limit,
        Refused::NoMemory => Status::NoMemory,
    }
}

fn refused_text(alloc: Global, refused: &Refused) -> Result<Text, NoMemory>
    ensures { Makes (refusals.refused_text refused.now) result }
{
    match refused {
        Refused::NotSubset(why) => not_subset_text(alloc, why),
        Refused::Flow(program, trail) => trail_text(alloc, program.paragraphs.as_slice(), trail),
        Refused::Limit(limit) => limit_text(alloc, limit),
        Refused::NoMemory => told(alloc, b"NO MEMORY"),
    }
}

fn not_subset_text(alloc: Global, why: &ReadFault) -> Result<Text, NoMemory>
    ensures { Makes (refusals.not_subset_text why.now) result }
{
    let kind = kind_at(alloc, why)?;
    let mut text = told(alloc, b"NOT SUBSET ")?;
    text.add(kind.as_slice())?;
    Ok(text)
}

fn abend_text(alloc: Global, abend: Abend) -> Result<Text, NoMemory>
    ensures { Makes (refusals.abend_text abend) result }
{
    match abend {
        Abend::BadDigits => told(alloc, b"ABEND BAD-DIGITS"),
        Abend::OutOfRange => told(alloc, b"ABEND OUT-OF-RANGE"),
        Abend::Io(status) => numbered(alloc, b"ABEND IO ", u128::from(status)),
    }
}

fn device_text(alloc: Global, name: &[u8]) -> Result<Text, NoMemory>
    ensures { Makes (refusals.device_text name.now) result }
{
    let mut text = told(alloc, b"DEVICE FAULT ")?;
    text.add(name)?;
    Ok(text)
}

/// Words, and a number after them.
pub fn numbered(alloc: Global, words: &[u8], number: u128) -> Result<Text, NoMemory>
    ensures { Makes (words.now ++ decimal number) result }
{
    let mut text = told(alloc, words)?;
    let number = format!(in alloc; "{number}")?;
    text.add(number.as_bytes())?;
    Ok(text)
}

fn second_text(alloc: Global, refused: &Refused) -> Result<Text, NoMemory>
    ensures { Makes (refusals.second_text refused.now) result }
{
    let why = refused_text(alloc, refused)?;
    let mut text = told(alloc, b"SECOND ")?;
    text.add(why.as_slice())?;
    Ok(text)
}

fn second_device_text(alloc: Global, name: &[u8]) -> Result<Text, NoMemory>
    ensures { Makes (refusals.second_device_text name.now) result }
{
    let mut text = told(alloc, b"DEVICE FAULT SECOND ")?;
    text.add(name)?;
    Ok(text)
}

fn limit_text(alloc: Global, limit: &Limit) -> Result<Text, NoMemory>
    ensures { Makes (limits.limit_text limit.now) result }
{
    let text = format!(in alloc; "{limit}")?;
    Ok(Text {
        bytes: text.into_bytes(),
    })
}

fn told(alloc: Global, bytes: &[u8]) -> Result<Text, NoMemory>
    ensures { Makes bytes.now result }
{
    let mut text = Text::new(alloc);
    text.add(bytes)?;
    Ok(text)
}
