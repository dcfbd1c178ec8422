//! Statements.
//!
//! A statement may hold statements, so the functions that copy them call each other.

ghost use Rattle.cob_base.specs.Answers.{Makes};
ghost use Rattle.cob_tree.specs.Parts.{AreParts, ArmsAre};

use crate::calc::{Calc, Target};
use crate::choice::{Subject, Test};
use crate::cond::Cond;
use crate::control::Control;
use crate::file::Opening;
use crate::parts::{ArmParts, StmtParts};
use crate::place::{Operand, Place};
use cob_base::{Copied, Items, NoMemory};
use std::alloc::Global;

/// The arms of READ, AT END and NOT AT END, and of arithmetic, ON SIZE ERROR and NOT ON SIZE ERROR.
#[cycle(stmt)]
#[derive(Debug)]
pub struct Arms {
    pub first: Option<Items<Stmt>>,
    pub second: Option<Items<Stmt>>,
}

/// WHEN phrases of EVALUATE that share their statements; one test that holds is enough.
#[cycle(stmt)]
#[derive(Debug)]
pub struct When {
    pub tests: Items<Test>,
    pub stmts: Items<Stmt>,
}

/// A statement. A required list of it is never empty.
#[cycle(stmt)]
#[derive(Debug)]
pub enum Stmt {
    /// `advance` is false with NO ADVANCING.
    Display {
        items: Items<Operand>,
        advance: bool,
    },
    Move {
        from: Operand,
        to: Items<Place>,
    },
    /// ADD, SUBTRACT, MULTIPLY, DIVIDE or COMPUTE.
    Arith {
        calc: Calc,
        into: Items<Target>,
        arms: Arms,
    },
    /// SET a condition name TO TRUE.
    SetTrue(Place),
    Opens(Items<Opening>),
    /// CLOSE files, by their places among the files.
    Closes(Items<u32>),
    Read {
        file: u32,
        into: Option<Place>,
        arms: Arms,
    },
    /// WRITE a record, by its place among the entries.
    Write {
        entry: u32,
        from: Option<Operand>,
    },
    Rewrite {
        entry: u32,
        from: Option<Operand>,
    },
    /// Without ELSE `no` is empty.
    If {
        cond: Cond,
        yes: Items<Stmt>,
        no: Items<Stmt>,
    },
    Evaluate {
        subject: Subject,
        whens: Items<When>,
        other: Option<Items<Stmt>>,
    },
    /// PERFORM .. END-PERFORM; its control is never `Once`.
    Loop {
        control: Control,
        body: Items<Stmt>,
    },
    /// PERFORM of paragraphs, from the entry to the exit, by their places among the paragraphs.
    Perform {
        entry: u32,
        exit: u32,
        control: Control,
    },
    /// GO TO a paragraph, by its place among the paragraphs.
    Go(u32),
    GoDepending {
        to: Items<u32>,
        on: Place,
    },
    NextSentence,
    StopRun,
    /// EXIT without a further word.
    Exit,
    ExitParagraph,
    ExitSection,
    /// EXIT PERFORM, or EXIT PERFORM CYCLE.
    ExitPerform {
        cycle: bool,
    },
    Continue,
}

impl Drop for Arms {
    #[cycle(drop_stmt)]
    fn drop(self) {
        let Arms {
            first: _,
            second: _,
        } = self;
    }
}

impl Drop for When {
    #[cycle(drop_stmt)]
    fn drop(self) {
        let When { tests: _, stmts: _ } = self;
    }
}

impl Drop for Stmt {
    #[cycle(drop_stmt)]
    fn drop(self) {
        match self {
            Stmt::Display {
                items: _,
                advance: _,
            } => {}
            Stmt::Move { from: _, to: _ } => {}
            Stmt::Arith {
                calc: _,
                into: _,
                arms: _,
            } => {}
            Stmt::SetTrue(_) => {}
            Stmt::Opens(_) => {}
            Stmt::Closes(_) => {}
            Stmt::Read {
                file: _,
                into: _,
                arms: _,
            } => {}
            Stmt::Write { entry: _, from: _ } => {}
            Stmt::Rewrite { entry: _, from: _ } => {}
            Stmt::If {
                cond: _,
                yes: _,
                no: _,
            } => {}
            Stmt::Evaluate {
                subject: _,
                whens: _,
                other: _,
            } => {}
            Stmt::Loop {
                control: _,
                body: _,
            } => {}
            Stmt::Perform {
                entry: _,
                exit: _,
                control: _,
            } => {}
            Stmt::Go(_) => {}
            Stmt::GoDepending { to: _, on: _ } => {}
            Stmt::NextSentence => {}
            Stmt::StopRun => {}
            Stmt::Exit => {}
            Stmt::ExitParagraph => {}
            Stmt::ExitSection => {}
            Stmt::ExitPerform { cycle: _ } => {}
            Stmt::Continue => {}
        }
    }
}

impl Stmt {
    /// The statement, taken apart.
    pub fn into_parts(self) -> StmtParts
        ensures { AreParts self result }
    {
        match self {
            Stmt::Display { items, advance } => StmtParts::Display { items, advance },
            Stmt::Move { from, to } => StmtParts::Move { from, to },
            Stmt::Arith { calc, into, arms } => StmtParts::Arith { calc, into, arms },
            Stmt::SetTrue(place) => StmtParts::SetTrue(place),
            Stmt::Opens(openings) => StmtParts::Opens(openings),
            Stmt::Closes(files) => StmtParts::Closes(files),
            Stmt::Read { file, into, arms } => StmtParts::Read { file, into, arms },
            Stmt::Write { entry, from } => StmtParts::Write { entry, from },
            Stmt::Rewrite { entry, from } => StmtParts::Rewrite { entry, from },
            Stmt::If { cond, yes, no } => StmtParts::If { cond, yes, no },
            Stmt::Evaluate {
                subject,
                whens,
                other,
            } => StmtParts::Evaluate {
                subject,
                whens,
                other,
            },
            Stmt::Loop { control, body } => StmtParts::Loop { control, body },
            Stmt::Perform {
                entry,
                exit,
                control,
            } => StmtParts::Perform {
                entry,
                exit,
                control,
            },
            Stmt::Go(to) => StmtParts::Go(to),
            Stmt::GoDepending { to, on } => StmtParts::GoDepending { to, on },
            Stmt::NextSentence => StmtParts::NextSentence,
            Stmt::StopRun => StmtParts::StopRun,
            Stmt::Exit => StmtParts::Exit,
            Stmt::ExitParagraph => StmtParts::ExitParagraph,
            Stmt::ExitSection => StmtParts::ExitSection,
            Stmt::ExitPerform { cycle } => StmtParts::ExitPerform { cycle },
            Stmt::Continue => StmtParts::Continue,
        }
    }
}

impl Arms {
    /// The arms, taken apart.
    pub fn into_parts(self) -> ArmParts
        ensures { ArmsAre self result }
    {
        let Arms { first, second } = self;
        ArmParts { first, second }
    }
}

#[cycle(copy_stmt)]
fn copy_stmt(alloc: Global, stmt: &Stmt) -> Result<Stmt, NoMemory>
    ensures { Makes stmt.now result }
{
    match stmt {
        Stmt::Display { items, advance } => Ok(Stmt::Display {
            items: items.copy(alloc)?,
            advance: *advance,
        }),
        Stmt::Move { from, to } => Ok(Stmt::Move {
            from: from.copy(alloc)?,
            to: to.copy(alloc)?,
        }),
        Stmt::Arith { calc, into, arms } => Ok(Stmt::Arith {
            calc: calc.copy(alloc)?,
            into: into.copy(alloc)?,
            arms: copy_arms(alloc, arms)?,
        }),
        Stmt::SetTrue(place) => Ok(Stmt::SetTrue(place.copy(alloc)?)),
        Stmt::Opens(openings) => Ok(Stmt::Opens(openings.copy(alloc)?)),
        Stmt::Closes(files) => Ok(Stmt::Closes(files.copy(alloc)?)),
        Stmt::Read { file, into, arms } => Ok(Stmt::Read {
            file: *file,
            into: into.copy(alloc)?,
            arms: copy_arms(alloc, arms)?,
        }),
        Stmt::Write { entry, from } => Ok(Stmt::Write {
            entry: *entry,
            from: from.copy(alloc)?,
        }),
        Stmt::Rewrite { entry, from } => Ok(Stmt::Rewrite {
            entry: *entry,
            from: from.copy(alloc)?,
        }),
        Stmt::If { cond, yes, no } => Ok(Stmt::If {
            cond: cond.copy(alloc)?,
            yes: copy_stmts(alloc, yes)?,
            no: copy_stmts(alloc, no)?,
        }),
        Stmt::Evaluate {
            subject,
            whens,
            other,
        } => {
            let subject = subject.copy(alloc)?;
            let whens = copy_whens(alloc, whens)?;
            let other = match other {
                None => None,
                Some(stmts) => Some(copy_stmts(alloc, stmts)?),
            };
            Ok(Stmt::Evaluate {
                subject,
                whens,
                other,
            })
        }
        Stmt::Loop { control, body } => Ok(Stmt::Loop {
            control: control.copy(alloc)?,
            body: copy_stmts(alloc, body)?,
        }),
        Stmt::Perform {
            entry,
            exit,
            control,
        } => Ok(Stmt::Perform {
            entry: *entry,
            exit: *exit,
            control: control.copy(alloc)?,
        }),
        Stmt::Go(to) => Ok(Stmt::Go(*to)),
        Stmt::GoDepending { to, on } => Ok(Stmt::GoDepending {
            to: to.copy(alloc)?,
            on: on.copy(alloc)?,
        }),
        Stmt::NextSentence => Ok(Stmt::NextSentence),
        Stmt::StopRun => Ok(Stmt::StopRun),
        Stmt::Exit => Ok(Stmt::Exit),
        Stmt::ExitParagraph => Ok(Stmt::ExitParagraph),
        Stmt::ExitSection => Ok(Stmt::ExitSection),
        Stmt::ExitPerform { cycle } => Ok(Stmt::ExitPerform { cycle: *cycle }),
        Stmt::Continue => Ok(Stmt::Continue),
    }
}

#[cycle(copy_stmt)]
fn copy_arms(alloc: Global, arms: &Arms) -> Result<Arms, NoMemory>
    ensures { Makes arms.now result }
{
    let first = match &arms.first {
        None => None,
        Some(stmts) => Some(copy_stmts(alloc, stmts)?),
    };
    let second = match &arms.second {
        None => None,
        Some(stmts) => Some(copy_stmts(alloc, stmts)?),
    };
    Ok(Arms { first, second })
}

#[cycle(copy_stmt)]
fn copy_stmts(alloc: Global, stmts: &Items<Stmt>) -> Result<Items<Stmt>, NoMemory>
    ensures { Makes stmts.now result }
{
    let mut copies = Items::new(alloc);
    for stmt in stmts.as_slice() {
        copies.push(copy_stmt(alloc, stmt)?)?;
    }
    Ok(copies)
}

#[cycle(copy_stmt)]
fn copy_whens(alloc: Global, whens: &Items<When>) -> Result<Items<When>, NoMemory>
    ensures { Makes whens.now result }
{
    let mut copies = Items::new(alloc);
    for when in whens.as_slice() {
        copies.push(copy_when(alloc, when)?)?;
    }
    Ok(copies)
}

#[cycle(copy_stmt)]
fn copy_when(alloc: Global, when: &When) -> Result<When, NoMemory>
    ensures { Makes when.now result }
{
    let tests = when.tests.copy(alloc)?;
    let stmts = copy_stmts(alloc, &when.stmts)?;
    Ok(When { tests, stmts })
}

impl Copied for Arms {
    fn copy(&self, alloc: Global) -> Result<Arms, NoMemory> {
        copy_arms(alloc, self)
    }
}

impl Copied for When {
    fn copy(&self, alloc: Global) -> Result<When, NoMemory> {
        copy_when(alloc, self)
    }
}

impl Copied for Stmt {
    fn copy(&self, alloc: Global) -> Result<Stmt, NoMemory> {
        copy_stmt(alloc, self)
    }
}
