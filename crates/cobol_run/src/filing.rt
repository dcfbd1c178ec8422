//! Statements on files.

ghost use Rattle.std.specs.Prelude.{◌≡◌, ℕ, IfErr, IfOk, IsTrue, false, not, option_copied};
ghost use Rattle.cob_act.specs.Acting.{is_inner};
ghost use Rattle.control_flow_theory.specs.semantics.Items.{item_way};
ghost use Rattle.cobol_theory.specs.cobol_meaning.Runs.{doing_in};
ghost use Rattle.cob_act.specs.files.Ends.{DoneOver};
ghost use Rattle.cob_act.specs.files.Over.{IsOver};
ghost use Rattle.cob_act.specs.files.Work.{Keeps};
ghost use Rattle.file_model.specs.World.{World};
ghost use Rattle.control_flow_theory.specs.language.Control.{seen};
ghost use Rattle.control_flow_theory.specs.language.Items.{Do};
ghost use Rattle.cobol_run.specs.Events.{IsFiled};
ghost use Rattle.cobol_run.specs.Filing.{StandsInNone};
ghost use Rattle.cobol_run.specs.Frames.{rest_of};
ghost use Rattle.cobol_run.specs.Over.{FiledBreaks, FiledOver, armed_rest};
ghost use Rattle.cobol_run.specs.Plan.{declared_by, memory_in};
ghost use Rattle.cobol_run.specs.Points.{stmt_operations};
ghost use Rattle.cobol_run.specs.NextStep.{KeepsPending};

use crate::frames::{Frames, push_stmts};
use crate::held::{Held, Plan};
use crate::next_step::stmts_or_none;
use cob_act::files::{
    FileWork, ReadRequest, WriteRequest, all_opened, all_shut, read_one, rewritten, written,
};
use cob_act::{ActOutcome, has_arms};
use cob_tree::{Arms, Place, Stmt};
use file_model::operations::{FileFault, Shown};
use file_model::{Bench, FileTable};

/// Whether a statement is one on files.
#[tactic(auto, using(crate::proofs::FilingLemmas::filing_none, crate::proofs::EventLemmas::filing_shows))]
pub fn is_filing(stmt: &Stmt) -> bool
    ensures of { result ≡ not (is_inner stmt.now) }
    ensures none { IsTrue result → StandsInNone stmt.now }
    ensures shows { IsTrue result → IsFiled stmt.now }
{
    match stmt {
        Stmt::Opens(_) => true,
        Stmt::Closes(_) => true,
        Stmt::Read { .. } => true,
        Stmt::Write { .. } => true,
        Stmt::Rewrite { .. } => true,
        _ => false,
    }
}

fn place_of(place: &Option<Place>) -> Option<&Place>
    ensures { option_copied result ≡ place.now }
{
    match place {
        None => None,
        Some(place) => Some(place),
    }
}

// Makes the arm that a READ chose the first thing to be done.
fn push_arm<'a>(
    frames: &mut Frames<'a>,
    arms: &'a Arms,
    done: ActOutcome,
) -> Result<ActOutcome, FileFault>
    ensures error { IfErr result (λ fault. fault ≡ FileFault.NoMemory) }
    ensures same { IfOk result (λ now. now ≡ done) }
    ensures rest { IfOk result (λ now. (last : ℕ) → rest_of last frames.new
        ≡ armed_rest last done arms.now (rest_of last frames.old)) }
    ensures pending { IfOk result (λ now. KeepsPending frames.old frames.new) }
{
    match done {
        ActOutcome::Chose(1) => push_stmts(frames, stmts_or_none(&arms.first))?,
        ActOutcome::Chose(_) => push_stmts(frames, stmts_or_none(&arms.second))?,
        _ => {}
    }
    Ok(done)
}

/// Does a statement on files over a bench; any other statement does nothing.
#[tactic(auto, using(crate::proofs::FallLemmas::arm_asks_none, crate::proofs::FallLemmas::none_fell))]
pub fn filed<'a>(
    plan: &Plan,
    frames: &mut Frames<'a>,
    held: &mut Held,
    table: &mut FileTable,
    bench: &mut Bench,
    stmt: &'a Stmt,
    work: &mut FileWork,
) -> Result<ActOutcome, FileFault>
    ensures bench { DoneOver result plan.now.program.now.files bench.old.left bench.new.left
        (⟦<Bench as Shown>⟧.all bench.old) (⟦<Bench as Shown>⟧.all bench.new) table.new.rows }

    // over devices whose files are known it does what its meaning says
    ensures over { (world : World) → is_inner stmt.now ≡ false → IsOver plan.now.program.now.files
        (⟦<Bench as Shown>⟧.on bench.old)
        table.old.rows world → FiledOver result plan.now.program.now.files
        (⟦<Bench as Shown>⟧.on bench.new) table.new.rows held.new.store frames.new
        (λ last. item_way (doing_in (declared_by plan.now)) (Do (seen last stmt.now))
        (rest_of last frames.old) (memory_in held.old.store world)) }
    ensures breaks { (world : World) → is_inner stmt.now ≡ false →
        IsOver plan.now.program.now.files (⟦<Bench as Shown>⟧.on bench.old)
        table.old.rows world → FiledBreaks result plan.now.program.now.files world
        (λ last. stmt_operations (declared_by plan.now) (seen last stmt.now)
        (memory_in held.old.store world)) bench.new.left
        (⟦<Bench as Shown>⟧.all bench.new) table.new.rows }
    ensures pending { IfOk result (λ done. KeepsPending frames.old frames.new) }
    ensures logged { (world : World) (last : ℕ) → is_inner stmt.now ≡ false →
        IsOver plan.now.program.now.files (⟦<Bench as Shown>⟧.on bench.old)
        table.old.rows world → Keeps result work.old work.new
        (stmt_operations (declared_by plan.now) (seen last stmt.now)
        (memory_in held.old.store world)) }
    ensures keeps { work.new.keeps ≡ work.old.keeps }
{
    let store = &mut held.store;
    let program = plan.program;
    let areas = &plan.areas;
    match stmt {
        Stmt::Opens(openings) => {
            let openings = openings.as_slice();
            all_opened(program, areas, store, bench, table, openings, work)
        }
        Stmt::Closes(files) => {
            all_shut(program, areas, store, bench, table, files.as_slice(), work)
        }
        Stmt::Read { file, into, arms } => {
            let reading = ReadRequest {
                file: *file,
                into: place_of(into),
                at_end: arms.first.is_some(),
                arms: has_arms(arms),
            };
            let done = read_one(program, areas, store, work, bench, table, reading)?;
            push_arm(frames, arms, done)
        }
        Stmt::Write { entry, from } => {
            let writing = WriteRequest {
                entry: *entry,
                from: from.as_ref(),
            };
            written(program, areas, store, work, bench, table, writing)
        }
        Stmt::Rewrite { entry, from } => {
            let writing = WriteRequest {
                entry: *entry,
                from: from.as_ref(),
            };
            rewritten(program, areas, store, work, bench, table, writing)
        }
        _ => Ok(ActOutcome::Went),
    }
}
