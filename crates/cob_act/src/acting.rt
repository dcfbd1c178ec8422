//! Statements that need no device.

ghost use Rattle.std.specs.Prelude.{◌≡◌, ℕ, List, [], IfErr, IfOk, IsTrue};
ghost use Rattle.file_model.specs.World.{World};
ghost use Rattle.meanings.specs.statements.Does.{chooses, declared_with, does, has_arms, of_moves, of_sum, shows};
ghost use Rattle.cob_act.specs.Acting.{effect_by, is_inner};
ghost use Rattle.cob_act.specs.Display.{with_bytes};
ghost use Rattle.cob_act.specs.Moving.{outcome_of};

use crate::arithmetic::calculated;
use crate::choice::{evaluated, if_chosen};
use crate::display::displayed;
use crate::moving::{moved, set};
use cob_base::{NoMemory, Text};
use cob_store::{Areas, Store};
use cob_tree::{Abend, Arms, Program, Stmt};

/// What a statement did.
#[derive(Clone, Copy, Debug, PartialEq, Eq)]
pub enum ActOutcome {
    Went,
    /// It went on, and showed bytes.
    Shown,
    Chose(usize),
    Abended(Abend),
}

fn of_moves(answer: Result<(), Abend>) -> ActOutcome
    ensures { (world : World) → (store : List (List ℕ)) → (shown : List ℕ) →
        effect_by world store shown result ≡ of_moves (outcome_of store answer) }
{
    match answer {
        Ok(()) => ActOutcome::Went,
        Err(abend) => ActOutcome::Abended(abend),
    }
}

fn chooses(answer: Result<usize, Abend>) -> ActOutcome
    ensures { (world : World) → (store : List (List ℕ)) → (shown : List ℕ) →
        effect_by world store shown result ≡ chooses store answer }
{
    match answer {
        Ok(arm) => ActOutcome::Chose(arm),
        Err(abend) => ActOutcome::Abended(abend),
    }
}

fn shows(answer: Result<(), Abend>) -> ActOutcome
    ensures { (world : World) → (store : List (List ℕ)) → (shown : List ℕ) →
        effect_by world store shown result ≡ shows store world (with_bytes answer shown) }
{
    match answer {
        Ok(()) => ActOutcome::Shown,
        Err(abend) => ActOutcome::Abended(abend),
    }
}

/// Whether READ or arithmetic has a phrase with statements.
pub fn has_arms(arms: &Arms) -> bool
    ensures { result ≡ has_arms arms.now }
{
    arms.first.is_some() || arms.second.is_some()
}

// With a SIZE phrase the first arm is taken where a receiver had a size error, otherwise the
// second.
fn of_sum(guarded: bool, answer: Result<bool, Abend>) -> ActOutcome
    ensures { (world : World) → (store : List (List ℕ)) → (shown : List ℕ) →
        effect_by world store shown result ≡ of_sum guarded store answer }
{
    match answer {
        Err(abend) => ActOutcome::Abended(abend),
        Ok(error) => {
            if !guarded {
                ActOutcome::Went
            } else if error {
                ActOutcome::Chose(1)
            } else {
                ActOutcome::Chose(2)
            }
        }
    }
}

/// Does a statement that needs no device. The bytes that it shows are put into `shown`, which must
/// be empty; `scratch` is room for what MOVE copies. Without memory the store stays.
pub fn act(
    program: &Program,
    areas: &Areas,
    store: &mut Store,
    scratch: &mut Vec<u8>,
    shown: &mut Text,
    stmt: &Stmt,
) -> Result<ActOutcome, NoMemory>
    requires inner { IsTrue (is_inner stmt.now) }
    requires empty { shown.old ≡ [] }
    ensures does { IfOk result (λ done. (world : World) → effect_by world store.new shown.new done
        ≡ does (declared_with program.now areas.now) stmt.now store.old world) }
    ensures kept { IfErr result (λ e. store.new ≡ store.old) }
{
    let entries = program.entries.as_slice();
    let areas = areas.items.as_slice();
    match stmt {
        Stmt::Display { items, advance } => {
            let answer = displayed(areas, store, shown, items.as_slice(), *advance)?;
            Ok(shows(answer))
        }
        Stmt::Move { from, to } => {
            let answer = moved(areas, store, scratch, from, to.as_slice())?;
            Ok(of_moves(answer))
        }
        Stmt::Arith { calc, into, arms } => {
            let guarded = has_arms(arms);
            let answer = calculated(areas, store, calc, guarded, into.as_slice());
            Ok(of_sum(guarded, answer))
        }
        Stmt::SetTrue(place) => {
            let answer = set(entries, areas, store, scratch, place)?;
            Ok(of_moves(answer))
        }
        Stmt::If { cond, .. } => Ok(chooses(if_chosen(entries, areas, store, cond))),
        Stmt::Evaluate { subject, whens, .. } => Ok(chooses(evaluated(
            entries,
            areas,
            store,
            subject,
            whens.as_slice(),
        ))),
        _ => Ok(ActOutcome::Went),
    }
}
