//! One step of a plain program, as its source meaning says.

ghost use Rattle.std.specs.Prelude.{◌≡◌, ◌<◌, length, slice_get, Some, IfOk, OnOk, OnErr};
ghost use Rattle.std.specs.Vec.{vec_len, vec_capacity};
ghost use Rattle.meanings.specs.declared.plain.state.Waiting.{Waiting};
ghost use Rattle.meanings.specs.plain.Seen.{IsBegun, IsStep};
ghost use Rattle.meanings.specs.plain.Stepped.{stepped, performed, entered, ended, fallen, gone, returned};

use crate::plain::next::{Next, next_of};
use crate::plain::rest::{is_pending, put_first, whole_rest, with_room};
use crate::plain::state::{Item, Over, PlainState, Waiting};
use cob_base::{Items, NoMemory, Text};
use cob_tree::{FlowFault, Program};
use std::alloc::Global;
use std::mem;

/// A run at its beginning.
pub fn begun(alloc: Global, program: &Program) -> Result<PlainState, NoMemory>
    ensures { IfOk result (λ state. IsBegun program.now state) }
{
    let rest = whole_rest(alloc, program, 0)?;
    Ok(PlainState {
        paragraph: 0,
        rest,
        pending: Items::new(alloc),
        shown: Text::new(alloc),
        over: None,
    })
}

/// Makes one step. A state that is over stays, and so does one for whose step there is no memory. A
/// statement that isn't of the plain form is dropped.
pub fn plain_step(alloc: Global, program: &Program, state: &mut PlainState) -> Result<(), NoMemory>
    ensures ok { OnOk result (IsStep program.now state.old state.new) }
    ensures err { OnErr result (state.new ≡ state.old) }
{
    step(alloc, program, state)
}

fn step(alloc: Global, program: &Program, state: &mut PlainState) -> Result<(), NoMemory>
    ensures ok { OnOk result (state.new ≡ stepped program.now state.old state.old.over) }
    ensures err { OnErr result (state.new ≡ state.old) }
{
    match state.over {
        Some(_) => Ok(()),
        None => match next_of(alloc, state.rest.as_slice())? {
            Next::Ends => end(alloc, program, state),
            Next::Drops => {
                state.rest.drop_first();
                Ok(())
            }
            Next::Shows(bytes) => {
                state.shown.add(bytes.as_slice())?;
                state.rest.drop_first();
                Ok(())
            }
            Next::Goes(to) => go_to(alloc, program, state, to),
            Next::Performs(entry, exit) => perform(alloc, program, state, entry, exit),
            Next::Stops => {
                state.over = Some(Over::Stopped);
                Ok(())
            }
        },
    }
}

fn go_to(
    alloc: Global,
    program: &Program,
    state: &mut PlainState,
    number: u32,
) -> Result<(), NoMemory>
    ensures ok { OnOk result (state.new ≡ gone program.now number state.old) }
    ensures err { OnErr result (state.new ≡ state.old) }
{
    state.rest = whole_rest(alloc, program, number)?;
    state.paragraph = number;
    Ok(())
}

fn perform(
    alloc: Global,
    program: &Program,
    state: &mut PlainState,
    entry: u32,
    exit: u32,
) -> Result<(), NoMemory>
    ensures ok { OnOk result (state.new ≡ performed program.now entry exit state.old) }
    ensures err { OnErr result (state.new ≡ state.old) }
{
    if is_pending(exit, state.pending.as_slice()) {
        state.over = Some(Over::Fault(FlowFault::Reentry(exit)));
        return Ok(());
    }
    let rest = whole_rest(alloc, program, entry)?;
    match with_room(mem::replace(&mut state.pending, Items::new(alloc))) {
        Err(same) => {
            state.pending = same;
            Err(NoMemory)
        }
        Ok(room) => {
            enter(state, entry, exit, rest, room);
            Ok(())
        }
    }
}

// Enters a range, with this whole rest, and puts its return before the other ones.
fn enter(state: &mut PlainState, entry: u32, exit: u32, rest: Items<Item>, others: Vec<Waiting>)
    requires { vec_len others < vec_capacity others }
    ensures { state.new ≡ entered entry exit rest others.items state.old }
{
    let mut left = mem::replace(&mut state.rest, rest);
    left.drop_first();
    let waiting = Waiting {
        end: exit,
        paragraph: state.paragraph,
        rest: left,
    };
    state.pending = put_first(others, waiting);
    state.paragraph = entry;
}

// Takes the end of a paragraph: a pending return, or the next paragraph.
fn end(alloc: Global, program: &Program, state: &mut PlainState) -> Result<(), NoMemory>
    ensures ok { OnOk result (state.new ≡ ended program.now state.old (slice_get state.old.pending 0)) }
    ensures err { OnErr result (state.new ≡ state.old) }
{
    match state.pending.get(0) {
        None => fall(alloc, program, state),
        Some(top) => {
            if top.end == state.paragraph {
                take_return(alloc, state);
                Ok(())
            } else if is_pending(state.paragraph, state.pending.as_slice()) {
                state.over = Some(Over::Fault(FlowFault::Overlap(state.paragraph)));
                Ok(())
            } else {
                fall(alloc, program, state)
            }
        }
    }
}

// Takes the return that was made last.
fn take_return(alloc: Global, state: &mut PlainState)
    requires { 0 < length state.old.pending }
    ensures { (top : Waiting) → slice_get state.old.pending 0 ≡ Some top
        → state.new ≡ returned state.old top }
{
    let mut pending = mem::replace(&mut state.pending, Items::new(alloc)).into_vec();
    let top = pending.remove(0);
    state.pending = Items::from_vec(pending);
    let Waiting {
        end: _,
        paragraph,
        rest,
    } = top;
    state.paragraph = paragraph;
    state.rest = rest;
}

// Goes on to the next paragraph; after the last one the run stops.
fn fall(alloc: Global, program: &Program, state: &mut PlainState) -> Result<(), NoMemory>
    ensures ok { OnOk result (state.new ≡ fallen program.now state.old) }
    ensures err { OnErr result (state.new ≡ state.old) }
{
    let next = state.paragraph as usize + 1;
    match program.paragraphs.get(next) {
        None => {
            state.over = Some(Over::Stopped);
            Ok(())
        }
        Some(_) => match u32::try_from(next) {
            Ok(number) => go_to(alloc, program, state, number),
            Err(_) => Err(NoMemory),
        },
    }
}
