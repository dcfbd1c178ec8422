//! Statuses: where they are stored, and how a statement ends by them.

ghost use Rattle.std.specs.Prelude.{◌≡◌, ◌&&◌, ◌||◌, is_some, not, option_copied};
ghost use Rattle.meanings.specs.statements.Does.{declared_with};
ghost use Rattle.meanings.specs.statements.Filing.{always_ends, end_by, status_bytes, status_by, status_place, status_spot, with_status};
ghost use Rattle.cob_act.specs.files.Ends.{ended_as};

use crate::ActOutcome;
use cob_store::{Areas, Spot, Store};
use cob_tree::{Abend, FileEntry, Place, Program};

fn status_by(file: Option<&FileEntry>) -> Option<&Place>
    ensures { option_copied result ≡ status_by (option_copied file.entry) }
{
    match file {
        None => None,
        Some(file) => match &file.status {
            None => None,
            Some(place) => Some(place),
        },
    }
}

fn status_place<'a>(program: &'a Program, areas: &Areas, file: u32) -> Option<&'a Place>
    ensures { option_copied result ≡ status_place (declared_with program.now areas.now) file }
{
    status_by(program.files.get(file as usize))
}

/// The spot of a file's status item, where it has one. It is reached before an operation.
pub fn status_spot(
    program: &Program,
    areas: &Areas,
    store: &Store,
    file: u32,
) -> Result<Option<Spot>, Abend>
    ensures { result ≡ status_spot (declared_with program.now areas.now) store.now
        (status_place (declared_with program.now areas.now) file) }
{
    match status_place(program, areas, file) {
        None => Ok(None),
        Some(place) => {
            let spot = store.reach(areas, program.entries.as_slice(), place)?;
            Ok(Some(spot))
        }
    }
}

fn status_bytes(status: u8) -> [u8; 2]
    ensures { result ≡ status_bytes status }
{
    [b'0' + status / 10, b'0' + status % 10]
}

fn put_status(store: &mut Store, item: Option<Spot>, status: u8)
    ensures { store.new ≡ with_status store.old item status }
{
    if let Some(spot) = item {
        let bytes = status_bytes(status);
        store.put_bytes(spot, &bytes);
    }
}

// 46 and 47 end the run whatever the program has.
fn always_ends(status: u8) -> bool
    ensures { result ≡ always_ends status }
{
    status == 46 || status == 47
}

// A status other than 00 ends the run, where the program doesn't handle it.
fn end_by(cared: bool, status: u8) -> ActOutcome
    ensures { ended_as result ≡ end_by cared status }
{
    if status == 0 || cared {
        ActOutcome::Went
    } else {
        ActOutcome::Abended(Abend::Io(status))
    }
}

/// Stores the status, and says how the statement ends.
pub fn settled(store: &mut Store, item: Option<Spot>, cared: bool, status: u8) -> ActOutcome
    ensures end { ended_as result
        ≡ end_by ((is_some item || cared) && not (always_ends status)) status }
    ensures store { store.new ≡ with_status store.old item status }
{
    put_status(store, item, status);
    end_by((item.is_some() || cared) && !always_ends(status), status)
}
