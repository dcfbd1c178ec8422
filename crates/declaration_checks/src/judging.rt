//! The first fault of all entries.

ghost use Rattle.std.specs.Prelude.{◌≡◌, ◌<◌, ◌^◌, length};
ghost use Rattle.std.specs.List.{fold};
ghost use Rattle.declaration_checks.specs.Declaring as declaring;
ghost use Rattle.declaration_checks.specs.FileNames.{names_of};
ghost use Rattle.declaration_checks.specs.Tables.{tables_of};

use crate::fault::first_of;
use crate::file::{fds_fault, selects_fault};
use crate::file_names::FileNames;
use crate::rule::entry_fault;
use crate::table::Tables;
use cob_tree::Entry;
use cobol_grammar::data_forms::{Divisions, EntryDraft, FdDraft};
use parser_combinators::Note;

/// How many entries were judged, and their first fault.
#[derive(Clone, Copy, Debug)]
pub struct Judged {
    pub at: usize,
    pub fault: Option<Note>,
}

fn judge(
    bases: &[Entry],
    sizes: &[u32],
    tables: &Tables,
    judged: Judged,
    draft: &EntryDraft,
) -> Judged
    requires short { length bases.now < 2 ^ 31 }
    requires table { tables.now ≡ tables_of bases.now tables.now.usages }
    ensures { result ≡ declaring.judge bases.now sizes.now tables.now.usages judged draft.now }
{
    let at = judged.at;
    match bases.get(at) {
        None => judged,
        Some(entry) => Judged {
            at: at + 1,
            fault: first_of(
                judged.fault,
                entry_fault(bases, sizes, tables, at, entry, draft),
            ),
        },
    }
}

#[tactic(auto, using(crate::proofs::StepLemmas::fold_step))]
fn judge_all(
    bases: &[Entry],
    sizes: &[u32],
    tables: &Tables,
    judged: Judged,
    drafts: &[EntryDraft],
) -> Judged
    requires short { length bases.now < 2 ^ 31 }
    requires table { tables.now ≡ tables_of bases.now tables.now.usages }
    ensures { result
        ≡ declaring.judge_all bases.now sizes.now tables.now.usages judged drafts.now }
{
    let mut found = judged;
    for draft in drafts {
        found = judge(bases, sizes, tables, found, draft);
    }
    found
}

#[tactic(auto, using(crate::proofs::StepLemmas::fold_step))]
fn judge_records(
    bases: &[Entry],
    sizes: &[u32],
    tables: &Tables,
    judged: Judged,
    fds: &[FdDraft],
) -> Judged
    requires short { length bases.now < 2 ^ 31 }
    requires table { tables.now ≡ tables_of bases.now tables.now.usages }
    ensures { result
        ≡ fold (declaring.judge_records bases.now sizes.now tables.now.usages) judged fds.now }
{
    let mut found = judged;
    for fd in fds {
        found = judge_all(bases, sizes, tables, found, fd.entries.as_slice());
    }
    found
}

#[tactic(auto, using(crate::proofs::FileLemmas::selects_named, crate::proofs::FileLemmas::fds_named))]
fn files_fault(divisions: &Divisions, names: &FileNames) -> Option<Note>
    requires { names.now ≡ names_of divisions.now.selects divisions.now.data_part.fds }
    ensures { result ≡ declaring.files_fault divisions.now }
{
    let selects = divisions.selects.as_slice();
    let fds = divisions.data_part.fds.as_slice();
    first_of(selects_fault(names, selects), fds_fault(names, fds))
}

/// The first fault of the files and entries, which have these names and sizes.
pub fn fault_by(
    bases: &[Entry],
    sizes: &[u32],
    tables: &Tables,
    names: &FileNames,
    divisions: &Divisions,
) -> Option<Note>
    requires short { length bases.now < 2 ^ 31 }
    requires names { names.now ≡ names_of divisions.now.selects divisions.now.data_part.fds }
    requires table { tables.now ≡ tables_of bases.now tables.now.usages }
    ensures { result ≡ (declaring.judged_by bases.now sizes.now tables.now.usages
        (declaring.start_of divisions.now) divisions.now).fault }
{
    let start = Judged {
        at: 0,
        fault: files_fault(divisions, names),
    };
    let records = divisions.data_part.fds.as_slice();
    let storage = divisions.data_part.storage.as_slice();
    let judged = judge_records(bases, sizes, tables, start, records);
    let all = judge_all(bases, sizes, tables, judged, storage);
    all.fault
}
