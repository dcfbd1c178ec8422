//! Places, from the last statement of a list to its first.

ghost use Rattle.std.specs.Prelude.{ℕ, Bool, ◌≡◌, ◌<◌, ◌≤◌, ◌+◌, ◌^◌, ◌++◌, ◌∷◌, [], false, Some, None, length, slice_get, IfOk};
ghost use Rattle.program_points.specs.declared.point_table.table.ProgramPoint.TheVariants.{Chooses, Goes};
ghost use Rattle.control_flow_theory.specs.language.Language.{Chooser, also, none, Loop, Perform, Performed, Go, GoDepending, ExitParagraph, ExitSection};
ghost use Rattle.control_flow_theory.specs.language.Language as language;
ghost use Rattle.cob_tree.specs.declared.stmt.Arms.{out-Arms};
ghost use Rattle.control_flow_theory.specs.language.Control.{control_in, loop_of, perform_of, seen, seen_stmts};
ghost use Rattle.program_points.specs.numbering.Kind.{kind_in, never_first_of};
ghost use Rattle.program_points.specs.numbering.Build.{Builds, BuildsBoth, BuildsBranches, IsClosed, IsHere, after_at, inside, seen_branches, two_ways};

use crate::numbering::kind::{LoopStart, is_silent, kind_of};
use crate::perform_ranges::place_of;
use crate::point_table::ProgramPoint;
use cob_base::{Items, NoMemory};
use cob_tree::{Arms, Control, FileEntry, Range, Stmt, When};
use std::alloc::Global;

/// The places so far, and the ranges that they perform.
#[derive(Debug, Drop)]
pub struct Builder {
    pub places: Vec<ProgramPoint>,
    pub ranges: Vec<Range>,
    /// How many paragraphs there are; the first places are their starts, and the next their ends.
    pub count: u32,
}

/// The paragraph of some statements, and the last one of its section.
#[derive(Clone, Copy, Debug, PartialEq, Eq)]
pub struct Here {
    pub number: u32,
    pub last: u32,
}

/// Where control goes on from statements: after them, after their sentence, and after the innermost
/// loop around them or at its next turn.
#[derive(Clone, Copy, Debug, PartialEq, Eq)]
pub struct Exits {
    pub after: u32,
    pub leave: u32,
    pub broken: u32,
    pub cycled: u32,
}

impl Exits {
    /// The exits of the body of a loop whose next turn begins at this place.
    pub fn inside(self, turn: u32) -> Exits
        ensures { result ≡ inside self turn }
    {
        Exits {
            after: turn,
            leave: self.leave,
            broken: self.after,
            cycled: turn,
        }
    }

    /// The same exits, for what comes before statements that begin at this place.
    pub fn behind(self, place: u32) -> Exits
        ensures { result ≡ after_at self place }
    {
        Exits {
            after: place,
            leave: self.leave,
            broken: self.broken,
            cycled: self.cycled,
        }
    }
}

impl Builder {
    /// Adds a place. Out of memory also where 32 bits don't number it: all places are counted.
    pub fn add(&mut self, place: ProgramPoint) -> Result<u32, NoMemory>
        ensures added { IfOk result (λ number. (number ≡ length self.old.places.items)
            × (self.new.places.items ≡ self.old.places.items ++ place ∷ [])) }
        ensures ranges { self.new.ranges.items ≡ self.old.ranges.items }
        ensures count { self.new.count ≡ self.old.count }
        ensures longer { length self.old.places.items ≤ length self.new.places.items }
    {
        let number = self.places.len();
        if number >= u32::MAX as usize {
            return Err(NoMemory);
        }
        self.places.push(place)?;
        Ok(number as u32)
    }

    /// The number of a range: it is found by binary search, and a range that isn't there is added.
    /// Out of memory also where 32 bits don't number it.
    pub fn range_number(&mut self, range: Range) -> Result<u32, NoMemory>
        ensures number { IfOk result
            (λ number. slice_get self.new.ranges.items number ≡ Some range) }
        ensures kept { (number : ℕ) (known : Range) → slice_get self.old.ranges.items number
            ≡ Some known → slice_get self.new.ranges.items number ≡ Some known }
        ensures places { self.new.places.items ≡ self.old.places.items }
        ensures count { self.new.count ≡ self.old.count }
        ensures longer { length self.old.places.items ≤ length self.new.places.items }
    {
        let place = place_of(self.ranges.as_slice(), range);
        match self.ranges.get(place) {
            Some(known) => {
                if *known == range {
                    return match u32::try_from(place) {
                        Ok(number) => Ok(number),
                        Err(_) => Err(NoMemory),
                    };
                }
            }
            None => {}
        }
        let number = self.ranges.len();
        if number >= u32::MAX as usize {
            return Err(NoMemory);
        }
        self.ranges.push(range)?;
        Ok(number as u32)
    }

    /// The place at a paragraph's end.
    pub fn end_place(&self, paragraph: u32) -> u32
        requires there { paragraph < self.now.count }
        requires few { self.now.count + self.now.count < 2 ^ 32 }
        ensures { result ≡ self.now.count + paragraph }
    {
        self.count + paragraph
    }

    /// Adds a place with two ways, the first of which is missing where `barred` says so.
    pub fn choose_two(
        &mut self,
        alloc: Global,
        barred: bool,
        first: u32,
        second: u32,
    ) -> Result<u32, NoMemory>
        ensures added { IfOk result (λ number. (number ≡ length self.old.places.items)
            × (self.new.places.items ≡ self.old.places.items
            ++ Chooses (two_ways barred first second) ∷ [])) }
        ensures ranges { self.new.ranges.items ≡ self.old.ranges.items }
        ensures count { self.new.count ≡ self.old.count }
        ensures longer { length self.old.places.items ≤ length self.new.places.items }
    {
        let mut ways = Items::new(alloc);
        let before = if barred { None } else { Some(first) };
        ways.push(before)?;
        ways.push(Some(second))?;
        self.add(ProgramPoint::Chooses(ways))
    }

    /// Adds a place with these ways and one more.
    pub fn choose_last(&mut self, ways: Items<Option<u32>>, last: u32) -> Result<u32, NoMemory>
        ensures added { IfOk result (λ number. (number ≡ length self.old.places.items)
            × (self.new.places.items ≡ self.old.places.items ++ Chooses (ways ++ Some last ∷ []) ∷
            [])) }
        ensures ranges { self.new.ranges.items ≡ self.old.ranges.items }
        ensures count { self.new.count ≡ self.old.count }
        ensures longer { length self.old.places.items ≤ length self.new.places.items }
    {
        let mut all = ways;
        all.push(Some(last))?;
        self.add(ProgramPoint::Chooses(all))
    }

    /// Completes a loop, whose body has been added, and answers where it begins.
    pub fn close_loop(
        &mut self,
        alloc: Global,
        kind: LoopStart,
        turn: u32,
        after: u32,
        start: u32,
    ) -> Result<u32, NoMemory>
        requires { turn < length self.old.places.items }
        ensures closed { IfOk result
            (λ begin. IsClosed kind turn after start begin self.old.places.items
            self.new.places.items) }
        ensures ranges { self.new.ranges.items ≡ self.old.ranges.items }
        ensures count { self.new.count ≡ self.old.count }
        ensures longer { length self.old.places.items ≤ length self.new.places.items }
    {
        let mut ways = Items::new(alloc);
        ways.push(Some(after))?;
        ways.push(Some(start))?;
        self.places[turn as usize] = ProgramPoint::Chooses(ways);
        match kind {
            LoopStart::Before => self.add(ProgramPoint::Goes(turn)),
            LoopStart::After => self.add(ProgramPoint::Goes(start)),
            LoopStart::Again => {
                let first = self.choose_two(alloc, false, after, start)?;
                self.add(ProgramPoint::Goes(first))
            }
        }
    }

    /// The place of a PERFORM of paragraphs without a loop.
    pub fn build_call(
        &mut self,
        here: Here,
        entry: u32,
        exit: u32,
        exits: Exits,
    ) -> Result<u32, NoMemory>
        ensures builds { IfOk result
            (λ begin. (never_first : Chooser → Bool) → Builds never_first self.old.count here.number
            self.old.places.items self.new.places.items self.old.ranges.items self.new.ranges.items
            (also (Perform entry exit) none) exits begin) }
        ensures count { self.new.count ≡ self.old.count }
        ensures longer { length self.old.places.items ≤ length self.new.places.items }
    {
        let range = self.range_number(Range {
            entry,
            exit: Some(exit),
        })?;
        self.add(ProgramPoint::Calls {
            range,
            after: exits.after,
        })
    }

    /// The place of a PERFORM of paragraphs with a loop.
    pub fn build_call_loop(
        &mut self,
        alloc: Global,
        here: Here,
        entry: u32,
        exit: u32,
        kind: LoopStart,
        exits: Exits,
    ) -> Result<u32, NoMemory>
        ensures builds { IfOk result
            (λ begin. (never_first : Chooser → Bool) (control : language.Control) → kind_in control
            ≡ kind →
            Builds never_first self.old.count here.number
            self.old.places.items self.new.places.items self.old.ranges.items self.new.ranges.items
            (also (Loop control (Performed entry exit)) none) exits begin) }
        ensures count { self.new.count ≡ self.old.count }
        ensures longer { length self.old.places.items ≤ length self.new.places.items }
    {
        let turn = self.add(ProgramPoint::Stops)?;
        let inner = exits.inside(turn);
        let start = self.build_call(here, entry, exit, inner)?;
        self.close_loop(alloc, kind, turn, exits.after, start)
    }

    /// The place of a PERFORM of paragraphs.
    pub fn build_perform(
        &mut self,
        alloc: Global,
        here: Here,
        entry: u32,
        exit: u32,
        control: &Control,
        exits: Exits,
    ) -> Result<u32, NoMemory>
        ensures builds { IfOk result
            (λ begin. (never_first : Chooser → Bool) → Builds never_first self.old.count here.number
            self.old.places.items self.new.places.items self.old.ranges.items self.new.ranges.items
            (also (perform_of (control_in control.now) entry exit) none) exits begin) }
        ensures count { self.new.count ≡ self.old.count }
        ensures longer { length self.old.places.items ≤ length self.new.places.items }
    {
        match kind_of(control) {
            None => self.build_call(here, entry, exit, exits),
            Some(kind) => self.build_call_loop(alloc, here, entry, exit, kind, exits),
        }
    }

    /// The place of a GO TO DEPENDING.
    pub fn build_depending(
        &mut self,
        alloc: Global,
        here: Here,
        names: &[u32],
        exits: Exits,
    ) -> Result<u32, NoMemory>
        ensures builds { IfOk result
            (λ begin. (never_first : Chooser → Bool) (chooser : Chooser) →
            Builds never_first self.old.count here.number
            self.old.places.items self.new.places.items self.old.ranges.items self.new.ranges.items
            (also (GoDepending names.now chooser) none) exits begin) }
        ensures count { self.new.count ≡ self.old.count }
        ensures longer { length self.old.places.items ≤ length self.new.places.items }
    {
        let mut ways = Items::new(alloc);
        for name in names {
            if *name >= self.count {
                return Err(NoMemory);
            }
            ways.push(Some(*name))?;
        }
        ways.push(Some(exits.after))?;
        self.add(ProgramPoint::Chooses(ways))
    }

    /// The place of a GO TO.
    pub fn build_go(&mut self, here: Here, to: u32, exits: Exits) -> Result<u32, NoMemory>
        ensures builds { IfOk result
            (λ begin. (never_first : Chooser → Bool) → Builds never_first self.old.count here.number
            self.old.places.items self.new.places.items self.old.ranges.items self.new.ranges.items
            (also (Go to) none) exits begin) }
        ensures count { self.new.count ≡ self.old.count }
        ensures longer { length self.old.places.items ≤ length self.new.places.items }
    {
        if to >= self.count {
            return Err(NoMemory);
        }
        self.add(ProgramPoint::Goes(to))
    }

    /// The place of an EXIT PARAGRAPH.
    pub fn build_exit_paragraph(&mut self, here: Here, exits: Exits) -> Result<u32, NoMemory>
        requires { IsHere self.old.count here }
        ensures builds { IfOk result
            (λ begin. (never_first : Chooser → Bool) → Builds never_first self.old.count here.number
            self.old.places.items self.new.places.items self.old.ranges.items self.new.ranges.items
            (also ExitParagraph none) exits begin) }
        ensures count { self.new.count ≡ self.old.count }
        ensures longer { length self.old.places.items ≤ length self.new.places.items }
    {
        let end = self.end_place(here.number);
        self.add(ProgramPoint::Goes(end))
    }

    /// The place of an EXIT SECTION.
    pub fn build_exit_section(&mut self, here: Here, exits: Exits) -> Result<u32, NoMemory>
        requires { IsHere self.old.count here }
        ensures builds { IfOk result
            (λ begin. (never_first : Chooser → Bool) → Builds never_first self.old.count here.number
            self.old.places.items self.new.places.items self.old.ranges.items self.new.ranges.items
            (also (ExitSection here.last) none) exits begin) }
        ensures count { self.new.count ≡ self.old.count }
        ensures longer { length self.old.places.items ≤ length self.new.places.items }
    {
        let end = self.end_place(here.last);
        self.add(ProgramPoint::Goes(end))
    }

    /// The place of a statement.
    #[cycle(build)]
    pub fn build_stmt(
        &mut self,
        alloc: Global,
        files: &[FileEntry],
        here: Here,
        stmt: &Stmt,
        exits: Exits,
    ) -> Result<u32, NoMemory>
        requires { IsHere self.old.count here }
        ensures builds { IfOk result
            (λ begin. Builds (never_first_of files.now) self.old.count here.number
            self.old.places.items self.new.places.items self.old.ranges.items self.new.ranges.items
            (also (seen here.last stmt.now) none) exits begin) }
        ensures count { self.new.count ≡ self.old.count }
        ensures longer { length self.old.places.items ≤ length self.new.places.items }
    {
        match stmt {
            Stmt::Arith { arms, .. } => self.build_both(alloc, files, here, arms, false, exits),
            Stmt::Read { file, arms, .. } => {
                let silent = is_silent(files, *file);
                self.build_both(alloc, files, here, arms, silent, exits)
            }
            Stmt::If { yes, no, .. } => {
                let met = self.build_stmts(alloc, files, here, yes, exits)?;
                let unmet = self.build_stmts(alloc, files, here, no, exits)?;
                self.choose_two(alloc, false, met, unmet)
            }
            Stmt::Evaluate { whens, other, .. } => {
                let ways = self.build_whens(alloc, files, here, whens, exits)?;
                match other {
                    None => self.choose_last(ways, exits.after),
                    Some(stmts) => {
                        let last = self.build_stmts(alloc, files, here, stmts, exits)?;
                        self.choose_last(ways, last)
                    }
                }
            }
            Stmt::Loop { control, body } => {
                self.build_loop(alloc, files, here, control, body, exits)
            }
            Stmt::Perform {
                entry,
                exit,
                control,
            } => self.build_perform(alloc, here, *entry, *exit, control, exits),
            Stmt::Go(to) => self.build_go(here, *to, exits),
            Stmt::GoDepending { to, .. } => {
                self.build_depending(alloc, here, to.as_slice(), exits)
            }
            Stmt::NextSentence => self.add(ProgramPoint::Goes(exits.leave)),
            Stmt::StopRun => self.add(ProgramPoint::Stops),
            Stmt::ExitParagraph => self.build_exit_paragraph(here, exits),
            Stmt::ExitSection => self.build_exit_section(here, exits),
            Stmt::ExitPerform { cycle } => self.add(ProgramPoint::Goes(if *cycle {
                exits.cycled
            } else {
                exits.broken
            })),
            Stmt::Display { .. } => self.add(ProgramPoint::Goes(exits.after)),
            Stmt::Move { .. } => self.add(ProgramPoint::Goes(exits.after)),
            Stmt::SetTrue(_) => self.add(ProgramPoint::Goes(exits.after)),
            Stmt::Opens(_) => self.add(ProgramPoint::Goes(exits.after)),
            Stmt::Closes(_) => self.add(ProgramPoint::Goes(exits.after)),
            Stmt::Write { .. } => self.add(ProgramPoint::Goes(exits.after)),
            Stmt::Rewrite { .. } => self.add(ProgramPoint::Goes(exits.after)),
            Stmt::Exit => self.add(ProgramPoint::Goes(exits.after)),
            Stmt::Continue => self.add(ProgramPoint::Goes(exits.after)),
        }
    }

    /// The place at which statements begin.
    #[cycle(build)]
    pub fn build_stmts(
        &mut self,
        alloc: Global,
        files: &[FileEntry],
        here: Here,
        stmts: &Items<Stmt>,
        exits: Exits,
    ) -> Result<u32, NoMemory>
        requires { IsHere self.old.count here }
        ensures builds { IfOk result
            (λ begin. Builds (never_first_of files.now) self.old.count here.number
            self.old.places.items self.new.places.items self.old.ranges.items self.new.ranges.items
            (seen_stmts here.last stmts.now) exits begin) }
        ensures count { self.new.count ≡ self.old.count }
        ensures longer { length self.old.places.items ≤ length self.new.places.items }
    {
        let mut next = exits.after;
        let list = stmts.as_slice();
        for at in (0..list.len()).rev() {
            next = self.build_stmt(alloc, files, here, &list[at], exits.behind(next))?;
        }
        Ok(next)
    }

    /// The place of a READ or of arithmetic with these arms.
    #[cycle(build)]
    pub fn build_both(
        &mut self,
        alloc: Global,
        files: &[FileEntry],
        here: Here,
        arms: &Arms,
        silent: bool,
        exits: Exits,
    ) -> Result<u32, NoMemory>
        requires { IsHere self.old.count here }
        ensures builds { IfOk result
            (λ begin. BuildsBoth (never_first_of files.now) self.old.count here.number
            self.old.places.items self.new.places.items self.old.ranges.items self.new.ranges.items
            here.last (out-Arms arms.now).first (out-Arms arms.now).second silent exits begin) }
        ensures count { self.new.count ≡ self.old.count }
        ensures longer { length self.old.places.items ≤ length self.new.places.items }
    {
        match &arms.first {
            None => match &arms.second {
                None => self.add(ProgramPoint::Goes(exits.after)),
                Some(stmts) => {
                    let unmet = self.build_stmts(alloc, files, here, stmts, exits)?;
                    self.choose_two(alloc, silent, exits.after, unmet)
                }
            },
            Some(stmts) => {
                let met = self.build_stmts(alloc, files, here, stmts, exits)?;
                match &arms.second {
                    None => self.choose_two(alloc, false, met, exits.after),
                    Some(others) => {
                        let unmet = self.build_stmts(alloc, files, here, others, exits)?;
                        self.choose_two(alloc, false, met, unmet)
                    }
                }
            }
        }
    }

    /// The ways of the WHENs of an EVALUATE.
    #[cycle(build)]
    pub fn build_whens(
        &mut self,
        alloc: Global,
        files: &[FileEntry],
        here: Here,
        whens: &Items<When>,
        exits: Exits,
    ) -> Result<Items<Option<u32>>, NoMemory>
        requires { IsHere self.old.count here }
        ensures builds { IfOk result
            (λ ways. BuildsBranches (never_first_of files.now) self.old.count here.number
            self.old.places.items self.new.places.items self.old.ranges.items self.new.ranges.items
            (seen_branches here.last whens.now) exits ways) }
        ensures count { self.new.count ≡ self.old.count }
        ensures longer { length self.old.places.items ≤ length self.new.places.items }
    {
        let mut ways = Items::new(alloc);
        for when in whens.as_slice() {
            let start = self.build_stmts(alloc, files, here, &when.stmts, exits)?;
            ways.push(Some(start))?;
        }
        Ok(ways)
    }

    /// The place of an inline PERFORM.
    #[cycle(build)]
    pub fn build_loop(
        &mut self,
        alloc: Global,
        files: &[FileEntry],
        here: Here,
        control: &Control,
        body: &Items<Stmt>,
        exits: Exits,
    ) -> Result<u32, NoMemory>
        requires { IsHere self.old.count here }
        ensures builds { IfOk result
            (λ begin. Builds (never_first_of files.now) self.old.count here.number
            self.old.places.items self.new.places.items self.old.ranges.items self.new.ranges.items
            (also (loop_of (control_in control.now) (seen_stmts here.last body.now)) none) exits
            begin) }
        ensures count { self.new.count ≡ self.old.count }
        ensures longer { length self.old.places.items ≤ length self.new.places.items }
    {
        match kind_of(control) {
            None => {
                let start = self.build_stmts(alloc, files, here, body, exits)?;
                let mut ways = Items::new(alloc);
                ways.push(Some(start))?;
                self.add(ProgramPoint::Chooses(ways))
            }
            Some(kind) => {
                let turn = self.add(ProgramPoint::Stops)?;
                let start = self.build_stmts(alloc, files, here, body, exits.inside(turn))?;
                self.close_loop(alloc, kind, turn, exits.after, start)
            }
        }
    }
}
