//! The first lines of statements, as tokens.

ghost use Rattle.std.specs.Prelude.{◌≡◌, ◌++◌, false, OnOk};
ghost use Rattle.cob_tree.specs.declared.stmt.Stmt.{out-Stmt};
ghost use Rattle.unparser.specs.Head.{advance_tokens, display_tokens, go_depending_tokens, places_tokens, into_tokens, from_tokens, range_tokens, exit_perform_tokens, jump_head, file_head, head_step};

use crate::token::Tokens;
use cob_base::NoMemory;
use cob_tree::{Operand, Place, Program, Stmt};

impl Tokens {
    fn display(
        &mut self,
        program: &Program,
        items: &[Operand],
        advance: bool,
    ) -> Result<(), NoMemory>
        ensures { OnOk result
            (self.new ≡ self.old ++ display_tokens program.now items.now advance) }
    {
        self.word(b"DISPLAY")?;
        self.operands(program, items)?;
        self.advance(advance)
    }

    fn advance(&mut self, advance: bool) -> Result<(), NoMemory>
        ensures { OnOk result (self.new ≡ self.old ++ advance_tokens advance) }
    {
        if advance {
            return Ok(());
        }
        self.two_words(b"WITH", b"NO")?;
        self.word(b"ADVANCING")
    }

    fn places(&mut self, program: &Program, places: &[Place]) -> Result<(), NoMemory>
        ensures { OnOk result (self.new ≡ self.old ++ places_tokens program.now places.now) }
    {
        for place in places {
            self.place(program, place)?;
        }
        Ok(())
    }

    fn into(&mut self, program: &Program, into: &Option<Place>) -> Result<(), NoMemory>
        ensures { OnOk result (self.new ≡ self.old ++ into_tokens program.now into.now) }
    {
        match into {
            None => Ok(()),
            Some(place) => {
                self.word(b"INTO")?;
                self.place(program, place)
            }
        }
    }

    fn from(&mut self, program: &Program, from: &Option<Operand>) -> Result<(), NoMemory>
        ensures { OnOk result (self.new ≡ self.old ++ from_tokens program.now from.now) }
    {
        match from {
            None => Ok(()),
            Some(operand) => {
                self.word(b"FROM")?;
                self.operand(program, operand)
            }
        }
    }

    fn range(&mut self, program: &Program, entry: u32, exit: u32) -> Result<(), NoMemory>
        ensures { OnOk result (self.new ≡ self.old ++ range_tokens program.now entry exit) }
    {
        self.label(program, entry)?;
        if entry == exit {
            return Ok(());
        }
        self.word(b"THRU")?;
        self.label(program, exit)
    }

    /// Adds the first line of a statement.
    pub fn statement_first_line(&mut self, program: &Program, stmt: &Stmt) -> Result<(), NoMemory>
        ensures { OnOk result (self.new ≡ self.old ++ head_step program.now (out-Stmt stmt.now)) }
    {
        match stmt {
            Stmt::Display { items, advance } => self.display(program, items.as_slice(), *advance),
            Stmt::Move { from, to } => {
                self.word(b"MOVE")?;
                self.operand(program, from)?;
                self.word(b"TO")?;
                self.places(program, to.as_slice())
            }
            Stmt::Arith { calc, into, .. } => {
                self.calc_front(program, calc)?;
                self.targets(program, into.as_slice())?;
                self.calc_back(program, calc)
            }
            Stmt::SetTrue(place) => {
                self.word(b"SET")?;
                self.place(program, place)?;
                self.two_words(b"TO", b"TRUE")
            }
            Stmt::If { cond, .. } => {
                self.word(b"IF")?;
                self.cond(program, cond, false)
            }
            Stmt::Evaluate { subject, .. } => {
                self.word(b"EVALUATE")?;
                self.subject(program, subject)
            }
            Stmt::Loop { control, .. } => {
                self.word(b"PERFORM")?;
                self.control(program, control)
            }
            Stmt::Perform {
                entry,
                exit,
                control,
            } => {
                self.word(b"PERFORM")?;
                self.range(program, *entry, *exit)?;
                self.control(program, control)
            }
            _ => self.file_head(program, stmt),
        }
    }

    fn file_head(&mut self, program: &Program, stmt: &Stmt) -> Result<(), NoMemory>
        ensures { OnOk result (self.new ≡ self.old ++ file_head program.now (out-Stmt stmt.now)) }
    {
        match stmt {
            Stmt::Opens(openings) => {
                self.word(b"OPEN")?;
                self.openings(program, openings.as_slice())
            }
            Stmt::Closes(files) => {
                self.word(b"CLOSE")?;
                self.files(program, files.as_slice())
            }
            Stmt::Read { file, into, .. } => {
                self.word(b"READ")?;
                self.file(program, *file)?;
                self.into(program, into)
            }
            Stmt::Write { entry, from } => {
                self.word(b"WRITE")?;
                self.item(program, *entry)?;
                self.from(program, from)
            }
            Stmt::Rewrite { entry, from } => {
                self.word(b"REWRITE")?;
                self.item(program, *entry)?;
                self.from(program, from)
            }
            _ => self.jump_head(program, stmt),
        }
    }

    fn jump_head(&mut self, program: &Program, stmt: &Stmt) -> Result<(), NoMemory>
        ensures { OnOk result (self.new ≡ self.old ++ jump_head program.now (out-Stmt stmt.now)) }
    {
        match stmt {
            Stmt::Go(to) => {
                self.two_words(b"GO", b"TO")?;
                self.label(program, *to)
            }
            Stmt::GoDepending { to, on } => self.go_depending(program, to.as_slice(), on),
            Stmt::NextSentence => self.two_words(b"NEXT", b"SENTENCE"),
            Stmt::StopRun => self.two_words(b"STOP", b"RUN"),
            Stmt::Exit => self.word(b"EXIT"),
            Stmt::ExitParagraph => self.two_words(b"EXIT", b"PARAGRAPH"),
            Stmt::ExitSection => self.two_words(b"EXIT", b"SECTION"),
            Stmt::ExitPerform { cycle } => self.exit_perform(*cycle),
            _ => self.word(b"CONTINUE"),
        }
    }

    fn go_depending(&mut self, program: &Program, to: &[u32], on: &Place) -> Result<(), NoMemory>
        ensures { OnOk result
            (self.new ≡ self.old ++ go_depending_tokens program.now to.now on.now) }
    {
        self.two_words(b"GO", b"TO")?;
        self.labels(program, to)?;
        self.two_words(b"DEPENDING", b"ON")?;
        self.place(program, on)
    }

    fn exit_perform(&mut self, cycle: bool) -> Result<(), NoMemory>
        ensures { OnOk result (self.new ≡ self.old ++ exit_perform_tokens cycle) }
    {
        self.two_words(b"EXIT", b"PERFORM")?;
        if cycle { self.word(b"CYCLE") } else { Ok(()) }
    }
}
