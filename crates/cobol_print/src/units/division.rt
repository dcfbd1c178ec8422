//! The divisions of a program as units.

ghost use Rattle.std.specs.Prelude.{◌≡◌, ◌++◌, ◌∷◌, [], codes, None, OnOk};
ghost use Rattle.cobol_lex.specs.declared.token.TokenKind.TheVariants as kind;
ghost use Rattle.cobol_print.specs.units.Unit.{header};
ghost use Rattle.cobol_print.specs.units.Division.{program_id, select_tokens, status_tokens, file_unit, file_units, some_files_units, environment_units, fd_unit, headers_between, entries_units, data_units, named_line, section_line, sentence_units, paragraph_units, paragraphs_units, procedure_units};

use crate::units::unit::Units;
use cob_base::{NoMemory, Word};
use cob_tree::{Entry, FileEntry, Paragraph, Place, Program, Sentence};
use cobol_lex::TokenKind;
use std::alloc::Global;
use unparser::Tokens;

fn add_status(
    tokens: &mut Tokens,
    program: &Program,
    status: &Option<Place>,
) -> Result<(), NoMemory>
    ensures { OnOk result (tokens.new ≡ tokens.old ++ status_tokens program.now status.now) }
{
    match status {
        None => Ok(()),
        Some(place) => {
            tokens.two_words(b"FILE", b"STATUS")?;
            tokens.word(b"IS")?;
            tokens.place(program, place)
        }
    }
}

fn add_select(tokens: &mut Tokens, file: &FileEntry) -> Result<(), NoMemory>
    ensures { OnOk result (tokens.new ≡ tokens.old ++ select_tokens file.now) }
{
    tokens.word(b"SELECT")?;
    tokens.name(file.name)?;
    tokens.two_words(b"ASSIGN", b"TO")?;
    tokens.literal(&file.assign)
}

impl Units {
    /// Adds the line PROGRAM-ID with the program's name.
    pub fn program_id(&mut self, name: Word) -> Result<(), NoMemory>
        ensures { OnOk result (self.new ≡ self.old ++ program_id name ∷ []) }
    {
        self.naming_header(b"PROGRAM-ID", name)
    }

    fn file(&mut self, program: &Program, file: &FileEntry) -> Result<(), NoMemory>
        ensures { OnOk result (self.new ≡ self.old ++ file_unit program.now file.now ∷ []) }
    {
        let mut tokens = self.tokens();
        add_select(&mut tokens, file)?;
        add_status(&mut tokens, program, &file.status)?;
        tokens.push(TokenKind::Period)?;
        self.push(12, tokens)
    }

    fn files(&mut self, program: &Program, files: &[FileEntry]) -> Result<(), NoMemory>
        ensures { OnOk result (self.new ≡ self.old ++ file_units program.now files.now) }
    {
        for file in files {
            self.file(program, file)?;
        }
        Ok(())
    }

    /// Adds the environment division, where there are files.
    pub fn environment(&mut self, program: &Program) -> Result<(), NoMemory>
        ensures { OnOk result
            (self.new ≡ self.old ++ environment_units program.now program.now.files) }
    {
        if program.files.len() == 0 {
            return Ok(());
        }
        self.some_files(program, program.files.as_slice())
    }

    fn some_files(&mut self, program: &Program, files: &[FileEntry]) -> Result<(), NoMemory>
        ensures { OnOk result (self.new ≡ self.old ++ some_files_units program.now files.now) }
    {
        self.header(b"ENVIRONMENT", b"DIVISION")?;
        self.header(b"INPUT-OUTPUT", b"SECTION")?;
        self.word_line(b"FILE-CONTROL")?;
        self.files(program, files)
    }

    fn fd(&mut self, program: &Program, file: u32) -> Result<(), NoMemory>
        ensures { OnOk result (self.new ≡ self.old ++ fd_unit program.now file ∷ []) }
    {
        let mut tokens = self.tokens();
        tokens.word(b"FD")?;
        tokens.file(program, file)?;
        tokens.push(TokenKind::Period)?;
        self.push(8, tokens)
    }

    fn file_section(&mut self, program: &Program, file: u32) -> Result<(), NoMemory>
        ensures { OnOk result (self.new ≡ self.old ++
            header (codes "FILE") (codes "SECTION") ∷ fd_unit program.now file ∷ []) }
    {
        self.header(b"FILE", b"SECTION")?;
        self.fd(program, file)
    }

    /// Adds the headers between two entries: before one of this file, or of no file, and after one
    /// of that file, or of no file, or after no entry.
    fn headers_between(
        &mut self,
        program: &Program,
        before: Option<Option<u32>>,
        file: Option<u32>,
    ) -> Result<(), NoMemory>
        ensures { OnOk result
            (self.new ≡ self.old ++ headers_between program.now before file) }
    {
        match (before, file) {
            (Some(None), None) => Ok(()),
            (None, None) => self.header(b"WORKING-STORAGE", b"SECTION"),
            (Some(Some(_)), None) => self.header(b"WORKING-STORAGE", b"SECTION"),
            (None, Some(file)) => self.file_section(program, file),
            (Some(None), Some(file)) => self.file_section(program, file),
            (Some(Some(other)), Some(file)) => {
                if other == file {
                    Ok(())
                } else {
                    self.fd(program, file)
                }
            }
        }
    }

    fn entries(
        &mut self,
        alloc: Global,
        program: &Program,
        entries: &[Entry],
    ) -> Result<(), NoMemory>
        ensures { OnOk result
            (self.new ≡ self.old ++ entries_units program.now None entries.now) }
    {
        let mut before = None;
        for entry in entries {
            self.headers_between(program, before, entry.file)?;
            self.entry(alloc, program, entry)?;
            before = Some(entry.file);
        }
        Ok(())
    }

    /// Adds the data division, where there are entries.
    pub fn data(&mut self, alloc: Global, program: &Program) -> Result<(), NoMemory>
        ensures { OnOk result (self.new ≡ self.old ++ data_units program.now program.now.entries) }
    {
        if program.entries.len() == 0 {
            return Ok(());
        }
        self.header(b"DATA", b"DIVISION")?;
        self.entries(alloc, program, program.entries.as_slice())
    }

    fn name_line(&mut self, name: Option<Word>) -> Result<(), NoMemory>
        ensures { OnOk result (self.new ≡ self.old ++ named_line name) }
    {
        let Some(name) = name else {
            return Ok(());
        };
        let mut tokens = self.tokens();
        tokens.procedure(name)?;
        tokens.push(TokenKind::Period)?;
        self.push(8, tokens)
    }

    fn section_line(&mut self, section: Option<Word>) -> Result<(), NoMemory>
        ensures { OnOk result (self.new ≡ self.old ++ section_line section) }
    {
        match section {
            None => Ok(()),
            Some(name) => self.section_header(name, b"SECTION"),
        }
    }

    fn sentence(
        &mut self,
        alloc: Global,
        program: &Program,
        sentence: &Sentence,
    ) -> Result<(), NoMemory>
        ensures { OnOk result (self.new ≡ self.old ++ sentence_units program.now sentence.now) }
    {
        let mut units = Units::new(alloc);
        units.list(program, &sentence.stmts, 12, false)?;
        units.end()?;
        self.append(units)
    }

    fn paragraph(
        &mut self,
        alloc: Global,
        program: &Program,
        paragraph: &Paragraph,
    ) -> Result<(), NoMemory>
        ensures { OnOk result (self.new ≡ self.old ++ paragraph_units program.now paragraph.now) }
    {
        self.section_line(paragraph.section)?;
        self.name_line(paragraph.name)?;
        for sentence in paragraph.sentences.as_slice() {
            self.sentence(alloc, program, sentence)?;
        }
        Ok(())
    }

    fn paragraphs(
        &mut self,
        alloc: Global,
        program: &Program,
        paragraphs: &[Paragraph],
    ) -> Result<(), NoMemory>
        ensures { OnOk result
            (self.new ≡ self.old ++ paragraphs_units program.now paragraphs.now) }
    {
        for paragraph in paragraphs {
            self.paragraph(alloc, program, paragraph)?;
        }
        Ok(())
    }

    /// Adds the procedure division.
    pub fn procedure(&mut self, alloc: Global, program: &Program) -> Result<(), NoMemory>
        ensures { OnOk result
            (self.new ≡ self.old ++ procedure_units program.now program.now.paragraphs) }
    {
        self.header(b"PROCEDURE", b"DIVISION")?;
        self.paragraphs(alloc, program, program.paragraphs.as_slice())
    }
}
