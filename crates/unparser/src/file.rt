//! Files and labels as tokens, by their numbers.

ghost use Rattle.std.specs.Prelude.{◌≡◌, ◌++◌, ◌∷◌, [], None, OnOk, option_copied};
ghost use Rattle.cobol_lex.specs.declared.token.TokenKind.TheVariants as kind;
ghost use Rattle.unparser.specs.File.{same_mode, mode_word, name_tokens, file_tokens, files_tokens, openings_tokens, label_tokens, labels_tokens};

use crate::token::Tokens;
use cob_base::{NoMemory, Word};
use cob_tree::{How, Opening, Program};

fn same_mode(before: Option<How>, how: How) -> bool
    ensures { result ≡ same_mode before how }
{
    match (before, how) {
        (Some(How::Input), How::Input) => true,
        (Some(How::Output), How::Output) => true,
        (Some(How::InOut), How::InOut) => true,
        (Some(How::Extend), How::Extend) => true,
        _ => false,
    }
}

impl Tokens {
    fn mode(&mut self, how: How) -> Result<(), NoMemory>
        ensures { OnOk result (self.new ≡ self.old ++ kind.Word (mode_word how) ∷ []) }
    {
        match how {
            How::Input => self.word(b"INPUT"),
            How::Output => self.word(b"OUTPUT"),
            How::InOut => self.word(b"I-O"),
            How::Extend => self.word(b"EXTEND"),
        }
    }

    fn named(&mut self, name: Option<Word>) -> Result<(), NoMemory>
        ensures { OnOk result (self.new ≡ self.old ++ name_tokens name) }
    {
        match name {
            None => Ok(()),
            Some(name) => self.procedure(name),
        }
    }

    /// Adds the name of the file with this number.
    pub fn file(&mut self, program: &Program, number: u32) -> Result<(), NoMemory>
        ensures { OnOk result (self.new ≡ self.old ++ file_tokens program.now number) }
    {
        match program.files.get(number as usize) {
            None => Ok(()),
            Some(file) => self.name(file.name),
        }
    }

    /// Adds the names of files.
    pub fn files(&mut self, program: &Program, numbers: &[u32]) -> Result<(), NoMemory>
        ensures { OnOk result (self.new ≡ self.old ++ files_tokens program.now numbers.now) }
    {
        for number in numbers {
            self.file(program, *number)?;
        }
        Ok(())
    }

    /// Adds the files that OPEN names, with a mode where it changes.
    pub fn openings(&mut self, program: &Program, openings: &[Opening]) -> Result<(), NoMemory>
        ensures { OnOk result
            (self.new ≡ self.old ++ openings_tokens program.now None openings.now) }
    {
        let mut before = None;
        for opening in openings {
            if !same_mode(before, opening.how) {
                self.mode(opening.how)?;
            }
            self.file(program, opening.file)?;
            before = Some(opening.how);
        }
        Ok(())
    }

    /// Adds the label of the paragraph with this number: its name, or that of its section.
    pub fn label(&mut self, program: &Program, number: u32) -> Result<(), NoMemory>
        ensures { OnOk result (self.new ≡ self.old ++ label_tokens program.now number) }
    {
        let Some(paragraph) = program.paragraphs.get(number as usize) else {
            return Ok(());
        };
        match paragraph.name {
            None => self.named(paragraph.section),
            Some(name) => self.procedure(name),
        }
    }

    /// Adds the labels of paragraphs.
    pub fn labels(&mut self, program: &Program, numbers: &[u32]) -> Result<(), NoMemory>
        ensures { OnOk result (self.new ≡ self.old ++ labels_tokens program.now numbers.now) }
    {
        for number in numbers {
            self.label(program, *number)?;
        }
        Ok(())
    }
}
