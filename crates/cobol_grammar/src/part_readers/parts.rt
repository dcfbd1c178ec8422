//! The parts of statements, and how they are read.

ghost use Rattle.std.specs.Prelude.{◌≡◌};
ghost use Rattle.parser_combinators.specs.Form as form;
ghost use Rattle.parser_combinators.specs.Reading.{Reads};
ghost use Rattle.cobol_grammar.specs.stmt_forms.Part.{Parts as PartForms};
ghost use Rattle.cobol_grammar.specs.stmt_forms.Laws.{PartsAreLawful};

use cob_base::{Text, Word};
use cob_tree::{Cond, Expr, Operand, Place};
use parser_combinators::{Cursor, Note, Position, Unread};
use std::alloc::Global;

/// Readers of operands, references, conditions and names, each exact by its form among `parts`.
pub trait Parts {
    /// An operand, reference or expression, and what is known of it.
    type Side: Drop;
    /// What is kept of a subject of EVALUATE, so that others can be compared with it.
    type Known: Drop;

    ghost parts: { Self → PartForms Self.Side Self.Known };

    /// Whether an operand is next.
    fn at_operand(&self, cursor: &Cursor<'_>) -> bool
        ensures { result ≡ form.is_next (parts self.now).begins_operand cursor.now };

    /// Whether a name of data or of a file is next.
    fn at_name(&self, cursor: &Cursor<'_>) -> bool
        ensures { result ≡ form.is_next (parts self.now).is_name cursor.now };

    /// Whether a word is next that may be the name of a procedure.
    fn at_procedure_word(&self, cursor: &Cursor<'_>) -> bool
        ensures { result ≡ form.is_next (parts self.now).is_procedure_word cursor.now };

    /// Reads an operand.
    fn operand(&self, alloc: Global, cursor: &mut Cursor<'_>) -> Result<Self::Side, Unread>
        ensures { Reads ((parts self.now).operand.reads cursor.old) result cursor.new };

    /// Reads a reference.
    fn reference(&self, alloc: Global, cursor: &mut Cursor<'_>) -> Result<Self::Side, Unread>
        ensures { Reads ((parts self.now).reference.reads cursor.old) result cursor.new };

    /// Reads a reference after its first word.
    fn reference_behind(
        &self,
        alloc: Global,
        cursor: &mut Cursor<'_>,
        name: &Word,
        position: Position,
    ) -> Result<Self::Side, Unread>
        ensures { Reads (((parts self.now).reference_behind name.now position).reads cursor.old)
            result cursor.new };

    /// A number as an operand.
    fn digits_side(&self, digits: Text, position: Position) -> Self::Side
        ensures { result ≡ (parts self.now).digits_side digits position };

    /// Reads an expression.
    fn expr(&self, alloc: Global, cursor: &mut Cursor<'_>) -> Result<Self::Side, Unread>
        ensures { Reads ((parts self.now).expr.reads cursor.old) result cursor.new };

    /// Reads a condition, and whether a NOT was read after it that isn't its own.
    fn cond(&self, alloc: Global, cursor: &mut Cursor<'_>) -> Result<(Cond, bool), Unread>
        ensures { Reads ((parts self.now).cond.reads cursor.old) result cursor.new };

    /// Reads the name of a file, and gives its place among the files.
    fn file(&self, cursor: &mut Cursor<'_>) -> Result<Option<u32>, Unread>
        ensures { Reads ((parts self.now).file.reads cursor.old) result cursor.new };

    /// Reads the name of a record that is written.
    fn record_name(&self, alloc: Global, cursor: &mut Cursor<'_>) -> Result<Self::Side, Unread>
        ensures { Reads ((parts self.now).record_name.reads cursor.old) result cursor.new };

    /// Reads the name in the header of a paragraph or section.
    fn header_name(&self, cursor: &mut Cursor<'_>) -> Result<(Word, Position), Unread>
        ensures { Reads ((parts self.now).header_name.reads cursor.old) result cursor.new };

    /// The entry and the exit of the procedure with this name.
    fn procedure_of(&self, name: &[u8]) -> Option<(u32, u32)>
        ensures { result ≡ (parts self.now).procedure_of name.now };

    /// The fault of a name that an earlier paragraph or section has.
    fn duplicate_fault(&self, name: &Word, position: Position) -> Option<Note>
        ensures { result ≡ (parts self.now).duplicate_fault name.now position };

    /// A side as an operand of the tree.
    fn operand_of(&self, side: Self::Side) -> Operand
        ensures { result ≡ (parts self.now).operand_of side };

    /// A side as a place of the tree.
    fn place_of(&self, side: Self::Side) -> Place
        ensures { result ≡ (parts self.now).place_of side };

    /// A side as an expression of the tree.
    fn expr_of(&self, side: Self::Side) -> Expr
        ensures { result ≡ (parts self.now).expr_of side };

    /// The entry that a side names.
    fn entry_of(&self, side: &Self::Side) -> u32
        ensures { result ≡ (parts self.now).entry_of side.now };

    /// What is kept of a side that is a subject of EVALUATE.
    fn known_of(&self, side: &Self::Side) -> Self::Known
        ensures { result ≡ (parts self.now).known_of side.now };

    /// The fault of a side that isn't a value.
    fn value_fault(&self, side: &Self::Side) -> Option<Note>
        ensures { result ≡ (parts self.now).value_fault side.now };

    /// The fault of a side that isn't a number.
    fn number_fault(&self, side: &Self::Side) -> Option<Note>
        ensures { result ≡ (parts self.now).number_fault side.now };

    /// The fault of a side that isn't a number without decimals.
    fn whole_fault(&self, side: &Self::Side) -> Option<Note>
        ensures { result ≡ (parts self.now).whole_fault side.now };

    /// The fault of a side that isn't the name of a level 88.
    fn condition_fault(&self, side: &Self::Side) -> Option<Note>
        ensures { result ≡ (parts self.now).condition_fault side.now };

    /// The fault of a side that can't take a result of arithmetic.
    fn result_fault(&self, side: &Self::Side) -> Option<Note>
        ensures { result ≡ (parts self.now).result_fault side.now };

    /// The fault of a move.
    fn move_fault(&self, from: &Self::Side, to: &Self::Side) -> Option<Note>
        ensures { result ≡ (parts self.now).move_fault from.now to.now };

    /// The fault of a move from a file's record.
    fn into_fault(&self, file: Option<u32>, to: &Self::Side) -> Option<Note>
        ensures { result ≡ (parts self.now).into_fault file to.now };

    /// The fault of what a subject is compared with.
    fn subject_fault(&self, known: &Self::Known, side: &Self::Side) -> Option<Note>
        ensures { result ≡ (parts self.now).subject_fault known.now side.now };

    ghost lawful: { (it : Self) → PartsAreLawful (parts it) };
}
