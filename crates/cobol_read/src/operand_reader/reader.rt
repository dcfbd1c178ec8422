//! The parts of statements, as they are read.

ghost use Rattle.cobol_grammar.specs.Whole.{parts_of};
ghost use Rattle.cobol_grammar.proofs.PartLaws as laws;

use crate::operand_uses as uses;
use crate::operand_uses::Records;
use cob_base::{Text, Word};
use cob_tree::{Cond, Expr, Operand, Place};
use cobol_grammar::SubjectKind;
use cobol_grammar::expr_forms::Side;
use cobol_grammar::part_readers::Parts;
use cond_parse::whole_cond;
use expr_parse::actions::{
    at_operand, condition_fault, digits_side, expr_of, number_fault, result_fault, value_fault,
    whole_fault,
};
use expr_parse::{data_operand, data_reference, data_reference_behind, whole_expr};
use parser_combinators::words::sees_name;
use parser_combinators::{Cursor, Note, Position, Unread};
use std::alloc::Global;
use symbol_tables::data_names::NameTable;
use symbol_tables::procedure_names::ProcedureTable;

/// Reads the parts of the statements of a program with these names, procedures and entries, which
/// `records` holds.
#[derive(Drop)]
pub struct PartReader<'a> {
    pub alloc: Global,
    pub names: &'a NameTable,
    pub records: &'a Records<'a>,
    pub procedures: &'a ProcedureTable,
}

impl<'a> Parts for PartReader<'a> {
    type Side = Side;

    type Known = SubjectKind;

    ghost parts = { λ r. parts_of r.names.now r.records.now r.procedures.now };

    ghost lawful = { λ r. laws.parts r.names.now r.records.now r.procedures.now };

    fn at_operand(&self, cursor: &Cursor<'_>) -> bool {
        at_operand(cursor)
    }

    fn at_name(&self, cursor: &Cursor<'_>) -> bool {
        sees_name(cursor)
    }

    fn at_procedure_word(&self, cursor: &Cursor<'_>) -> bool {
        uses::at_user_word(cursor)
    }

    fn operand(&self, alloc: Global, cursor: &mut Cursor<'_>) -> Result<Side, Unread> {
        data_operand(alloc, cursor, self.names)
    }

    fn reference(&self, alloc: Global, cursor: &mut Cursor<'_>) -> Result<Side, Unread> {
        data_reference(alloc, cursor, self.names)
    }

    fn reference_behind(
        &self,
        alloc: Global,
        cursor: &mut Cursor<'_>,
        name: &Word,
        position: Position,
    ) -> Result<Side, Unread> {
        data_reference_behind(alloc, cursor, self.names, *name, position)
    }

    fn digits_side(&self, digits: Text, position: Position) -> Side {
        digits_side(digits, position)
    }

    fn expr(&self, alloc: Global, cursor: &mut Cursor<'_>) -> Result<Side, Unread> {
        whole_expr(alloc, cursor, self.names)
    }

    fn cond(&self, alloc: Global, cursor: &mut Cursor<'_>) -> Result<(Cond, bool), Unread> {
        whole_cond(alloc, cursor, self.names)
    }

    fn file(&self, cursor: &mut Cursor<'_>) -> Result<Option<u32>, Unread> {
        uses::file(cursor, self.names)
    }

    fn record_name(&self, alloc: Global, cursor: &mut Cursor<'_>) -> Result<Side, Unread> {
        uses::record_name(alloc, cursor, self.names, self.records.entries())
    }

    fn header_name(&self, cursor: &mut Cursor<'_>) -> Result<(Word, Position), Unread> {
        uses::header_name(cursor)
    }

    fn procedure_of(&self, name: &[u8]) -> Option<(u32, u32)> {
        uses::procedure_of(self.procedures, name)
    }

    fn duplicate_fault(&self, name: &Word, position: Position) -> Option<Note> {
        self.procedures.duplicate_fault(name, position)
    }

    fn operand_of(&self, side: Side) -> Operand {
        uses::operand_of(side.what)
    }

    fn place_of(&self, side: Side) -> Place {
        uses::place_of(self.alloc, side.what)
    }

    fn expr_of(&self, side: Side) -> Expr {
        expr_of(side.what)
    }

    fn entry_of(&self, side: &Side) -> u32 {
        uses::entry_of(side)
    }

    fn known_of(&self, side: &Side) -> SubjectKind {
        uses::known_of(side)
    }

    fn value_fault(&self, side: &Side) -> Option<Note> {
        value_fault(side)
    }

    fn number_fault(&self, side: &Side) -> Option<Note> {
        number_fault(side)
    }

    fn whole_fault(&self, side: &Side) -> Option<Note> {
        whole_fault(side)
    }

    fn condition_fault(&self, side: &Side) -> Option<Note> {
        condition_fault(side)
    }

    fn result_fault(&self, side: &Side) -> Option<Note> {
        result_fault(side)
    }

    fn move_fault(&self, from: &Side, to: &Side) -> Option<Note> {
        uses::move_fault(from, to)
    }

    fn into_fault(&self, file: Option<u32>, to: &Side) -> Option<Note> {
        uses::into_fault(self.records, file, to)
    }

    fn subject_fault(&self, known: &SubjectKind, side: &Side) -> Option<Note> {
        uses::subject_fault(known, side)
    }
}
