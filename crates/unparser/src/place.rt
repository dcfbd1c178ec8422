//! Places, operands and expressions as tokens.

ghost use Rattle.std.specs.Prelude.{◌≡◌, ◌++◌, [], ◌∷◌, true, map, OnOk};
ghost use Rattle.cobol_lex.specs.declared.token.TokenKind.TheVariants as kind;
ghost use Rattle.unparser.specs.Place.{item_name, of_tokens, figure_word, op_mark, plus_tokens, subs_tokens, sub_tokens, window_tokens, place_tokens, operand_tokens, operands_tokens, expr_tokens};

use crate::token::Tokens;
use cob_base::{Boxed, Items, NoMemory, Word};
use cob_tree::{Expr, Figure, Number, Op, Operand, Place, Program, Sub, Window};

fn op_mark(op: Op) -> u8
    ensures { result ≡ op_mark op }
{
    match op {
        Op::Add => b'+',
        Op::Sub => b'-',
        Op::Mul => b'*',
        Op::Div => b'/',
    }
}

impl Tokens {
    /// Adds the name of the item with this number.
    pub fn item(&mut self, program: &Program, number: u32) -> Result<(), NoMemory>
        ensures { OnOk result
            (self.new ≡ self.old ++ kind.Word (item_name program.now number) ∷ []) }
    {
        let Some(entry) = program.entries.get(number as usize) else {
            return self.word(b"FILLER");
        };
        match entry.name {
            None => self.word(b"FILLER"),
            Some(name) => self.name(name),
        }
    }

    fn qualification(&mut self, names: &[Word]) -> Result<(), NoMemory>
        ensures { OnOk result (self.new ≡ self.old ++ of_tokens names.now) }
    {
        for name in names {
            self.word(b"OF")?;
            self.name(*name)?;
        }
        Ok(())
    }

    fn plus(&mut self, number: &Number) -> Result<(), NoMemory>
        ensures { OnOk result (self.new ≡ self.old ++ plus_tokens number.now) }
    {
        if number.negative {
            self.mark(b'-')?;
            self.digits(number.digits.as_slice())
        } else if number.digits.as_slice() == b"0".as_slice() {
            Ok(())
        } else {
            self.mark(b'+')?;
            self.digits(number.digits.as_slice())
        }
    }

    fn figure(&mut self, figure: Figure) -> Result<(), NoMemory>
        ensures { OnOk result (self.new ≡ self.old ++ kind.Word (figure_word figure) ∷ []) }
    {
        match figure {
            Figure::Zero => self.word(b"ZERO"),
            Figure::Space => self.word(b"SPACE"),
            Figure::HighValue => self.word(b"HIGH-VALUE"),
            Figure::LowValue => self.word(b"LOW-VALUE"),
            Figure::Quote => self.word(b"QUOTE"),
        }
    }

    /// Adds a place: the name of its item, what qualifies it, its subscripts and its window.
    #[cycle(place)]
    pub fn place(&mut self, program: &Program, place: &Place) -> Result<(), NoMemory>
        ensures { OnOk result (self.new ≡ self.old ++ place_tokens program.now place.now) }
    {
        self.item(program, place.item)?;
        self.qualification(place.of.as_slice())?;
        self.subs(program, &place.subs)?;
        match &place.window {
            None => Ok(()),
            Some(window) => self.window(program, window.get()),
        }
    }

    #[cycle(place)]
    fn subs(&mut self, program: &Program, subs: &Items<Sub>) -> Result<(), NoMemory>
        ensures { OnOk result
            (self.new ≡ self.old ++ subs_tokens (map (sub_tokens program.now) subs.now)) }
    {
        if subs.len() == 0 {
            return Ok(());
        }
        self.mark(b'(')?;
        for sub in subs.as_slice() {
            self.sub(program, sub)?;
        }
        self.mark(b')')
    }

    #[cycle(place)]
    fn sub(&mut self, program: &Program, sub: &Sub) -> Result<(), NoMemory>
        ensures { OnOk result (self.new ≡ self.old ++ sub_tokens program.now sub.now) }
    {
        match &sub.base {
            None => self.digits(sub.plus.digits.as_slice()),
            Some(base) => {
                self.place(program, base.get())?;
                self.plus(&sub.plus)
            }
        }
    }

    #[cycle(place)]
    fn window(&mut self, program: &Program, window: &Window) -> Result<(), NoMemory>
        ensures { OnOk result (self.new ≡ self.old ++ window_tokens program.now window.now) }
    {
        self.mark(b'(')?;
        self.expr(program, &window.from, false)?;
        self.mark(b':')?;
        match &window.length {
            None => {}
            Some(length) => self.expr(program, length, false)?,
        }
        self.mark(b')')
    }

    /// Adds an operand.
    #[cycle(place)]
    pub fn operand(&mut self, program: &Program, operand: &Operand) -> Result<(), NoMemory>
        ensures { OnOk result (self.new ≡ self.old ++ operand_tokens program.now operand.now) }
    {
        match operand {
            Operand::Place(place) => self.place(program, place),
            Operand::Number(number) => self.number(number),
            Operand::Text(bytes) => self.literal(bytes),
            Operand::Figure(figure) => self.figure(*figure),
        }
    }

    /// Adds an expression; `within` says that it is an operand of another one.
    #[cycle(place)]
    pub fn expr(&mut self, program: &Program, expr: &Expr, within: bool) -> Result<(), NoMemory>
        ensures { OnOk result (self.new ≡ self.old ++ expr_tokens program.now expr.now within) }
    {
        match expr {
            Expr::Leaf(operand) => self.operand(program, operand),
            Expr::Minus(side) => {
                self.opens(within)?;
                self.mark(b'-')?;
                self.side(program, side)?;
                self.closes(within)
            }
            Expr::Both(op, left, right) => {
                self.opens(within)?;
                self.side(program, left)?;
                self.mark(op_mark(*op))?;
                self.side(program, right)?;
                self.closes(within)
            }
        }
    }

    #[cycle(place)]
    fn side(&mut self, program: &Program, side: &Boxed<Expr>) -> Result<(), NoMemory>
        ensures { OnOk result (self.new ≡ self.old ++ expr_tokens program.now side.now true) }
    {
        self.expr(program, side.get(), true)
    }

    /// Adds operands.
    pub fn operands(&mut self, program: &Program, operands: &[Operand]) -> Result<(), NoMemory>
        ensures { OnOk result
            (self.new ≡ self.old ++ operands_tokens program.now operands.now) }
    {
        for operand in operands {
            self.operand(program, operand)?;
        }
        Ok(())
    }
}
