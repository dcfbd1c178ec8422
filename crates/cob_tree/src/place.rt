//! Places of data, and expressions over them.
//!
//! A place may have subscripts and a window, whose expressions hold places again, so the functions
//! that copy them call each other.

ghost use Rattle.cob_base.specs.Answers.{Makes};

use crate::number::Number;
use cob_base::{Boxed, Copied, Items, NoMemory, Text, Word};
use std::alloc::Global;

/// A reference to data (ISO 1989:1985, uniqueness of reference).
#[cycle(place)]
#[derive(Debug)]
pub struct Place {
    /// The entry, by its place among the entries; from 2^31 upward an added item.
    pub item: u32,
    /// The names of its qualification, as they were written.
    pub of: Items<Word>,
    pub subs: Items<Sub>,
    pub window: Option<Boxed<Window>>,
}

/// A subscript: an item's value and a number, or the number alone.
#[cycle(place)]
#[derive(Debug)]
pub struct Sub {
    pub base: Option<Boxed<Place>>,
    pub plus: Number,
}

/// A part of an item: the first character, from 1, and how many; without a length, to the end.
#[cycle(place)]
#[derive(Debug)]
pub struct Window {
    pub from: Expr,
    pub length: Option<Expr>,
}

/// What a statement works on.
#[cycle(place)]
#[derive(Debug)]
pub enum Operand {
    Place(Place),
    Number(Number),
    /// The bytes of a literal in quotation marks.
    Text(Text),
    Figure(Figure),
}

/// A figurative constant.
#[derive(Clone, Copy, Debug, PartialEq, Eq)]
pub enum Figure {
    Zero,
    Space,
    HighValue,
    LowValue,
    Quote,
}

/// An arithmetic expression.
#[cycle(place)]
#[derive(Debug)]
pub enum Expr {
    Leaf(Operand),
    /// The negative.
    Minus(Boxed<Expr>),
    Both(Op, Boxed<Expr>, Boxed<Expr>),
}

/// What an expression does with two values.
#[derive(Clone, Copy, Debug, PartialEq, Eq)]
pub enum Op {
    Add,
    Sub,
    Mul,
    Div,
}

impl Drop for Place {
    #[cycle(drop_place)]
    fn drop(self) {
        let Place {
            item: _,
            of: _,
            subs: _,
            window: _,
        } = self;
    }
}

impl Drop for Sub {
    #[cycle(drop_place)]
    fn drop(self) {
        let Sub { base: _, plus: _ } = self;
    }
}

impl Drop for Window {
    #[cycle(drop_place)]
    fn drop(self) {
        let Window { from: _, length: _ } = self;
    }
}

impl Drop for Operand {
    #[cycle(drop_place)]
    fn drop(self) {
        match self {
            Operand::Place(_) => {}
            Operand::Number(_) => {}
            Operand::Text(_) => {}
            Operand::Figure(_) => {}
        }
    }
}

impl Drop for Expr {
    #[cycle(drop_place)]
    fn drop(self) {
        match self {
            Expr::Leaf(_) => {}
            Expr::Minus(_) => {}
            Expr::Both(_, _, _) => {}
        }
    }
}

#[cycle(copy_place)]
fn copy_place(alloc: Global, place: &Place) -> Result<Place, NoMemory>
    ensures { Makes place.now result }
{
    let of = place.of.copy(alloc)?;
    let subs = copy_subs(alloc, &place.subs)?;
    let window = match &place.window {
        None => None,
        Some(window) => Some(Boxed::new(alloc, copy_window(alloc, window.get())?)?),
    };
    Ok(Place {
        item: place.item,
        of,
        subs,
        window,
    })
}

#[cycle(copy_place)]
fn copy_subs(alloc: Global, subs: &Items<Sub>) -> Result<Items<Sub>, NoMemory>
    ensures { Makes subs.now result }
{
    let mut copies = Items::new(alloc);
    for sub in subs.as_slice() {
        copies.push(copy_sub(alloc, sub)?)?;
    }
    Ok(copies)
}

#[cycle(copy_place)]
fn copy_sub(alloc: Global, sub: &Sub) -> Result<Sub, NoMemory>
    ensures { Makes sub.now result }
{
    let base = match &sub.base {
        None => None,
        Some(place) => Some(Boxed::new(alloc, copy_place(alloc, place.get())?)?),
    };
    let plus = sub.plus.copy(alloc)?;
    Ok(Sub { base, plus })
}

#[cycle(copy_place)]
fn copy_window(alloc: Global, window: &Window) -> Result<Window, NoMemory>
    ensures { Makes window.now result }
{
    let from = copy_expr(alloc, &window.from)?;
    let length = match &window.length {
        None => None,
        Some(length) => Some(copy_expr(alloc, length)?),
    };
    Ok(Window { from, length })
}

#[cycle(copy_place)]
fn copy_operand(alloc: Global, operand: &Operand) -> Result<Operand, NoMemory>
    ensures { Makes operand.now result }
{
    match operand {
        Operand::Place(place) => Ok(Operand::Place(copy_place(alloc, place)?)),
        Operand::Number(number) => Ok(Operand::Number(number.copy(alloc)?)),
        Operand::Text(text) => Ok(Operand::Text(text.copy(alloc)?)),
        Operand::Figure(figure) => Ok(Operand::Figure(*figure)),
    }
}

#[cycle(copy_place)]
fn copy_expr(alloc: Global, expr: &Expr) -> Result<Expr, NoMemory>
    ensures { Makes expr.now result }
{
    match expr {
        Expr::Leaf(operand) => Ok(Expr::Leaf(copy_operand(alloc, operand)?)),
        Expr::Minus(inner) => Ok(Expr::Minus(copy_side(alloc, inner)?)),
        Expr::Both(op, left, right) => {
            let left = copy_side(alloc, left)?;
            Ok(Expr::Both(*op, left, copy_side(alloc, right)?))
        }
    }
}

#[cycle(copy_place)]
fn copy_side(alloc: Global, side: &Boxed<Expr>) -> Result<Boxed<Expr>, NoMemory>
    ensures { Makes side.now result }
{
    let copy = copy_expr(alloc, side.get())?;
    Boxed::new(alloc, copy)
}

impl Copied for Place {
    fn copy(&self, alloc: Global) -> Result<Place, NoMemory> {
        copy_place(alloc, self)
    }
}

impl Copied for Sub {
    fn copy(&self, alloc: Global) -> Result<Sub, NoMemory> {
        copy_sub(alloc, self)
    }
}

impl Copied for Window {
    fn copy(&self, alloc: Global) -> Result<Window, NoMemory> {
        copy_window(alloc, self)
    }
}

impl Copied for Operand {
    fn copy(&self, alloc: Global) -> Result<Operand, NoMemory> {
        copy_operand(alloc, self)
    }
}

impl Copied for Expr {
    fn copy(&self, alloc: Global) -> Result<Expr, NoMemory> {
        copy_expr(alloc, self)
    }
}
