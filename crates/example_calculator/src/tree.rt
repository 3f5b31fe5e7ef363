//! The tree of an expression. It is a list in which each node stands after its parts, so no call
//! recurses, however deep the brackets are.
use crate::fault::{Fault, Reason};
use crate::lexer::{Kind, Token};
use arcintern::Symbol;
use std::alloc::Global;

#[derive(Clone, Copy, Debug, PartialEq, Eq)]
pub enum Operator {
    Plus,
    Minus,
    Times,
    Over,
    /// A `-` with no operand before it.
    Sign,
}

impl Operator {
    /// An operator of a higher rank is applied before its neighbours.
    fn rank(self) -> u8 {
        match self {
            Operator::Plus | Operator::Minus => 1,
            Operator::Times | Operator::Over => 2,
            Operator::Sign => 3,
        }
    }

    /// The result, if there is one that fits 64 bits. A sign takes its operand from 0.
    pub fn apply(self, left: i128, right: i128) -> Option<i128> {
        let result = match self {
            Operator::Plus => left.checked_add(right),
            Operator::Minus | Operator::Sign => left.checked_sub(right),
            Operator::Times => left.checked_mul(right),
            Operator::Over => left.checked_div(right),
        };
        result.filter(|it| i64::try_from(*it).is_ok())
    }
}

/// An operation has the indexes of its two parts.
#[derive(Clone, Copy, Debug)]
pub enum Node {
    Number(u64),
    Name(Symbol),
    Operation(Operator, usize, usize),
}

/// A tree that is being built: its nodes with their byte offsets, the indexes of those that are
/// part of no other one, and the operators and brackets that wait for what follows them.
#[derive(Drop)]
struct Parser {
    nodes: Vec<(Node, usize)>,
    operands: Vec<usize>,
    waiting: Vec<Token>,
}

/// The tree of the tokens of a line that ends at this byte offset.
pub fn tree_of(alloc: Global, tokens: &[Token], end: usize) -> Result<Vec<(Node, usize)>, Fault> {
    let mut parser = Parser {
        nodes: Vec::new(alloc),
        operands: Vec::new(alloc),
        waiting: Vec::new(alloc),
    };
    let mut wants_operand = true;
    for token in tokens {
        wants_operand = parser.take(*token, wants_operand)?;
    }
    if wants_operand {
        return Err(Fault::at(end, Reason::NoOperand));
    }
    parser.apply_waiting(0)?;
    match parser.waiting.pop() {
        Some(open) => Err(Fault::at(open.place, Reason::NotClosed)),
        None => Ok(parser.nodes),
    }
}

impl Parser {
    /// Takes the next token, and returns whether an operand has to follow.
    fn take(&mut self, token: Token, wants_operand: bool) -> Result<bool, Fault> {
        let place = token.place;
        match (&token.kind, wants_operand) {
            (Kind::Number(number), true) => self.push(Node::Number(*number), place)?,
            (Kind::Name(name), true) => self.push(Node::Name(*name), place)?,
            (Kind::Open, true) => self.waiting.push(token)?,
            (Kind::Operator(Operator::Minus), true) => {
                let kind = Kind::Operator(Operator::Sign);
                self.push(Node::Number(0), place)?;
                self.waiting.push(Token { kind, place })?;
            }
            (_, true) => return Err(Fault::at(place, Reason::NoOperand)),
            (Kind::Operator(operator), false) => {
                self.apply_waiting(operator.rank())?;
                self.waiting.push(token)?;
            }
            (Kind::Close, false) => {
                self.apply_waiting(0)?;
                let open = self.waiting.pop();
                open.ok_or(Fault::at(place, Reason::NotOpened))?;
            }
            (_, false) => return Err(Fault::at(place, Reason::NoOperator)),
        }
        Ok(matches!(token.kind, Kind::Open | Kind::Operator(_)))
    }

    /// Adds a node that is part of no other one yet.
    fn push(&mut self, node: Node, place: usize) -> Result<(), Fault> {
        self.operands.push(self.nodes.len())?;
        self.nodes.push((node, place))?;
        Ok(())
    }

    /// Applies the last operators that wait, as long as their rank is this one or a higher one, but
    /// none before an open bracket.
    fn apply_waiting(&mut self, rank: u8) -> Result<(), Fault> {
        for _ in 0..self.waiting.len() {
            let Some(
                Token {
                    kind: Kind::Operator(operator),
                    place,
                },
            ) = self.waiting.last().copied()
            else {
                break;
            };
            if operator.rank() < rank {
                break;
            }
            self.waiting.pop();
            self.apply(operator, place)?;
        }
        Ok(())
    }

    /// Makes an operation of the last two operands.
    fn apply(&mut self, operator: Operator, place: usize) -> Result<(), Fault> {
        let missing = Fault::at(place, Reason::NoOperand);
        let right = self.operands.pop().ok_or(missing)?;
        let left = self.operands.pop().ok_or(missing)?;
        self.push(Node::Operation(operator, left, right), place)
    }
}
