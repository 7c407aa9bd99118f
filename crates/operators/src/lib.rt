// Words and the fourteen operators of expressions.
#![tactic(auto)]

ghost use Rattle.std.specs.Prelude.{◌≡◌, None, Some, MatchResult, ◌≢◌};
ghost use Rattle.operators.specs.Operators.{unary, binary, operator_number, operator_arity, operator_name, operator_of};
ghost use Rattle.operators.specs.declared.Operator.{Operator};

use std::str::FromStr;

pub mod laws;
#[cfg(test)]
mod tests;

// The operators with one part.
#[derive(Clone, Copy, Debug, PartialEq, Eq)]
pub enum Unary {
    Neg,
    Not,
}

// The operators with two parts.
#[derive(Clone, Copy, Debug, PartialEq, Eq)]
pub enum Binary {
    Add,
    Sub,
    Mul,
    And,
    Or,
    Xor,
    Shl,
    Shr,
    Sar,
    Lt,
}

// A leaf, or what joins parts.
#[derive(Clone, Copy, Debug, PartialEq, Eq)]
pub enum Operator {
    Cnst,
    Var,
    One(Unary),
    Two(Binary),
}

// A number or a name that no operator has.
#[derive(Clone, Copy, Debug, PartialEq, Eq)]
pub struct UnknownOperator;

impl Unary {
    pub fn apply(self, a: u32) -> u32
        ensures { result ≡ unary self a }
    {
        match self {
            Unary::Neg => 0u32.wrapping_sub(a),
            Unary::Not => !a,
        }
    }
}

impl Binary {
    pub fn apply(self, a: u32, b: u32) -> u32
        ensures { result ≡ binary self a b }
    {
        match self {
            Binary::Add => a.wrapping_add(b),
            Binary::Sub => a.wrapping_sub(b),
            Binary::Mul => a.wrapping_mul(b),
            Binary::And => a & b,
            Binary::Or => a | b,
            Binary::Xor => a ^ b,
            Binary::Shl => a.wrapping_shl(b),
            Binary::Shr => a.wrapping_shr(b),
            Binary::Sar => a.cast_signed().wrapping_shr(b).cast_unsigned(),
            Binary::Lt => u32::from(a.cast_signed() < b.cast_signed()),
        }
    }
}

impl Operator {
    pub fn arity(self) -> usize
        ensures { result ≡ operator_arity self }
    {
        match self {
            Operator::Cnst | Operator::Var => 0,
            Operator::One(_) => 1,
            Operator::Two(_) => 2,
        }
    }

    // The text itself, where a `Display` could only print it.
    pub fn name(self) -> &'static str
        ensures { result.now ≡ operator_name self }
    {
        match self {
            Operator::Cnst => "CNST",
            Operator::Var => "VAR",
            Operator::One(Unary::Neg) => "NEG",
            Operator::One(Unary::Not) => "NOT",
            Operator::Two(Binary::Add) => "ADD",
            Operator::Two(Binary::Sub) => "SUB",
            Operator::Two(Binary::Mul) => "MUL",
            Operator::Two(Binary::And) => "AND",
            Operator::Two(Binary::Or) => "OR",
            Operator::Two(Binary::Xor) => "XOR",
            Operator::Two(Binary::Shl) => "SHL",
            Operator::Two(Binary::Shr) => "SHR",
            Operator::Two(Binary::Sar) => "SAR",
            Operator::Two(Binary::Lt) => "LT",
        }
    }
}

// An operator's number.
impl From<Operator> for u32 {
    ghost from_gives = { λ o n. n ≡ operator_number o };

    fn from(operator: Operator) -> u32 {
        match operator {
            Operator::Cnst => 1,
            Operator::Var => 2,
            Operator::One(Unary::Neg) => 3,
            Operator::One(Unary::Not) => 4,
            Operator::Two(Binary::Add) => 5,
            Operator::Two(Binary::Sub) => 6,
            Operator::Two(Binary::Mul) => 7,
            Operator::Two(Binary::And) => 8,
            Operator::Two(Binary::Or) => 9,
            Operator::Two(Binary::Xor) => 10,
            Operator::Two(Binary::Shl) => 11,
            Operator::Two(Binary::Shr) => 12,
            Operator::Two(Binary::Sar) => 13,
            Operator::Two(Binary::Lt) => 14,
        }
    }
}

// The operator of a number.
impl TryFrom<u32> for Operator {
    type Error = UnknownOperator;

    ghost try_from_gives = { λ n r. MatchResult r (λ o. operator_of n ≡ Some o) (λ _. operator_of n ≡ None) };

    fn try_from(number: u32) -> Result<Operator, UnknownOperator> {
        Ok(match number {
            1 => Operator::Cnst,
            2 => Operator::Var,
            3 => Operator::One(Unary::Neg),
            4 => Operator::One(Unary::Not),
            5 => Operator::Two(Binary::Add),
            6 => Operator::Two(Binary::Sub),
            7 => Operator::Two(Binary::Mul),
            8 => Operator::Two(Binary::And),
            9 => Operator::Two(Binary::Or),
            10 => Operator::Two(Binary::Xor),
            11 => Operator::Two(Binary::Shl),
            12 => Operator::Two(Binary::Shr),
            13 => Operator::Two(Binary::Sar),
            14 => Operator::Two(Binary::Lt),
            _ => return Err(UnknownOperator),
        })
    }
}

// The operator of a name.
impl FromStr for Operator {
    type Err = UnknownOperator;

    ghost from_str_gives = { λ name r. MatchResult r (λ o. operator_name o ≡ name) (λ _. (o : Operator) → operator_name o ≢ name) };

    fn from_str(name: &str) -> Result<Operator, UnknownOperator> {
        Ok(match name {
            "CNST" => Operator::Cnst,
            "VAR" => Operator::Var,
            "NEG" => Operator::One(Unary::Neg),
            "NOT" => Operator::One(Unary::Not),
            "ADD" => Operator::Two(Binary::Add),
            "SUB" => Operator::Two(Binary::Sub),
            "MUL" => Operator::Two(Binary::Mul),
            "AND" => Operator::Two(Binary::And),
            "OR" => Operator::Two(Binary::Or),
            "XOR" => Operator::Two(Binary::Xor),
            "SHL" => Operator::Two(Binary::Shl),
            "SHR" => Operator::Two(Binary::Shr),
            "SAR" => Operator::Two(Binary::Sar),
            "LT" => Operator::Two(Binary::Lt),
            _ => return Err(UnknownOperator),
        })
    }
}
