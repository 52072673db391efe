ghost use Rattle.std.specs.Prelude.{◌≡◌};
ghost use Rattle.wat_value.specs.Fits.{is_null};
ghost use Rattle.wat_expr.specs.Logic.{truth, is_true, is_false, is_unknown, is_error, negated_if, conjunction, disjunction, null_test};

use wat_value::Value;

/// What an expression gives: a value, an answer of the logic of conditions, or an error of computing.
#[derive(Debug, Drop, PartialEq, Eq)]
pub enum Outcome {
    Is(Value),
    True,
    False,
    Unknown,
    Error,
}

pub(crate) fn is_null(value: &Value) -> bool
    ensures { result ≡ is_null value.now }
{
    matches!(value, Value::Null)
}

pub(crate) fn truth(holds: bool) -> Outcome
    ensures { result ≡ truth holds }
{
    if holds { Outcome::True } else { Outcome::False }
}

impl Outcome {
    pub fn is_true(&self) -> bool
        ensures { result ≡ is_true self.now }
    {
        matches!(self, Outcome::True)
    }

    fn is_false(&self) -> bool
        ensures { result ≡ is_false self.now }
    {
        matches!(self, Outcome::False)
    }

    fn is_unknown(&self) -> bool
        ensures { result ≡ is_unknown self.now }
    {
        matches!(self, Outcome::Unknown)
    }

    pub fn is_error(&self) -> bool
        ensures { result ≡ is_error self.now }
    {
        matches!(self, Outcome::Error)
    }

    /// NOT, where `negated` asks for it.
    pub(crate) fn negated_if(self, negated: bool) -> Outcome
        ensures { result ≡ negated_if negated self }
    {
        if !negated {
            return self;
        }
        match self {
            Outcome::True => Outcome::False,
            Outcome::False => Outcome::True,
            Outcome::Is(value) => Outcome::Is(value),
            Outcome::Unknown => Outcome::Unknown,
            Outcome::Error => Outcome::Error,
        }
    }

    pub(crate) fn and(self, other: Outcome) -> Outcome
        ensures { result ≡ conjunction self other }
    {
        if self.is_false() || other.is_false() {
            Outcome::False
        } else if self.is_error() || other.is_error() {
            Outcome::Error
        } else if self.is_unknown() || other.is_unknown() {
            Outcome::Unknown
        } else {
            Outcome::True
        }
    }

    pub(crate) fn or(self, other: Outcome) -> Outcome
        ensures { result ≡ disjunction self other }
    {
        if self.is_true() || other.is_true() {
            Outcome::True
        } else if self.is_error() || other.is_error() {
            Outcome::Error
        } else if self.is_unknown() || other.is_unknown() {
            Outcome::Unknown
        } else {
            Outcome::False
        }
    }

    pub(crate) fn null_test(&self) -> Outcome
        ensures { result ≡ null_test self.now }
    {
        match self {
            Outcome::Is(value) => truth(is_null(value)),
            Outcome::True | Outcome::False | Outcome::Unknown | Outcome::Error => Outcome::Error,
        }
    }
}
