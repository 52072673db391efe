ghost use Rattle.std.specs.Prelude.{◌≡◌};
ghost use Rattle.wat_spell.specs.Tokens as spec;

/// A symbol of a spelling.
#[derive(Clone, Copy)]
pub enum Symbol {
    Open,
    /// `(` right behind a word, of a type or of an aggregate.
    OpenTight,
    Close,
    Comma,
    Dot,
    Star,
    Plus,
    Minus,
    Slash,
    Concat,
    Equal,
    Unequal,
    Less,
    AtMost,
    Greater,
    AtLeast,
}

impl Symbol {
    pub fn as_str(self) -> &'static str
        ensures { result.now ≡ spec.symbol_text self }
    {
        match self {
            Symbol::Open | Symbol::OpenTight => "(",
            Symbol::Close => ")",
            Symbol::Comma => ",",
            Symbol::Dot => ".",
            Symbol::Star => "*",
            Symbol::Plus => "+",
            Symbol::Minus => "-",
            Symbol::Slash => "/",
            Symbol::Concat => "||",
            Symbol::Equal => "=",
            Symbol::Unequal => "<>",
            Symbol::Less => "<",
            Symbol::AtMost => "<=",
            Symbol::Greater => ">",
            Symbol::AtLeast => ">=",
        }
    }

    /// Whether no space stands before it.
    pub fn is_tight_left(self) -> bool
        ensures { result ≡ spec.is_tight_left self }
    {
        match self {
            Symbol::OpenTight | Symbol::Close | Symbol::Comma | Symbol::Dot => true,
            _ => false,
        }
    }

    /// Whether no space stands behind it.
    pub fn is_tight_right(self) -> bool
        ensures { result ≡ spec.is_tight_right self }
    {
        match self {
            Symbol::Open | Symbol::OpenTight | Symbol::Dot => true,
            _ => false,
        }
    }
}
