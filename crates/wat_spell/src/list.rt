ghost use Rattle.std.specs.Prelude.{◌≡◌, ◌∷◌, OnOk};
ghost use Rattle.std.specs.List.{flat_map};
ghost use Rattle.wat_spell.specs.Growing.{puts};
ghost use Rattle.wat_spell.specs.Spelling as spelling;
ghost use Rattle.wat_spell.specs.Spelling.{comma, with_commas};
ghost use Rattle.wat_spell.specs.Statements.{in_parentheses};

use crate::symbol::Symbol;
use crate::writing::Writing;
use wat_list::NoMemory;
use wat_word::Keyword;

/// What stands in a list of a statement.
pub trait Part {
    ghost use Rattle.std.specs.Prelude.{◌≡◌, List, OnOk};
    ghost use Rattle.wat_spell.specs.Growing.{puts};
    ghost use Rattle.wat_spell.specs.Tokens.{Token};

    ghost tokens: { Self → List Token };

    fn write(&self, writing: &mut Writing) -> Result<(), NoMemory>
        ensures { OnOk result (writing.new ≡ puts writing.old (tokens self.now)) };
}

/// Writes the parts, each behind a comma.
fn more_parts<P: Part>(writing: &mut Writing, parts: &[P]) -> Result<(), NoMemory>
    ensures { OnOk result (writing.new ≡ puts writing.old (flat_map (λ part. comma ∷ P.tokens part) parts.now)) }
{
    for part in parts {
        writing.symbol(Symbol::Comma)?;
        part.write(writing)?;
    }
    Ok(())
}

/// Writes the parts with commas between.
#[tactic(auto, using(crate::proofs::Writes::puts_append))]
pub fn list<P: Part>(writing: &mut Writing, parts: &[P]) -> Result<(), NoMemory>
    ensures { OnOk result (writing.new ≡ puts writing.old (with_commas P.tokens parts.now)) }
{
    match parts {
        [] => Ok(()),
        [first, more @ ..] => {
            first.write(writing)?;
            more_parts(writing, more)
        }
    }
}

/// Writes GROUP BY or ORDER BY with the parts, and nothing where there are none.
#[tactic(auto, using(crate::proofs::Writes::puts_append))]
pub fn by<P: Part>(writing: &mut Writing, keyword: Keyword, parts: &[P]) -> Result<(), NoMemory>
    ensures { OnOk result (writing.new ≡ puts writing.old (spelling.by keyword P.tokens parts.now)) }
{
    match parts {
        [] => Ok(()),
        [first, more @ ..] => {
            writing.word(keyword)?;
            writing.word(Keyword::By)?;
            first.write(writing)?;
            more_parts(writing, more)
        }
    }
}

/// Writes the parts in parentheses.
#[tactic(auto, using(crate::proofs::Writes::puts_append))]
pub fn in_parentheses<P: Part>(writing: &mut Writing, parts: &[P]) -> Result<(), NoMemory>
    ensures { OnOk result (writing.new ≡ puts writing.old (in_parentheses P.tokens parts.now)) }
{
    writing.symbol(Symbol::Open)?;
    list(writing, parts)?;
    writing.symbol(Symbol::Close)
}
