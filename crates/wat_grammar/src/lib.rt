//! Grammars given as data: what they derive, how they are read with one token seen ahead, and where a text goes wrong.
#![tactic(auto)]

ghost use Rattle.std.specs.Prelude.{◌≡◌, ◌↔◌, ℕ, List, Ok, Err, true, false};
ghost use Rattle.wat_grammar.specs.Phrase.{Grammar, Phrase, read_within, whole, DerivesWithin, FailsAt};
ghost use Rattle.wat_grammar.specs.Predictive.{IsPredictive, is_predictive, is_alive};

/// A phrase of a grammar for which one token seen ahead is enough.
///
/// The last three members are computed, or follow from what is computed, for a grammar that is written down.
pub trait Predictive {
    ghost Kind: { Type 0 };

    ghost Token: { Type 0 };

    ghost Name: { Type 0 };

    ghost Inner: { Type 0 };

    ghost Tree: { Type 0 };

    ghost grammar: { Grammar Kind Token Name Inner };

    ghost phrase: { Phrase Kind Token Name Inner Tree };

    ghost example: { Kind → Token };

    ghost predictive: { IsPredictive grammar example };

    ghost phrase_predictive: { is_predictive grammar example false phrase ≡ true };

    ghost phrase_alive: { is_alive false phrase ≡ true };
}

/// Reading is exact for every such phrase, within every number of levels. The function does nothing: it states the law.
pub fn reading_is_exact<G: Predictive>()
    // What is read is derived, and what is derived is read.
    ensures tree { (levels : ℕ) (ts : List G.Token) (tree : G.Tree) → (whole (read_within G.grammar levels G.phrase ts) ≡ Ok tree) ↔ DerivesWithin G.grammar levels G.phrase ts tree }
    // No tokens have two trees.
    ensures only { (levels : ℕ) (ts : List G.Token) (tree other : G.Tree) → DerivesWithin G.grammar levels G.phrase ts tree → DerivesWithin G.grammar levels G.phrase ts other → tree ≡ other }
    // Where nothing is read, the reading stops at the first token that no continuation of those before it begins with.
    ensures fault { (levels : ℕ) (ts rest : List G.Token) → whole (read_within G.grammar levels G.phrase ts) ≡ Err rest → FailsAt G.grammar levels G.phrase ts rest }
{}
