//! What follows from the definitions alone. The functions do nothing: their contracts are the laws.
ghost use Rattle.std.specs.Prelude.{◌≡◌, ◌⊎◌, ℕ, List};
ghost use Rattle.moka_grammar.specs.declared.text.TheConstants.{LONGEST_TEXT};
ghost use Rattle.moka_grammar.specs.Grammar.{Script, IsScript, IsBadAt};

/// A script has no bad line.
pub fn a_script_has_no_bad_line()
    ensures { (bytes : List ℕ) (script : Script) (number : ℕ) →
        IsScript bytes script → IsBadAt bytes number → ⊥ }
{}

/// Every text that is no script has a first bad line.
pub fn what_is_no_script_has_a_bad_line()
    ensures { (bytes : List ℕ) →
        ((script : Script) × IsScript bytes script) ⊎ ((number : ℕ) × IsBadAt bytes number) }
{}

/// There is one first bad line at most.
pub fn one_line_is_the_first_bad_one()
    ensures { (bytes : List ℕ) (m n : ℕ) → IsBadAt bytes m → IsBadAt bytes n → m ≡ n }
{}

/// Bytes spell one script at most.
pub fn bytes_spell_one_script()
    ensures { (bytes : List ℕ) (a b : Script) → IsScript bytes a → IsScript bytes b → a ≡ b }
{}

/// The largest number of bytes of a text, by its digits: definitions name the constant.
pub fn texts_have_64_bytes_at_most()
    ensures { LONGEST_TEXT ≡ 64 }
{}
