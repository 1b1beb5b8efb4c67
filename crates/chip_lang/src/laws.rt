//! Laws of the language: tokens, expressions, forms and code.

ghost use Rattle.std.specs.Prelude.{◌≡◌, List, ◌↔◌, Some};
ghost use Rattle.chip_lang.specs.declared.lexeme.Lexeme.{Lexeme};
ghost use Rattle.chip_lang.specs.Tree.{Tree};
ghost use Rattle.chip_lang.specs.Grammar.{IsExpression};
ghost use Rattle.chip_lang.specs.computed.Parse.{expression_of};
ghost use Rattle.std.specs.Prelude.{codes, ℕ, ℤ, []};
ghost use Rattle.chip_lang.specs.declared.token.Token.{Token};
ghost use Rattle.chip_lang.specs.computed.Tokens.{tokens_of};
ghost use Rattle.chip_lang.specs.Scan.{AreTokens};
ghost use Rattle.chip_lang.specs.Line.{Reading, reading_of, read, code};
ghost use Rattle.chip_lang.specs.Examples.{Examples};
ghost use Rattle.std.specs.Prelude.{true, ◌≢◌, ◌<◌, ◌≤◌, ◌*◌, length, map, All, Option, Ok, is_some};
ghost use Rattle.std.specs.List.{list_all, filter};
ghost use Rattle.chip_lang.specs.Operand.{Operand};
ghost use Rattle.chip_lang.specs.Decoding.{decode_of};
ghost use Rattle.chip_lang.specs.declared.instr.Instr.{Instr};
ghost use Rattle.chip_lang.specs.Statement.{HasWord, DecodesTo};
ghost use Rattle.chip_lang.specs.Table.{Row, forms};
ghost use Rattle.chip_lang.specs.Form.{fits};
ghost use Rattle.chip_lang.specs.Encoding.{word_of_form};
ghost use Rattle.chip_lang.specs.Show.{form_shown, operand_in};
ghost use Rattle.chip_lang.specs.Value.{Symbols, value, value_of_name};
ghost use Rattle.chip_lang.specs.Code.{code_of};
ghost use Rattle.chip_lang.specs.Uses.{names_in, names_used, has_same_value, agree_on};

/// A list of tokens forms at most one expression, and `expression_of` computes that expression.
#[tactic(auto, using(crate::proofs::Complete::expression_laws))]
pub fn one_expression()
    ensures one { (ts : List Lexeme) (a b : Tree) → IsExpression ts a → IsExpression ts b → a ≡ b }
    ensures found { (ts : List Lexeme) (e : Tree) → expression_of ts ≡ Some e → IsExpression ts e }
    ensures every { (ts : List Lexeme) (e : Tree) → IsExpression ts e → expression_of ts ≡ Some e }
{}

/// Worked examples of the definitions.
pub fn worked_examples()
    ensures { Examples }
{}

/// Each line has exactly one list of tokens, and `tokens_of` computes it.
#[tactic(auto, using(crate::proofs::TokenList::token_laws))]
pub fn one_token_list()
    ensures is { (line : List ℕ) → AreTokens line 0 (tokens_of line) }
    ensures only { (line : List ℕ) (ts : List Token) → AreTokens line 0 ts → ts ≡ tokens_of line }
{}

/// Each token has at least one byte and lies within its line.
pub fn tokens_lie_in_line()
    ensures { (line : List ℕ)
        → All (λ token. (token.start < token.end) × (token.end ≤ length line)) (tokens_of line) }
{}

/// If two tables agree on the names of an expression, it has the same value or fault under both. If
/// they agree on the names that a line uses, the line has the same code under both.
#[tactic(auto, using(crate::proofs::SameCode::same_laws))]
pub fn same_code()
    ensures value { (e : Tree) (S T : Symbols) → list_all (has_same_value S T) (names_in e) ≡ true
        → value e S ≡ value e T }
    ensures code { (r : Reading) (S T : Symbols) → agree_on S T r ≡ true
        → code_of r S ≡ code_of r T }
{}

/// An expression that has a value keeps it when names are added to the table, provided that each
/// name with a value keeps that value.
#[tactic(auto, using(crate::proofs::KeptValue::kept_value))]
pub fn kept_value()
    ensures { (e : Tree) (S T : Symbols) (v : ℤ)
        → ((n : List ℕ) (w : ℤ) → value_of_name S n ≡ Some w → value_of_name T n ≡ Some w)
        → value e S ≡ Ok v → value e T ≡ Ok v }
{}

/// A line uses at most half as many names as it has bytes, counting each occurrence of a name: a
/// line of 200 bytes uses at most 100.
#[tactic(auto, using(crate::proofs::NamesBound::names_bound))]
pub fn names_bound()
    ensures { (line : List ℕ) → 2 * length (names_used (reading_of line)) ≤ length line }
{}

/// At most one source form fits a name and operands.
#[tactic(auto, using(crate::proofs::OneForm::one_form))]
pub fn one_form()
    ensures { (name : List ℕ) (operands : List Operand)
        → length (filter (λ form. fits form name operands) forms) ≤ 1 }
{}

/// If a word is shown in a form, that form and the operands in the word encode to the same word,
/// whatever the names mean. The operands that a form's patterns take from any word fit that form.
pub fn shown_form()
    ensures word { (w : ℕ) (form : Row) (symbols : Symbols) → form_shown w ≡ Some form
        → word_of_form form (map (operand_in w) form.patterns) symbols ≡ Ok w }
    ensures fits { (w : ℕ) (form : Row)
        → fits form form.name (map (operand_in w) form.patterns) ≡ true }
{}

/// Each instruction has one word: two words that decode to it are the same.
#[tactic(auto, using(crate::proofs::OneWord::one_word))]
pub fn one_word()
    ensures { (v w : ℕ) (instr : Instr) → decode_of v ≡ Some instr → decode_of w ≡ Some instr
        → v ≡ w }
{}

/// The source forms and `decode` agree: a word is shown in a form if and only if it decodes. The
/// word of a statement whose form isn't SYS decodes to an instruction of that form, and so does the
/// word of a line with such an instruction.
#[tactic(auto, using(crate::proofs::FormedLine::form_laws))]
pub fn forms_and_decode()
    ensures shown { (w : ℕ) → is_some (form_shown w) ≡ is_some (decode_of w) }
    ensures said { (name : List ℕ) (operands : List Operand) (symbols : Symbols) (form : Row)
        (w : ℕ) → HasWord name operands symbols form w → form.name ≢ codes "SYS"
        → DecodesTo form w }
    ensures line { (line : List ℕ) (label : Option (List ℕ)) (form : Row) (operands : List Operand)
        (symbols : Symbols) (w : ℕ) → reading_of line ≡ read label (code form operands)
        → word_of_form form operands symbols ≡ Ok w → form.name ≢ codes "SYS" → DecodesTo form w }
{}
