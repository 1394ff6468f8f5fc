// What follows of the definitions. These functions do nothing; their contracts are the laws.
ghost use Rattle.std.specs.Prelude.{◌≡◌, ◌+◌, ◌⊎◌, ◌^◌, ◌∷◌, ◌<◌, ◌≤◌, ℕ, IsUtf8, List, [], Option, Ok, Some, None, length};
ghost use Rattle.wasm_text.specs.declared.tokens.Token.{Token as OneToken};
ghost use Rattle.wasm_text.specs.declared.tokens.LexBad.{LexBad as OneTrouble};
ghost use Rattle.wasm_text.specs.Comments.{ClosesComment};
ghost use Rattle.wasm_text.specs.Examples.{at_places, words_text, words_tokens, adjoining_text, adjoining_tokens, adjoining_trouble, open_comment_text, open_comment_trouble, sum_module, sum_text, least_module, least_text};
ghost use Rattle.wasm_text.specs.TextExamples.{empty_module, nothing_text, fields_and_index_text, folded_sum_text, word_after_parenthesis_text, cut_short_text, floating_point_text, floating_operand_text, too_large_text, too_large_with_sign_text, late_import_text, other_label_text, unknown_function_text, second_start_text, same_name_text, other_params_text, label_in_condition_text};
ghost use Rattle.wasm_text.specs.Texts.{IsText, TextFault};
ghost use Rattle.wasm_text.specs.declared.tokens.TokenKind.TheVariants.{Word};
ghost use Rattle.wasm_ast.specs.declared.modules.Module.{Module as OneModule};
ghost use Rattle.wasm_text.specs.declared.bad.TextBad.{TextBad as WhyBad};
ghost use Rattle.wasm_text.specs.declared.bad.TextBad.TheVariants.{Want, Outside, Range, Unknown, Twice, Use as UseBad, NoMemory};
ghost use Rattle.wasm_ast.specs.declared.instructions.Instr.TheVariants.{Const32};
ghost use Rattle.wasm_ast.specs.Straight.{straight_module};
ghost use Rattle.wasm_text.specs.Lexing.{comment_end, string_end, next_token, AreTokens};
ghost use Rattle.wasm_text.specs.Printing.{printed};
ghost use Rattle.wasm_text.specs.Strings.{ClosesString};
ghost use Rattle.wasm_text.specs.Tokens.{IsNext, IsEnd};

/// A law: a source has exactly one list of tokens, with its end or its first trouble.
pub fn tokens_once(source: &str)
    ensures some { (tokens : List OneToken) × (bad : Option OneTrouble) × AreTokens source.now tokens bad }
    ensures tokens { (ts us : List OneToken) (b c : Option OneTrouble) → AreTokens source.now ts b → AreTokens source.now us c → ts ≡ us }
    ensures end { (ts us : List OneToken) (b c : Option OneTrouble) → AreTokens source.now ts b → AreTokens source.now us c → b ≡ c }
{}

/// A law: a token ends after the place from which it was asked for, and within the source.
pub fn token_within(source: &str)
    ensures further { (at : ℕ) (t : OneToken) → at ≤ length source.now → next_token source.now at ≡ Ok (Some t) → at < t.end }
    ensures within { (at : ℕ) (t : OneToken) → at ≤ length source.now → next_token source.now at ≡ Ok (Some t) → t.end ≤ length source.now }
{}

/// A law: a block comment ends where the grammar has its end, and is closed where the grammar closes it.
pub fn comments_close(text: &str)
    ensures found { (at n : ℕ) → comment_end 0 at text.now ≡ Some n → (left : List ℕ) × ClosesComment text.now left × (n + length left ≡ at + length text.now) }
    ensures spelled { (at n : ℕ) (left : List ℕ) → ClosesComment text.now left → n + length left ≡ at + length text.now → comment_end 0 at text.now ≡ Some n }
{}

/// A law: a string ends where the grammar has its closing quote, and is closed where the grammar closes it.
pub fn strings_close(text: &str)
    ensures found { (quote at n : ℕ) → string_end quote 0 at text.now ≡ Ok n → (left : List ℕ) × ClosesString text.now left × (n + length left ≡ at + length text.now) }
    ensures spelled { (quote at n : ℕ) (left : List ℕ) → ClosesString text.now left → n + length left ≡ at + length text.now → string_end quote 0 at text.now ≡ Ok n }
{}

/// A law: the next token is the one that the grammar has next, after separators and comments; and there is none exactly where
/// only separators and comments are left.
pub fn next_by_grammar(source: &str)
    ensures found { (at : ℕ) (t : OneToken) → at ≤ length source.now → next_token source.now at ≡ Ok (Some t) → IsNext source.now at t }
    ensures spelled { (at : ℕ) (t : OneToken) → IsNext source.now at t → next_token source.now at ≡ Ok (Some t) }
    ensures end_found { (at : ℕ) → at ≤ length source.now → next_token source.now at ≡ Ok None → IsEnd source.now at }
    ensures end_spelled { (at : ℕ) → IsEnd source.now at → next_token source.now at ≡ Ok None }
{}

/// Small texts have the tokens that they should have, and small modules are printed as they should be.
pub fn examples()
    ensures words { AreTokens words_text words_tokens None }
    ensures adjoining { AreTokens adjoining_text adjoining_tokens (Some adjoining_trouble) }
    ensures open_comment { AreTokens open_comment_text [] (Some open_comment_trouble) }
    ensures sum { printed sum_module ≡ sum_text }
    ensures least { printed least_module ≡ least_text }
{}

/// Law: a text is of at most one module, or it has at most one first trouble, and never both.
pub fn text_is_unique()
    ensures module { (text : List ℕ) (m n : OneModule) → IsText m text → IsText n text → m ≡ n }
    ensures fault { (text : List ℕ) (a b : WhyBad) → TextFault text a → TextFault text b → a ≡ b }
    ensures never_both { (text : List ℕ) (m : OneModule) (bad : WhyBad) → IsText m text → TextFault text bad → ⊥ }
{}

/// Law: a text of fewer than 2^32 bytes in UTF-8 is of a module, or it has a first trouble.
pub fn text_is_decided()
    ensures { (text : List ℕ) → IsUtf8 text → length text < 2 ^ 32 → ((m : OneModule) × IsText m text) ⊎ ((bad : WhyBad) × TextFault text bad) }
{}

/// Law: want of memory is no first trouble of a text.
pub fn text_faults_are_told()
    ensures { (text : List ℕ) → TextFault text NoMemory → ⊥ }
{}

/// Small texts are of the modules that they should be of, and others have the first troubles that they should have.
pub fn text_examples()
    ensures nothing { IsText (empty_module) nothing_text }
    ensures fields_and_index { IsText (straight_module (0x66 ∷ []) (Const32 7 ∷ [])) fields_and_index_text }
    ensures folded_sum { IsText (sum_module) folded_sum_text }
    ensures sum { IsText (sum_module) sum_text }
    ensures word_after_parenthesis { TextFault word_after_parenthesis_text (Want (Some (at_places Word 1 8)) 1) }
    ensures cut_short { TextFault cut_short_text (Want None 5) }
    ensures floating_point { TextFault floating_point_text (Outside 6) }
    ensures floating_operand { TextFault floating_operand_text (Want (Some (at_places Word 15 22)) 15) }
    ensures too_large { TextFault too_large_text (Range 16) }
    ensures too_large_with_sign { TextFault too_large_with_sign_text (Range 16) }
    ensures late_import { TextFault late_import_text (Want (Some (at_places Word 11 17)) 11) }
    ensures other_label { TextFault other_label_text (Want (Some (at_places Word 19 21)) 19) }
    ensures unknown_function { TextFault unknown_function_text (Unknown 7) }
    ensures second_start { TextFault second_start_text (Twice 15) }
    ensures same_name { TextFault same_name_text (Twice 15) }
    ensures other_params { TextFault other_params_text (UseBad 19) }
    ensures label_in_condition { TextFault label_in_condition_text (Unknown 17) }
{}
