// Laws of circuits and formulas.
ghost use Rattle.std.specs.Prelude.{◌≡◌, ◌↔◌, ◌≤◌, ℕ, Bool, List, length, Option, All};
ghost use Rattle.bv_terms.specs.Terms.{Term as OneTerm, value_of, HasSymbols};
ghost use Rattle.refute_check.specs.Clauses.{Assignment, SatisfiesAll};
ghost use Rattle.refute_check.specs.Orders.{Names, NamesAll};
ghost use Rattle.bit_blast.specs.Formulas.{Condition, formula};
ghost use Rattle.bit_blast.specs.Meanings.{AreProper, CanBeLeast, Computes, IsAnswered, input_of};
ghost use Rattle.bit_blast.specs.Inputs.{IsInput, numbers_for};
ghost use Rattle.bit_blast.specs.BlockLaws.{AddLaw, LessLaw, NoneLaw, NegateLaw, CountLaw, DivideLaw, MultiplyLaw, ChooseLaw, UnaryLaw, BinaryLaw};

/// An assignment meets the formula of conditions exactly where variable 1 is true, the symbols' bits are an input at which
/// each condition has its answer, and each gate has its value.
pub fn formula_means_conditions()
    ensures { (conditions : List Condition) (draws : List Bool) (first : Option OneTerm) → AreProper draws conditions → CanBeLeast draws first
        → (assignment : Assignment) → SatisfiesAll assignment (formula conditions draws first).clauses ↔ Computes conditions draws first assignment }
{}

/// Every input at which each condition has its answer has an assignment that meets the formula, and exactly one: two with the
/// same input are the same on all variables.
pub fn each_input_has_one_assignment()
    ensures some { (conditions : List Condition) (draws : List Bool) (first : Option OneTerm) → AreProper draws conditions → CanBeLeast draws first
        → (input : List ℕ) → IsInput draws input → All (IsAnswered input) conditions
        → (assignment : Assignment) × SatisfiesAll assignment (formula conditions draws first).clauses × (input_of assignment draws ≡ input) }
    ensures only { (conditions : List Condition) (draws : List Bool) (first : Option OneTerm) → AreProper draws conditions → CanBeLeast draws first
        → (one other : Assignment) → SatisfiesAll one (formula conditions draws first).clauses → SatisfiesAll other (formula conditions draws first).clauses
        → input_of one draws ≡ input_of other draws
        → (variable : ℕ) → 1 ≤ variable → variable ≤ (formula conditions draws first).vars → one variable ≡ other variable }
{}

/// The input that an assignment gives has a number for each symbol, of its width.
pub fn assignments_give_inputs()
    ensures { (assignment : Assignment) (draws : List Bool) → IsInput draws (input_of assignment draws) }
{}

/// The decision order names each variable, from 1 on, exactly once, and each literal of the clauses is of one of them.
pub fn order_names_each_variable_once()
    ensures names { (conditions : List Condition) (draws : List Bool) (first : Option OneTerm) → AreProper draws conditions → CanBeLeast draws first
        → (variable : ℕ) → 1 ≤ variable → variable ≤ (formula conditions draws first).vars → Names (formula conditions draws first).order variable }
    ensures only { (conditions : List Condition) (draws : List Bool) (first : Option OneTerm) → AreProper draws conditions → CanBeLeast draws first
        → (variable : ℕ) → Names (formula conditions draws first).order variable → (1 ≤ variable) × (variable ≤ (formula conditions draws first).vars) }
    ensures once { (conditions : List Condition) (draws : List Bool) (first : Option OneTerm) → AreProper draws conditions → CanBeLeast draws first
        → length (formula conditions draws first).order ≡ (formula conditions draws first).vars }
    ensures literals { (conditions : List Condition) (draws : List Bool) (first : Option OneTerm) → AreProper draws conditions → CanBeLeast draws first
        → NamesAll (formula conditions draws first).order (formula conditions draws first).clauses }
{}

/// What each block of gates computes, over whole numbers: sums, comparisons with 0 and with one another, negations, counts,
/// quotients, products and choices.
pub fn blocks_compute()
    ensures add { AddLaw }
    ensures less { LessLaw }
    ensures none { NoneLaw }
    ensures negate { NegateLaw }
    ensures count { CountLaw }
    ensures divide { DivideLaw }
    ensures multiply { MultiplyLaw }
    ensures choose { ChooseLaw }
{}

/// The wires of each operator are the bits of its result.
pub fn operators_compute()
    ensures unary { UnaryLaw }
    ensures binary { BinaryLaw }
{}

/// A term over symbols that were drawn has the same value at a list of numbers as at the input that the list is for these
/// symbols.
pub fn lists_are_inputs()
    ensures input { (draws : List Bool) (numbers : List ℕ) → IsInput draws (numbers_for draws numbers) }
    ensures value { (draws : List Bool) (numbers : List ℕ) (t : OneTerm) → HasSymbols draws t → value_of (numbers_for draws numbers) t ≡ value_of numbers t }
{}
