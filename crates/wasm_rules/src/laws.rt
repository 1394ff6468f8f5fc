// Laws of words.
ghost use Rattle.std.specs.Prelude.{◌≡◌, ℕ, ◌%◌, ◌^◌, ◌<◌, None, is_some};
ghost use Rattle.wasm_ast.specs.Opcodes as classes;
ghost use Rattle.int_ops.specs.Operators.{is_unary, is_binary};
ghost use Rattle.wasm_rules.specs.declared.accesses.Access.{Access as OneAccess};
ghost use Rattle.wasm_rules.specs.Words.{Gives, HasNumber, numbers};
ghost use Rattle.wasm_rules.specs.Accesses.{accessed, lowest_bytes, load_of, store_of, loaded, stored};

/// The operations on numbers give numbers of the operators' widths.
pub fn numbers_have_widths()
    ensures { Gives numbers HasNumber }
{}

/// A load, where it is no signed one, gives the bits that were stored.
pub fn loads_after_stores()
    ensures part { (access : OneAccess) (x : ℕ) → access.extend ≡ None → accessed numbers access (lowest_bytes numbers access.bytes x) ≡ x % 256 ^ access.bytes }
    ensures i32 { (x : ℕ) → x < 2 ^ 32 → loaded numbers 0x28 (stored numbers 0x36 x) ≡ x }
    ensures i64 { (x : ℕ) → x < 2 ^ 64 → loaded numbers 0x29 (stored numbers 0x37 x) ≡ x }
{}

/// A byte is the opcode of an instruction with one operand or two, of a load or of a store exactly where the tables have it.
pub fn classes_agree()
    ensures unary { (op : ℕ) → op < 256 → classes.is_unary op ≡ is_unary op }
    ensures binary { (op : ℕ) → op < 256 → classes.is_binary op ≡ is_binary op }
    ensures loads { (op : ℕ) → op < 256 → classes.is_load op ≡ is_some (load_of op) }
    ensures stores { (op : ℕ) → op < 256 → classes.is_store op ≡ is_some (store_of op) }
{}
