// A number by which formulas are told apart.
use refute_check::Cnf;

fn mixed(print: u64, n: u64) -> u64 {
    let low = (print ^ n).wrapping_mul(0x9E37_79B9_7F4A_7C15);
    low ^ (low >> 29)
}

fn with_all(print: u64, numbers: &[u64]) -> u64 {
    let mut all = print;
    for n in numbers {
        all = mixed(all, *n);
    }
    mixed(all, 0)
}

/// A print of all literals, clause for clause, and of the order: formulas with different prints differ.
pub fn fingerprint(cnf: &Cnf) -> u64 {
    let mut print = 0;
    for clause in cnf.clauses.as_slice() {
        print = with_all(print, clause.as_slice());
    }
    with_all(print, cnf.order.as_slice())
}
