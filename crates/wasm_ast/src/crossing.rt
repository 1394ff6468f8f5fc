// That the types may move between threads and be shared by them.
use crate::lists::List;
use crate::modules::Module;
use crate::runs::Ran;
use crate::texts::Text;

fn crosses<T: Send + Sync>(_x: &T) {}

/// A list may move between threads and be shared by them where its items may.
pub fn list_crosses<T: Send + Sync>(list: &List<T>) {
    crosses(list);
}

/// So may a text, a module and what a run gives, with all that is inside them.
pub fn all_cross(text: &Text, module: &Module, ran: &Ran) {
    crosses(text);
    crosses(module);
    crosses(ran);
}
