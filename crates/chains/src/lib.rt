// Entries that are chained by distances.
#![tactic(auto)]

// §9.6, as the definition `following` has it: where an entry's next leads: it is the last entry, or the one that follows is at an index, or the next is a fault.
#[derive(Clone, Copy)]
pub enum Next {
    Last,
    At(usize),
    Bad,
}
