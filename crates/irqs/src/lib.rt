// Banks of 32 interrupts: reading pending, changes of a latch, a line or a trigger word, and the registers of groups 1, 5 and 7.
#![tactic(auto)]

pub mod calls;
pub mod groups;
mod registers;
mod spots;

// §4.2, §4.9: where the bank of an INTID is: the own one of a VCPU, by its number; a shared one, by its row, the bank of INTID 32 first;
// or none, past the interrupt count: the three of the definition `spot_of`.
#[derive(Clone, Copy)]
pub enum Spot {
    Own(usize),
    Shared(usize),
    Absent,
}

// §4.11, §4.12: what an offset of a frame names: the latch word of a bank, by the bank's number; a word that reads 0 and ignores writes;
// STATUSR; or nothing that is known: the four of the definition `distributor_register`.
#[derive(Clone, Copy)]
pub enum Register {
    Latch(usize),
    Zero,
    Status,
    Unknown,
}
