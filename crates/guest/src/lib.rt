// The guest as the code holds it: plain structs by value, tables as arrays with the number of rows in use.
// What lies past a count is never read.
#![tactic(auto)]

ghost use Rattle.std.specs.Prelude.{◌≡◌};
ghost use Rattle.guest.specs.Machine.{view, fresh, no_bank, no_vcpu, bank_bits, Held};

// §1.4: the address width p in bits, and the run of guest memory.
#[derive(Clone, Copy, Debug, PartialEq, Eq)]
pub struct Memory {
    pub width: u64,
    pub start: u64,
    pub length: u64,
}

// §1.5, §1.7: the marks, which are 0 or 1, and two numbers. init, itsinit: the INIT is done. irqs: the interrupt count. irqsset: it counts
// as set (§3.14). status: the distributor's STATUSR (§4.14). A mark is a number, here and in the structs below, since any bytes are read as a
// guest: the definition `decode` gives a mark of 2 too, and `rules` refuses it.
#[derive(Clone, Copy, Debug, PartialEq, Eq)]
pub struct Control {
    pub init: u64,
    pub running: u64,
    pub irqs: u64,
    pub irqsset: u64,
    pub status: u64,
    pub itsinit: u64,
}

// §1.7: a base that may not be set: set is 0 or 1.
#[derive(Clone, Copy, Debug, PartialEq, Eq)]
pub struct Frame {
    pub set: u64,
    pub base: u64,
}

// §3.5: the frames that have one base: the distributor, the single redistributor run and the ITS.
#[derive(Clone, Copy, Debug, PartialEq, Eq)]
pub struct Frames {
    pub distributor: Frame,
    pub single: Frame,
    pub its: Frame,
}

// §3.7: a redistributor region: room for count redistributors from base.
#[derive(Clone, Copy, Debug, PartialEq, Eq)]
pub struct Region {
    pub base: u64,
    pub count: u64,
}

// The regions by their index. An array and a count, as for VCPUs and banks: there is no heap, and one struct over any row and any length is
// refused, since nothing bounds its size.
#[derive(Clone, Copy)]
pub struct Regions {
    pub rows: [Region; 32],
    pub count: usize,
}

// §4.1: a bank of 32 interrupts, a bit for each in latch, level and trigger (bit set: edge).
#[derive(Clone, Copy, Debug, PartialEq, Eq)]
pub struct Bank {
    pub latch: u64,
    pub level: u64,
    pub trigger: u64,
}

// §3.1, §4.2: a VCPU with its own bank, INTIDs 0 to 31, and its redistributor's STATUSR.
#[derive(Clone, Copy, Debug, PartialEq, Eq)]
pub struct Vcpu {
    pub affinity: u64,
    pub bank: Bank,
    pub status: u64,
}

// The VCPUs as they were added.
#[derive(Clone, Copy)]
pub struct Vcpus {
    pub rows: [Vcpu; 64],
    pub count: usize,
}

// The shared banks: INTIDs 32 to 63 first.
#[derive(Clone, Copy)]
pub struct Banks {
    pub rows: [Bank; 31],
    pub count: usize,
}

// §5.4, §1.7: where a table lies in memory: set is 0 or 1; pages of 4 KiB.
#[derive(Clone, Copy, Debug, PartialEq, Eq)]
pub struct Table {
    pub set: u64,
    pub start: u64,
    pub pages: u64,
}

// §5.4: the two tables that are placed together.
#[derive(Clone, Copy, Debug, PartialEq, Eq)]
pub struct Tables {
    pub devices: Table,
    pub collections: Table,
}

// All but the mapping.
#[derive(Clone, Copy)]
pub struct Guest {
    pub memory: Memory,
    pub control: Control,
    pub frames: Frames,
    pub regions: Regions,
    pub vcpus: Vcpus,
    pub shared: Banks,
    pub tables: Tables,
}

impl Guest {
    pub const MAX_VCPUS: usize = 64;

    pub const MAX_REGIONS: usize = 32;

    pub const MAX_COLLECTIONS: usize = 16;

    pub const MAX_DEVICES: usize = 32;

    pub const MAX_EVENTS: usize = 1024;

    pub const FRESH_IRQS: u64 = 64;

    // What a fresh guest had once: a guest that was kept from then may have it and have set none (§1.17).
    pub const FORMER_IRQS: u64 = 256;

    // A fresh guest (§1.5).
    pub fn new(width: u64, start: u64, length: u64) -> Guest
        ensures { (view result ≡ fresh width start length) × Held result }
    {
        let none = Frame { set: 0, base: 0 };
        let frames = Frames {
            distributor: none,
            single: none,
            its: none,
        };
        let unplaced = Table {
            set: 0,
            start: 0,
            pages: 0,
        };
        let regions = Regions {
            rows: [Region { base: 0, count: 0 }; 32],
            count: 0,
        };
        let banks = Guest::FRESH_IRQS / 32 - 1;
        Guest {
            memory: Memory {
                width: width,
                start: start,
                length: length,
            },
            control: Control {
                init: 0,
                running: 0,
                irqs: Guest::FRESH_IRQS,
                irqsset: 0,
                status: 0,
                itsinit: 0,
            },
            frames: frames,
            regions: regions,
            vcpus: no_vcpus(),
            shared: Banks {
                rows: [fresh_bank(); 31],
                count: banks as usize,
            },
            tables: Tables {
                devices: unplaced,
                collections: unplaced,
            },
        }
    }
}

// A fresh shared bank (§4.3): latches and levels 0, every trigger level.
pub fn fresh_bank() -> Bank
    ensures { result ≡ no_bank }
{
    Bank {
        latch: 0,
        level: 0,
        trigger: 0,
    }
}

// How many interrupts the shared bank of a row has (§4.17): INTIDs 1,020 to 1,023 are none.
pub fn bank_bits(j: usize) -> u32
    ensures { result ≡ bank_bits j }
{
    if j == 30 {
        return 28;
    }
    32
}

// A VCPU as it is added (§3.1): its SGIs, INTIDs 0 to 15, are edge.
pub fn fresh_vcpu(affinity: u64) -> Vcpu
    ensures { result ≡ no_vcpu affinity }
{
    Vcpu {
        affinity: affinity,
        bank: Bank {
            latch: 0,
            level: 0,
            trigger: 0xFFFF,
        },
        status: 0,
    }
}

fn no_vcpus() -> Vcpus
    ensures { result.count ≡ 0 }
{
    Vcpus {
        rows: [fresh_vcpu(0); 64],
        count: 0,
    }
}
