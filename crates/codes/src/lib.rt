// The faults of a restore: the kinds of §13.4, each at its place, and their codes with table, device and entry (§13.6).
#![tactic(auto)]

ghost use Rattle.std.specs.Prelude.{◌≡◌};
ghost use Rattle.answers.specs.Number.{number};
ghost use Rattle.tables.specs.Fault.{kind_errno, place_number, code};
ghost use Rattle.codes.specs.Codes.{kind_is, place_is, fault_is, code_met, Numbers, Answers};

use answers::Errno;

// Where the kind, the table and the device stand in a code.
const KIND: u64 = 0x10000000000;

const TABLE: u64 = 0x100000000;

const DEVICE: u64 = 0x10000;

// What a fault is, by its number.
#[derive(Clone, Copy, Debug, PartialEq, Eq)]
pub enum Kind {
    Pe = 1,
    Repeat = 2,
    Collection17th = 3,
    Next = 4,
    Size = 5,
    Device33rd = 6,
    Outside = 7,
    Overlap = 8,
    Lpi = 9,
    Icid = 10,
    Event1025th = 11,
}

impl Kind {
    // The errno of a restore that such a fault stops.
    pub fn errno(self) -> Errno
        ensures { number result ≡ kind_errno (kind_is self) }
    {
        match self {
            Kind::Outside => Errno::EFAULT,
            Kind::Collection17th | Kind::Device33rd | Kind::Event1025th => Errno::ENOMEM,
            _ => Errno::EINVAL,
        }
    }
}

// A number that no kind has.
#[derive(Clone, Copy, Debug, PartialEq, Eq)]
pub struct NoKind;

impl TryFrom<u64> for Kind {
    type Error = NoKind;

    ghost try_from_gives = { Numbers };

    fn try_from(n: u64) -> Result<Kind, NoKind> {
        match n {
            1 => Ok(Kind::Pe),
            2 => Ok(Kind::Repeat),
            3 => Ok(Kind::Collection17th),
            4 => Ok(Kind::Next),
            5 => Ok(Kind::Size),
            6 => Ok(Kind::Device33rd),
            7 => Ok(Kind::Outside),
            8 => Ok(Kind::Overlap),
            9 => Ok(Kind::Lpi),
            10 => Ok(Kind::Icid),
            11 => Ok(Kind::Event1025th),
            _ => Err(NoKind),
        }
    }
}

// The entry that is read when a fault is met.
#[derive(Clone, Copy, Debug, PartialEq, Eq)]
pub enum Place {
    // An entry of the collection table.
    Collection(u16),
    // An entry of the device table.
    Device(u16),
    // An entry of the ITT of a device, whose ID comes first.
    Event(u16, u16),
}

impl Place {
    // Its part of a code.
    pub fn number(self) -> u64
        ensures { result ≡ place_number (place_is self) }
    {
        match self {
            Place::Collection(i) => TABLE + i as u64,
            Place::Device(i) => 2 * TABLE + i as u64,
            Place::Event(id, i) => 3 * TABLE + DEVICE * (id as u64) + i as u64,
        }
    }
}

#[derive(Clone, Copy, Debug, PartialEq, Eq)]
pub struct Fault {
    pub kind: Kind,
    pub place: Place,
}

impl Fault {
    pub fn code(self) -> u64
        ensures { result ≡ code (fault_is self) }
    {
        KIND * (self.kind as u64) + self.place.number()
    }

    // The errno of a restore that it stops.
    pub fn errno(self) -> Errno
        ensures { number result ≡ kind_errno (fault_is self).kind }
    {
        self.kind.errno()
    }
}

// The code of the fault that was met, 0 for none.
pub fn code_of(met: Result<(), Fault>) -> u64
    ensures { result ≡ code_met met }
{
    match met {
        Ok(()) => 0,
        Err(fault) => fault.code(),
    }
}

// The errno of a restore that is stopped by the fault of a code. Answers is of any code, so that both are numbers.
pub fn number_of(code: u64) -> u64
    ensures { Answers code result }
{
    match Kind::try_from(code / KIND) {
        Ok(kind) => kind.errno().number(),
        Err(NoKind) => Errno::EINVAL.number(),
    }
}
