// The line for an image of guest memory.
ghost use Rattle.std.specs.Prelude.{◌≡◌, ◌≤◌, length};
ghost use Rattle.answers.specs.Number.{number};
ghost use Rattle.codes.specs.Codes.{fault_is};
ghost use Rattle.lines.specs.Text.{ascii};
ghost use Rattle.explain.specs.Explained.{refused, fault_line, early, explained};

use answers::Errno;
use arrayvec::ArrayVec;
use codes::Fault;

// The longest line has 123 bytes: 31 of the answer, since a number takes at most 20 digits and a byte ends it, 91 of the fault, 1.
pub type Line = ArrayVec<u8, 123>;

// What a refusal begins with.
fn refused(errno: Errno) -> Line
    ensures { (result.items ≡ refused (number errno)) × (length result.items ≤ 31) }
{
    let mut out = Line::new();
    lines::put_number(&mut out, b"refused -", errno.number(), b':');
    lines::put_text(&mut out, b" ");
    out
}

// The line for a length that no image has.
fn early() -> Line
    ensures { result.items ≡ early }
{
    let mut out = refused(Errno::EFAULT);
    lines::put_text(&mut out, b"before any table is read\n");
    out
}

fn described() -> Line
    ensures { result.items ≡ ascii "described\n" }
{
    let mut out = Line::new();
    lines::put_text(&mut out, b"described\n");
    out
}

fn fault_line(fault: Fault) -> Line
    ensures { result.items ≡ fault_line (fault_is fault) }
{
    let mut out = refused(fault.errno());
    naming::put_met(&mut out, fault);
    lines::put_text(&mut out, b"\n");
    out
}

pub fn explain_image(bytes: &[u8]) -> Line
    ensures { result.items ≡ explained bytes.now }
{
    if !image::is_image(bytes.len()) {
        return early();
    }
    let mut state = [0u8; image::STATE];
    image::store_guest_of(&mut state, bytes.len() as u64);
    match restore::read_tables(&mut state, bytes) {
        Ok(()) => described(),
        Err(fault) => fault_line(fault),
    }
}
