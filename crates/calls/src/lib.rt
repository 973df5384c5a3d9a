// Every call on lent bytes: the test of the state, the step, and the state stored again.
#![tactic(auto)]

mod commands;
mod groups;

ghost use Rattle.std.specs.Prelude.{◌≡◌, length, true, ◌<◌, ◌^◌, IfOk};
ghost use Rattle.guest.specs.Machine.{view, Held};
ghost use Rattle.guest.specs.Returned.{fault, reading, Does};
ghost use Rattle.rules.specs.Rules.{Kept};
ghost use Rattle.layout.specs.Layout.{size, decode, stored};
ghost use Rattle.maplayout.specs.MapLayout.{decode_map, stored_map};
ghost use Rattle.calls.specs.Steps.{change_step, ask_step};
ghost use Rattle.state.specs.Sound.{sound};
ghost use Rattle.mapping.specs.Mapped.{rows, Within};
ghost use Rattle.mapping.specs.MapRules.{MapKept};
ghost use Rattle.calls.specs.Commands.{BoxDoes, command_step};
ghost use Rattle.calls.specs.Call.{guarded, changes, asks, set_up, value_of, given, answered, read_as, Gives};
ghost use Rattle.calls.specs.Signed.{signed};
ghost use Rattle.calls.specs.Call.{commands, looks, saves, restores, Explains};

use answers::Errno;
use guest::Guest;
use mapping::Mapping;

// Calls that may change the state (`change_step` says which paragraph each is). An enum, as are the next two: the definitions take a call as a value. Attributes come with the width of the lent value and its
// number (§2.8).
#[derive(Clone, Copy)]
pub enum Change {
    AddVcpu(u64),
    Start,
    Stop,
    VgicSet(u64, u64, u64, u64),
    ItsSet(u64, u64, u64, u64),
    SetPending(u64, u64),
    ClearPending(u64, u64),
    Activate(u64, u64),
    Line(u64, u64, u64),
    Trigger(u64, u64, u64),
}

// Calls that only ask (`ask_step`); of attributes likewise. A get of a region is told its index by the lent value (§3.10).
#[derive(Clone, Copy)]
pub enum Question {
    VgicGet(u64, u64, u64, u64),
    ItsGet(u64, u64, u64),
    RedistBase(u64),
    Pending(u64, u64),
}

// The commands of the ITS (part 5 of docs/DEFINITION.md; `command_step`), and RESET with the width of its value (§2.9).
#[derive(Clone, Copy)]
pub enum Command {
    Place(u64, u64, u64, u64),
    MapDevice(u64, u64, u64),
    UnmapDevice(u64),
    MapCollection(u64, u64),
    UnmapCollection(u64),
    MapEvent(u64, u64, u64, u64),
    Discard(u64, u64),
    Move(u64, u64, u64),
    Reset(u64),
}

// What the bytes of a state hold.
#[derive(Clone, Copy)]
pub struct Contents {
    pub guest: Guest,
    pub mapping: Mapping,
}

pub fn step(g: Guest, c: Change) -> Result<Guest, Errno>
    requires { Kept g }
    ensures { Does (view g) result (change_step c (view g)) }
{
    match c {
        Change::AddVcpu(affinity) => frames::vcpus::add_vcpu(g, affinity),
        Change::Start => frames::vcpus::set_running(g, 1),
        Change::Stop => frames::vcpus::set_running(g, 0),
        Change::VgicSet(group, attribute, width, value) => groups::vgic_set(
            g, group, attribute, width, value,
        ),
        Change::ItsSet(group, attribute, width, value) => groups::its_set(
            g, group, attribute, width, value,
        ),
        Change::SetPending(vcpu, intid) => irqs::calls::irq_set(g, vcpu, intid),
        Change::ClearPending(vcpu, intid) => irqs::calls::irq_clear(g, vcpu, intid),
        Change::Activate(vcpu, intid) => irqs::calls::irq_clear(g, vcpu, intid),
        Change::Line(vcpu, intid, level) => irqs::calls::irq_line(g, vcpu, intid, level),
        Change::Trigger(vcpu, intid, word) => irqs::calls::irq_trigger(g, vcpu, intid, word),
    }
}

pub fn answer(g: Guest, q: Question) -> Result<u64, Errno>
    requires { Kept g }
    ensures { reading result ≡ ask_step q (view g) }
{
    match q {
        Question::VgicGet(group, attribute, width, value) => groups::vgic_get(
            g, group, attribute, width, value,
        ),
        Question::ItsGet(group, attribute, width) => groups::its_get(g, group, attribute, width),
        Question::RedistBase(vcpu) => frames::init::redist_base(g, vcpu),
        Question::Pending(vcpu, intid) => irqs::calls::irq_pending(g, vcpu, intid),
    }
}

// §1.8: the test that every call makes first, of bytes of the right length: the counts, before a row is read, then the guest's rules and
// the mapping's. Rows are read where they lie.
pub fn is_sound(s: &[u8]) -> bool
    requires { length s.now ≡ size }
    ensures { result ≡ sound s.now }
{
    if !layout::counts_ok(s) {
        return false;
    }
    if !maplayout::map_counts_ok(s) {
        return false;
    }
    if !keeps::keeps_rules(s) {
        return false;
    }
    mapcheck::keeps_map_rules(s)
}

// §1.3: how every call but set-up begins.
fn check(s: &[u8]) -> Result<(), Errno>
    ensures { fault result ≡ guarded (λ e. e) 0 s.now }
{
    if s.len() != 11400 {
        return Err(Errno::EFAULT);
    }
    if !is_sound(s) {
        return Err(Errno::EINVAL);
    }
    Ok(())
}

// A change of a state that was tested. A function of its own in the machine's code too, so that a refusal by the test clears no room for a guest.
#[inline(never)]
fn apply_tested(state: &mut [u8], c: Change) -> Result<(), Errno>
    requires { 0 ≡ guarded (λ e. e) 0 state.old }
    ensures { Gives (changes c state.old) (signed result) state.new }
{
    let next = step(layout::load_guest(state), c)?;
    layout::store_guest(state, next);
    Ok(())
}

pub fn apply(state: &mut [u8], c: Change) -> Result<(), Errno>
    ensures { Gives (changes c state.old) (signed result) state.new }
{
    check(state)?;
    apply_tested(state, c)
}

pub fn ask(state: &[u8], q: Question) -> Result<u64, Errno>
    ensures { reading result ≡ asks q state.now }
{
    check(state)?;
    answer(layout::load_guest(state), q)
}

// §1.4: makes a fresh guest of any bytes of the right length.
pub fn set_up(state: &mut [u8], width: u64, start: u64, length: u64) -> Result<(), Errno>
    ensures { Gives (set_up width start length state.old) (signed result) state.new }
{
    if state.len() != 11400 {
        return Err(Errno::EFAULT);
    }
    let g = Guest::new(width, start, length);
    let memory = g.memory;
    if !keeps::memory_ok(memory) {
        return Err(Errno::EINVAL);
    }
    let none = Mapping::new();
    maplayout::store_mapping(state, none);
    layout::store_guest(state, g);
    Ok(())
}

// §2.8: the number that a lent value stands for.
pub fn value_of(value: &[u8]) -> u64
    ensures { result ≡ value_of value.now }
{
    match value.len() {
        4 => words::get32(value, 0),
        8 => words::get64(value, 0),
        _ => 0,
    }
}

// §2.8: fills a lent value with what a question came to.
pub fn give(value: &mut [u8], r: Result<u64, Errno>) -> Result<(), Errno>
    ensures { Gives (given (reading r) value.old) (signed result) value.new }
{
    words::fill(value, r?);
    Ok(())
}

// The same of the errno and the number that a question came to, of any errno below 4,096; 0 is none.
pub fn give_number(value: &mut [u8], errno: u64, number: u64) -> i64
    requires { errno < 4096 }
    ensures { Gives (given (read_as errno number) value.old) result value.new }
{
    if errno != 0 {
        return answers::refuse(errno);
    }
    words::fill(value, number);
    0
}

// What a question for a number came to, as the C interface has it (§2.1).
pub fn tell(r: Result<u64, Errno>) -> i64
    requires { IfOk r (λ n. n < 2 ^ 63) }
    ensures { result ≡ answered (reading r) }
{
    match r {
        Ok(n) => answers::done(n),
        Err(e) => e.refusal(),
    }
}

// The same of the errno and the number, of any errno below 4,096; 0 is none.
pub fn tell_number(errno: u64, number: u64) -> i64
    requires { (errno < 4096) × (number < 2 ^ 63) }
    ensures { result ≡ answered (read_as errno number) }
{
    if errno != 0 {
        return answers::refuse(errno);
    }
    answers::done(number)
}

// What a call that answers no number came to, likewise.
pub fn sign(r: Result<(), Errno>) -> i64
    ensures { result ≡ signed r }
{
    match r {
        Ok(()) => 0,
        Err(e) => e.refusal(),
    }
}

// An ITS command as a step of the guest and its mapping.
pub fn perform(g: Guest, k: Mapping, c: Command) -> Result<Contents, Errno>
    requires { MapKept g k }
    ensures { BoxDoes (view g) (rows k) result (command_step c (view g) (rows k)) }
{
    match c {
        Command::Place(ds, dp, cs, cp) => commands::place(g, k, ds, dp, cs, cp),
        Command::MapDevice(id, itt, bits) => commands::map_device(g, k, id, itt, bits),
        Command::UnmapDevice(id) => commands::unmap_device(g, k, id),
        Command::MapCollection(icid, pe) => commands::map_collection(g, k, icid, pe),
        Command::UnmapCollection(icid) => commands::unmap_collection(g, k, icid),
        Command::MapEvent(device, event, lpi, icid) => commands::map_event(
            g, k, device, event, lpi, icid,
        ),
        Command::Discard(device, event) => commands::discard(g, k, device, event),
        Command::Move(device, event, icid) => commands::move_event(g, k, device, event, icid),
        Command::Reset(width) => commands::reset(g, k, width),
    }
}

// An ITS command on the guest and the mapping that sound bytes stand for.
#[inline(never)]
fn performed(s: &[u8], c: Command) -> Result<Contents, Errno>
    requires { (length s.now ≡ size) × (sound s.now ≡ true) }
    ensures { BoxDoes (decode s.now) (decode_map s.now) result (command_step c (decode s.now) (decode_map s.now)) }
{
    perform(layout::load_guest(s), maplayout::load_mapping(s), c)
}

// The next guest and mapping in place of those that the bytes held.
#[inline(never)]
fn store_contents(s: &mut [u8], o: Contents)
    requires { (length s.old ≡ size) × (Held o.guest) × (Within o.mapping) }
    ensures { s.new ≡ stored_map (rows o.mapping) (stored (view o.guest) s.old) }
{
    let next = o.guest;
    let rows = o.mapping;
    layout::store_guest(s, next);
    maplayout::store_mapping(s, rows);
}

// The work is in two functions of their own, so that what the first needs of the stack is free again for the second.
pub fn run_command(state: &mut [u8], c: Command) -> Result<(), Errno>
    ensures { Gives (commands c state.old) (signed result) state.new }
{
    check(state)?;
    let next = performed(state, c)?;
    store_contents(state, next);
    Ok(())
}

pub fn look(state: &[u8], device: u64, event: u64) -> Result<u64, Errno>
    ensures { reading result ≡ looks device event state.now }
{
    check(state)?;
    commands::look_up(
        layout::load_guest(state),
        maplayout::load_mapping(state),
        device,
        event,
    )
}

// Writes the tables into the lent memory; the state stays.
pub fn save(state: &[u8], mem: &mut [u8]) -> Result<(), Errno>
    ensures { Gives (saves state.now mem.old) (signed result) mem.new }
{
    check(state)?;
    commands::memory_fault(state, mem.len() as u64)?;
    save::save_tables(state, mem);
    Ok(())
}

// A copy of a state. The slice has its length in the text, so that the compiler need not clear the copy before it fills it.
fn copy_of(s: &[u8]) -> [u8; 11400]
    requires { length s.now ≡ size }
    ensures { result ≡ s.now }
{
    let mut copy = [0; 11400];
    copy.copy_from_slice(&s[..11400]);
    copy
}

// Reads the mapping from the tables in the lent memory, which stays, into a copy of the state: a restore that is refused half way
// leaves the state as it was. Nothing but the mapping changes.
pub fn restore(state: &mut [u8], mem: &[u8]) -> Result<(), Errno>
    ensures { Gives (restores state.old mem.now) (signed result) state.new }
{
    check(state)?;
    commands::memory_fault(state, mem.len() as u64)?;
    let mut next = copy_of(state);
    restore::restore_tables(&mut next, mem)?;
    state.copy_from_slice(&next);
    Ok(())
}

// Says what a restore would meet: the code of the first fault, or 0. It is a restore into a copy of the state, which is dropped.
pub fn explain(state: &[u8], mem: &[u8]) -> Result<u64, Errno>
    ensures { Explains result state.now mem.now }
{
    check(state)?;
    commands::memory_fault(state, mem.len() as u64)?; // no code, but a refusal
    let mut next = copy_of(state);
    Ok(codes::code_of(restore::read_tables(&mut next, mem)))
}
