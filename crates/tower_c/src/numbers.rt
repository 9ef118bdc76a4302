//! Events and replies as the numbers that cross to C.

ghost use Rattle.std.specs.Prelude.{◌≡◌};
ghost use Rattle.tower_c.specs.Border.{size_of, right_of, pid_of, call_of, event_in, cause_number, numbers, refused_numbers, no_event, reply_numbers, role_numbers, container_numbers, access_of, walk_numbers, ended_numbers};

use alloc_table::Role;
use kernel_calls::{Call, Cause, Ended, Event, Reply};
use page_words::{Frame, Page, Pid, Size, Vaddr};
use quota_tree::Container;
use table_walk::{Access, WalkEnd};

/// An event, as C gives it.
#[repr(C)]
#[derive(Clone, Copy)]
pub struct TowerEvent {
    /// The CPU, any number.
    pub cpu: u8,
    /// The process, 0 to 63.
    pub pid: u8,
    /// 0 Load, 1 Store, 2 Map, 3 Unmap, 4 Protect, 5 Info, 6 Offer, 7 Withdraw, 8 Accept, 9 Spawn,
    /// 10 Exit, 11 Quota, 12 Fork.
    pub call: u8,
    /// The size of Load and Store, 1, 2 or 4; the right of Map, Protect and Offer, 0 or 1.
    pub flag: u8,
    /// The address, the page (the giver's for Accept) or the quota.
    pub first: u32,
    /// The value of Store, the target of Offer and Withdraw, the giver of Accept.
    pub second: u32,
    /// The own page of Accept.
    pub third: u32,
}

/// A reply, as C reads it.
#[repr(C)]
#[derive(Clone, Copy)]
pub struct TowerReply {
    /// 0 Done, 1 Value, 2 Child, 3 Info, 4 Quota, 5 Fault, 6 Refused, 7 no event.
    pub kind: u32,
    /// The value, the child, the holders, the quota, the address or the cause.
    pub first: u32,
    /// The frames used, or the fault's code.
    pub second: u32,
    /// The frames given.
    pub third: u32,
    /// The flags of Info, with the next three.
    pub write: bool,
    pub may: bool,
    pub accessed: bool,
    pub dirty: bool,
}

/// The size of an access: 1, 2 or 4.
#[inline(always)]
fn size_from(n: u8) -> Option<Size>
    ensures { result ≡ size_of n }
{
    match n {
        1 => Some(Size::One),
        2 => Some(Size::Two),
        4 => Some(Size::Four),
        _ => None,
    }
}

/// A right: 0 to read, 1 to write too.
#[inline(always)]
fn right_from(n: u8) -> Option<bool>
    ensures { result ≡ right_of n }
{
    match n {
        0 => Some(false),
        1 => Some(true),
        _ => None,
    }
}

/// A process: 0 to 63.
#[inline(always)]
pub fn pid_from(n: u32) -> Option<Pid>
    ensures { result ≡ pid_of n }
{
    if n < 64 { Pid::new(n as u8) } else { None }
}

/// The call that the numbers say; None where they say none.
#[inline(always)]
fn call_from(e: &TowerEvent) -> Option<Call>
    ensures { result ≡ call_of e.now }
{
    let (addr, page) = (Vaddr(e.first), Page(e.first));
    match e.call {
        0 => Some(Call::Load {
            addr,
            size: size_from(e.flag)?,
        }),
        1 => Some(Call::Store {
            addr,
            size: size_from(e.flag)?,
            value: e.second,
        }),
        2 => Some(Call::Map {
            page,
            write: right_from(e.flag)?,
        }),
        3 => Some(Call::Unmap { page }),
        4 => Some(Call::Protect {
            page,
            write: right_from(e.flag)?,
        }),
        5 => Some(Call::Info { page }),
        6 => Some(Call::Offer {
            page,
            target: pid_from(e.second)?,
            write: right_from(e.flag)?,
        }),
        7 => Some(Call::Withdraw {
            page,
            target: pid_from(e.second)?,
        }),
        8 => Some(Call::Accept {
            giver: pid_from(e.second)?,
            giver_page: page,
            page: Page(e.third),
        }),
        9 => Some(Call::Spawn { quota: e.first }),
        10 => Some(Call::Exit),
        11 => Some(Call::Quota),
        12 => Some(Call::Fork { quota: e.first }),
        _ => None,
    }
}

/// The event that the numbers say; None where they say none.
#[inline(always)]
pub fn event_from(e: &TowerEvent) -> Option<Event>
    ensures { result ≡ event_in e.now }
{
    let pid = Pid::new(e.pid)?;
    let call = call_from(e)?;
    Some(Event {
        cpu: e.cpu,
        pid,
        call,
    })
}

/// The number of a cause.
#[inline(always)]
fn number_from(cause: Cause) -> u32
    ensures { result ≡ cause_number cause }
{
    match cause {
        Cause::NoProcess => 1,
        Cause::BadPage => 2,
        Cause::NotMapped => 4,
        Cause::Mapped => 5,
        Cause::Quota => 6,
        Cause::Rights => 7,
        Cause::SelfOffer => 8,
        Cause::NoTarget => 9,
        Cause::OfferPending => 10,
        Cause::TooManyOffers => 11,
        Cause::NoOffer => 12,
        Cause::TableFull => 13,
        Cause::BadQuota => 14,
        Cause::HasChildren => 15,
        Cause::RootExit => 16,
        Cause::TooSmall => 17,
    }
}

/// A reply with no flags.
#[inline(always)]
fn numbers_from(kind: u32, first: u32, second: u32, third: u32) -> TowerReply
    ensures { result ≡ numbers kind first second third }
{
    TowerReply {
        kind,
        first,
        second,
        third,
        write: false,
        may: false,
        accessed: false,
        dirty: false,
    }
}

/// Returns the reply Done, as numbers.
pub fn done() -> TowerReply
    ensures { result ≡ numbers 0 0 0 0 }
{
    numbers_from(0, 0, 0, 0)
}

/// Returns the reply to numbers that are no event: kind 7.
#[inline(always)]
pub fn no_event() -> TowerReply
    ensures { result ≡ no_event }
{
    numbers_from(7, 0, 0, 0)
}

/// Returns a refusal as numbers.
pub fn refused_for(cause: Cause) -> TowerReply
    ensures { result ≡ refused_numbers cause }
{
    numbers_from(6, number_from(cause), 0, 0)
}

/// Writes the kind of a reply and its first number, where all numbers are 0.
#[inline(always)]
fn put_numbers(to: &mut TowerReply, kind: u32, first: u32)
    requires { to.old ≡ numbers 0 0 0 0 }
    ensures { to.new ≡ numbers kind first 0 0 }
{
    to.kind = kind;
    to.first = first;
}

/// Writes a reply where all numbers are 0, as those of Done are: only what isn't 0 is written.
#[inline(always)]
pub fn tell(reply: &Reply, to: &mut TowerReply)
    requires { to.old ≡ numbers 0 0 0 0 }
    ensures { to.new ≡ reply_numbers reply.now }
{
    match *reply {
        Reply::Done => {}
        Reply::Value(value) => put_numbers(to, 1, value),
        Reply::Child(pid) => put_numbers(to, 2, u32::from(pid.number())),
        Reply::Info {
            write,
            may,
            accessed,
            dirty,
            holders,
        } => {
            *to = TowerReply {
                kind: 3,
                first: holders,
                second: 0,
                third: 0,
                write,
                may,
                accessed,
                dirty,
            };
        }
        Reply::Quota { quota, used, given } => *to = numbers_from(4, quota, used, given),
        Reply::Fault { addr, code } => *to = numbers_from(5, addr.0, u32::from(code), 0),
        Reply::Refused(cause) => put_numbers(to, 6, number_from(cause)),
    }
}

/// Any reply as numbers. It is inlined nowhere: most replies are Done or a value.
#[inline(never)]
fn any_told_from(reply: Reply) -> TowerReply
    ensures { result ≡ reply_numbers reply }
{
    let mut told = done();
    tell(&reply, &mut told);
    told
}

/// A reply as numbers.
#[inline(always)]
pub fn told_from(reply: &Reply) -> TowerReply
    ensures { result ≡ reply_numbers reply.now }
{
    match *reply {
        Reply::Done => done(),
        Reply::Value(value) => numbers_from(1, value, 0, 0),
        _ => any_told_from(*reply),
    }
}

/// What a frame serves: kind 0 Reserved, 1 Free, 2 Directory, 3 Table, 4 Page.
#[repr(C)]
#[derive(Clone, Copy)]
pub struct TowerRole {
    pub kind: u32,
    /// The process of a directory or a table.
    pub pid: u32,
    /// The slot of a table.
    pub slot: u32,
    /// How many hold a page.
    pub count: u32,
}

/// What a process may use, uses and gives, in frames.
#[repr(C)]
#[derive(Clone, Copy)]
pub struct TowerContainer {
    /// The process that gave the quota.
    pub parent: u32,
    pub quota: u32,
    pub used: u32,
    pub given: u32,
    pub children: u32,
}

/// A frame's role as numbers.
pub fn role_from(role: Role) -> TowerRole
    ensures { result ≡ role_numbers role }
{
    let (kind, pid, slot, count) = match role {
        Role::Reserved => (0, 0, 0, 0),
        Role::Free => (1, 0, 0, 0),
        Role::Directory { pid } => (2, u32::from(pid.number()), 0, 0),
        Role::Table { pid, slot } => (3, u32::from(pid.number()), slot, 0),
        Role::Page { count } => (4, 0, 0, count),
    };
    TowerRole {
        kind,
        pid,
        slot,
        count,
    }
}

/// A container as numbers.
pub fn container_from(container: &Container) -> TowerContainer
    ensures { result ≡ container_numbers container.now }
{
    TowerContainer {
        parent: u32::from(container.parent.number()),
        quota: container.quota,
        used: container.used,
        given: container.given,
        children: container.children,
    }
}

/// How a processor's walk ends: kind 0 at a frame, 1 as a page fault with that code, 2 outside memory.
#[repr(C)]
#[derive(Clone, Copy)]
pub struct TowerWalk {
    pub kind: u32,
    /// The frame that it finds.
    pub frame: u32,
    /// The error code of its page fault, 4 to 7.
    pub code: u32,
}

/// Returns the access of a walk: Write if `write`, otherwise Read.
pub fn access_from(write: bool) -> Access
    ensures { result ≡ access_of write }
{
    if write { Access::Write } else { Access::Read }
}

/// A walk's end as numbers.
pub fn walk_from(end: Result<Frame, WalkEnd>) -> TowerWalk
    ensures { result ≡ walk_numbers end }
{
    let (kind, frame, code) = match end {
        Ok(Frame(at)) => (0, at, 0),
        Err(WalkEnd::Fault(fault)) => (1, 0, u32::from(fault.code)),
        Err(WalkEnd::Outside) => (2, 0, 0),
    };
    TowerWalk { kind, frame, code }
}

/// Which cached translations an event ends: kind 0 none, 1 that of one page, 2 those of two pages, 3 all of the
/// process.
#[repr(C)]
#[derive(Clone, Copy)]
pub struct TowerEnded {
    pub kind: u32,
    /// Whose they are.
    pub pid: u32,
    /// The page, or the first of the two.
    pub first: u32,
    pub second: u32,
}

/// What an event ends, as numbers.
pub fn ended_from(ended: Ended) -> TowerEnded
    ensures { result ≡ ended_numbers ended }
{
    let (kind, pid, first, second) = match ended {
        Ended::Nothing => (0, 0, 0, 0),
        Ended::Page { pid, page } => (1, u32::from(pid.number()), page.0, 0),
        Ended::Pages { pid, first, second } => (2, u32::from(pid.number()), first.0, second.0),
        Ended::Space { pid } => (3, u32::from(pid.number()), 0, 0),
    };
    TowerEnded {
        kind,
        pid,
        first,
        second,
    }
}
