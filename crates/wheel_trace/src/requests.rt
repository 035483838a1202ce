// A line of the trace as what it asks for.
use crate::fields::{below, deadline, flag, generation, index, link, number};
use crate::records::Lend;
use lines::{count, part};
use wheel::Handle;

// What a line asks for, with its fields.
#[derive(Clone, Copy)]
pub enum Request {
    Lend(Lend),
    Place { reading: u64, deadline: u64 },
    Create(u64),
    Call(Call),
    Show(Show),
    Poke(Poke),
}

// A call that the wheel may refuse.
#[derive(Clone, Copy)]
pub enum Call {
    Enable,
    Set {
        entry: usize,
        deadline: Option<u64>,
        generation: u32,
    },
    Schedule {
        entry: usize,
        generation: u32,
    },
    Reschedule(Handle, u32),
    Deschedule(Handle, u32),
    Start(u64),
    Pull,
    Abandon,
    Armed,
    Due,
}

// What is shown of the records.
#[derive(Clone, Copy)]
pub enum Show {
    Bucket(usize),
    Clock,
    Dump,
    Digest,
}

// A field that is written: of a node record, of a bucket or of the clock.
#[derive(Clone, Copy)]
pub enum Poke {
    Node(usize, NodeField),
    Bucket(usize, BucketField),
    Clock(ClockField),
}

// A field of a node record, with what is written.
#[derive(Clone, Copy)]
pub enum NodeField {
    Next(usize),
    Prev(usize),
    Bucket(usize),
    Entry(usize),
    Generation(u32),
    Serial(u64),
}

// A field of a bucket, with what is written.
#[derive(Clone, Copy)]
pub enum BucketField {
    Head(usize),
    Tail(usize),
}

// A field of the clock, with what is written.
#[derive(Clone, Copy)]
pub enum ClockField {
    Enabled(bool),
    Reading(u64),
    Serial(u64),
    Open(bool),
    Previous(u64),
    Level(usize),
    Step(usize),
    Nodes(usize),
    Entries(usize),
    Free(usize),
}

// What the line asks for; none where it is no call.
pub fn request_of(line: &[u8]) -> Option<Request> {
    match count(line) {
        1 => of_one_part(line),
        2 => of_two_parts(line),
        3 => of_three_parts(line),
        4 => of_four_parts(line),
        _ => None,
    }
}

fn of_one_part(line: &[u8]) -> Option<Request> {
    match line {
        b"enable" => Some(Request::Call(Call::Enable)),
        b"pull" => Some(Request::Call(Call::Pull)),
        b"abandon" => Some(Request::Call(Call::Abandon)),
        b"armed" => Some(Request::Call(Call::Armed)),
        b"due" => Some(Request::Call(Call::Due)),
        b"clock" => Some(Request::Show(Show::Clock)),
        b"dump" => Some(Request::Show(Show::Dump)),
        b"digest" => Some(Request::Show(Show::Digest)),
        _ => None,
    }
}

fn of_two_parts(line: &[u8]) -> Option<Request> {
    match part(line, 0) {
        b"create" => Some(Request::Create(number(line, 1)?)),
        b"start" => Some(Request::Call(Call::Start(number(line, 1)?))),
        b"bucket" => Some(Request::Show(Show::Bucket(below(line, 1, 165)?))),
        _ => None,
    }
}

fn of_three_parts(line: &[u8]) -> Option<Request> {
    match part(line, 0) {
        b"lend" => Some(Request::Lend(Lend {
            nodes: below(line, 1, 4101)?,
            entries: below(line, 2, 4101)?,
        })),
        b"schedule" => Some(Request::Call(Call::Schedule {
            entry: index(line, 1)?,
            generation: generation(line, 2)?,
        })),
        b"place" => Some(Request::Place {
            reading: number(line, 1)?,
            deadline: number(line, 2)?,
        }),
        b"poke-clock" => Some(Request::Poke(Poke::Clock(clock_field(line)?))),
        _ => None,
    }
}

fn of_four_parts(line: &[u8]) -> Option<Request> {
    match part(line, 0) {
        b"set" => Some(Request::Call(Call::Set {
            entry: index(line, 1)?,
            deadline: deadline(line, 2)?,
            generation: generation(line, 3)?,
        })),
        b"reschedule" => Some(Request::Call(Call::Reschedule(handle(line)?, generation(line, 3)?))),
        b"deschedule" => Some(Request::Call(Call::Deschedule(handle(line)?, generation(line, 3)?))),
        b"poke-node" => Some(Request::Poke(Poke::Node(index(line, 1)?, node_field(line)?))),
        b"poke-bucket" => Some(Request::Poke(Poke::Bucket(index(line, 1)?, bucket_field(line)?))),
        _ => None,
    }
}

// `SLOT SERIAL`.
fn handle(line: &[u8]) -> Option<Handle> {
    Some(Handle {
        slot: index(line, 1)?,
        serial: number(line, 2)?,
    })
}

// `poke-node S FIELD V`.
fn node_field(line: &[u8]) -> Option<NodeField> {
    match part(line, 2) {
        b"next" => Some(NodeField::Next(link(line, 3)?)),
        b"prev" => Some(NodeField::Prev(link(line, 3)?)),
        b"bucket" => Some(NodeField::Bucket(link(line, 3)?)),
        b"entry" => Some(NodeField::Entry(index(line, 3)?)),
        b"generation" => Some(NodeField::Generation(generation(line, 3)?)),
        b"serial" => Some(NodeField::Serial(number(line, 3)?)),
        _ => None,
    }
}

// `poke-bucket B FIELD V`.
fn bucket_field(line: &[u8]) -> Option<BucketField> {
    match part(line, 2) {
        b"head" => Some(BucketField::Head(link(line, 3)?)),
        b"tail" => Some(BucketField::Tail(link(line, 3)?)),
        _ => None,
    }
}

// `poke-clock FIELD V`.
fn clock_field(line: &[u8]) -> Option<ClockField> {
    match part(line, 1) {
        b"enabled" => Some(ClockField::Enabled(flag(line, 2)?)),
        b"reading" => Some(ClockField::Reading(number(line, 2)?)),
        b"serial" => Some(ClockField::Serial(number(line, 2)?)),
        b"open" => Some(ClockField::Open(flag(line, 2)?)),
        b"previous" => Some(ClockField::Previous(number(line, 2)?)),
        b"level" => Some(ClockField::Level(index(line, 2)?)),
        b"step" => Some(ClockField::Step(index(line, 2)?)),
        b"nodes" => Some(ClockField::Nodes(index(line, 2)?)),
        b"entries" => Some(ClockField::Entries(index(line, 2)?)),
        b"free" => Some(ClockField::Free(link(line, 2)?)),
        _ => None,
    }
}
