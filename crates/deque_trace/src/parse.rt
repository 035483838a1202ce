// A line of the trace as a call.
use lines::{Kind, Number};

// What a line asks for. A silent line is answered by nothing; a bad one is no call; too many records cannot be made.
#[derive(Clone, Copy, Debug, PartialEq, Eq)]
pub enum Call {
    Silent,
    Bad,
    TooMany,
    Make { deques: u64, nodes: u64 },
    Push { d: usize, element: u64 },
    Pop { d: usize },
    Front { d: usize },
    Back { d: usize },
    Move { d: usize, s: usize },
    Unlink { d: usize, s: usize },
    Length { d: usize },
    Next { d: usize },
    Reset { d: usize },
    List { d: usize },
    Dump,
    Digest,
    Poke { column: Column, i: usize, x: usize },
    PokeElement { s: usize, element: u64 },
    PokeFree { free: usize },
}

// A column of the records that holds links, lengths or cursors.
#[derive(Clone, Copy, Debug, PartialEq, Eq)]
pub enum Column {
    Next,
    Prev,
    Home,
    Head,
    Tail,
    Length,
    Cursor,
}

// The call that the line is.
pub fn found(line: &[u8]) -> Call {
    match lines::kind_of(line) {
        Kind::Silent => Call::Silent,
        Kind::Long => Call::Bad,
        Kind::Call => spoken(line).unwrap_or(Call::Bad),
    }
}

// A word with its numbers, or a poke.
fn spoken(line: &[u8]) -> Option<Call> {
    let word = lines::part(line, 0);
    match lines::count(line) {
        1 => alone(word),
        2 => match word {
            b"poke-free" => Some(Call::PokeFree {
                free: link(line, 1)?,
            }),
            _ => of_deque(word, number(line, 1)? as usize),
        },
        3 => of_two(word, number(line, 1)?, number(line, 2)?),
        4 => {
            let i = number(line, 1)? as usize;
            match word {
                b"poke-node" => poke_node(line, i),
                b"poke-deque" => poke_deque(line, i),
                _ => None,
            }
        }
        _ => None,
    }
}

fn alone(word: &[u8]) -> Option<Call> {
    match word {
        b"dump" => Some(Call::Dump),
        b"digest" => Some(Call::Digest),
        _ => None,
    }
}

fn of_deque(word: &[u8], d: usize) -> Option<Call> {
    match word {
        b"pop" => Some(Call::Pop { d }),
        b"front" => Some(Call::Front { d }),
        b"back" => Some(Call::Back { d }),
        b"length" => Some(Call::Length { d }),
        b"next" => Some(Call::Next { d }),
        b"reset" => Some(Call::Reset { d }),
        b"list" => Some(Call::List { d }),
        _ => None,
    }
}

fn of_two(word: &[u8], i: u64, x: u64) -> Option<Call> {
    let d = i as usize;
    match word {
        b"make" => Some(Call::Make {
            deques: i,
            nodes: x,
        }),
        b"push" => Some(Call::Push { d, element: x }),
        b"move" => Some(Call::Move { d, s: x as usize }),
        b"unlink" => Some(Call::Unlink { d, s: x as usize }),
        _ => None,
    }
}

// `poke-node S FIELD V`.
fn poke_node(line: &[u8], s: usize) -> Option<Call> {
    match lines::part(line, 2) {
        b"next" => poke(Column::Next, s, link(line, 3)?),
        b"prev" => poke(Column::Prev, s, link(line, 3)?),
        b"home" => poke(Column::Home, s, link(line, 3)?),
        b"element" => Some(Call::PokeElement {
            s,
            element: number(line, 3)?,
        }),
        _ => None,
    }
}

// `poke-deque D FIELD V`.
fn poke_deque(line: &[u8], d: usize) -> Option<Call> {
    match lines::part(line, 2) {
        b"head" => poke(Column::Head, d, link(line, 3)?),
        b"tail" => poke(Column::Tail, d, link(line, 3)?),
        b"length" => poke(Column::Length, d, number(line, 3)? as usize),
        b"cursor" => poke(Column::Cursor, d, cursor(line, 3)?),
        _ => None,
    }
}

fn poke(column: Column, i: usize, x: usize) -> Option<Call> {
    Some(Call::Poke { column, i, x })
}

// The number that part k of the line says.
fn number(line: &[u8], k: usize) -> Option<u64> {
    match lines::number_at(line, k) {
        Number::Is(n) => Some(n),
        Number::Dash | Number::Other => None,
    }
}

// The link that it says: a number below 4,096, or `-` for none.
fn link(line: &[u8], k: usize) -> Option<usize> {
    match lines::number_at(line, k) {
        Number::Is(n) if n < lines::NONE => Some(n as usize),
        Number::Dash => Some(deque_alone::NONE),
        _ => None,
    }
}

// The cursor that it says: a link, or past the end.
fn cursor(line: &[u8], k: usize) -> Option<usize> {
    if lines::is_part(line, k, b"end") {
        return Some(deque_alone::PAST_END);
    }
    link(line, k)
}
