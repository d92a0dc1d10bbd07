//! What the words ask for.
use lms_ots::OtsType;
use lms_tree::Height;

pub const SEED: [u8; 32] = [1; 32];

pub const ID: [u8; 16] = [7; 16];

/// Which of the two bodies of a call is measured.
#[derive(Clone, Copy)]
pub enum Body {
    /// Four chains side by side.
    Lanes,
    /// One chain after another.
    Plain,
}

/// What is measured.
pub enum Task {
    /// So many chains of 255 steps.
    Step(u32, Body),
    /// A key, by so many workers.
    Make(Height, OtsType, usize, Body),
    /// Each leaf of a tree of height 5 signs in each of so many rounds, and each signature is verified.
    Sign(OtsType, u16, Body),
    /// A table of so many rows, at most 1,000,000, is hashed, judged and compared.
    Table(u32),
}

fn body_of(name: &str) -> Option<Body> {
    match name {
        "lanes" => Some(Body::Lanes),
        "plain" => Some(Body::Plain),
        _ => None,
    }
}

fn type_of(width: &str) -> Option<OtsType> {
    match width {
        "1" => Some(OtsType::W1),
        "2" => Some(OtsType::W2),
        "4" => Some(OtsType::W4),
        "8" => Some(OtsType::W8),
        _ => None,
    }
}

fn height_of(height: &str) -> Option<Height> {
    match height {
        "5" => Some(Height::H5),
        "10" => Some(Height::H10),
        "15" => Some(Height::H15),
        _ => None,
    }
}

// A number of rows.
fn rows_of(word: &str) -> Option<u32> {
    match word.parse::<u32>() {
        Ok(rows) if rows <= 1_000_000 => Some(rows),
        _ => None,
    }
}

/// The task that the words name, if any.
pub fn task_of(words: &[String]) -> Option<Task> {
    match words {
        [name, chains, body] if name.as_str() == "step" => Some(Task::Step(
            chains.as_str().parse().ok()?,
            body_of(body.as_str())?,
        )),
        [name, height, width, workers, body] if name.as_str() == "make" => Some(Task::Make(
            height_of(height.as_str())?,
            type_of(width.as_str())?,
            workers.as_str().parse().ok()?,
            body_of(body.as_str())?,
        )),
        [name, width, rounds, body] if name.as_str() == "sign" => Some(Task::Sign(
            type_of(width.as_str())?,
            rounds.as_str().parse().ok()?,
            body_of(body.as_str())?,
        )),
        [name, rows] if name.as_str() == "table" => Some(Task::Table(rows_of(rows.as_str())?)),
        _ => None,
    }
}

/// The first eight bytes, as a number that is printed.
pub fn front(digest: &[u8; 32]) -> u64 {
    let [a, b, c, d, e, f, g, h, ..] = *digest;
    u64::from_be_bytes([a, b, c, d, e, f, g, h])
}
